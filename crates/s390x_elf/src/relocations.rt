//! The relocations of an object.
ghost use Rattle.std.specs.Prelude.{◌≡◌, ◌+◌, ◌<◌, ◌^◌, ◌++◌, IfOk, length, map};
ghost use Rattle.std.specs.List.{All};
ghost use Rattle.s390x_elf.specs.Names.{name_in};
ghost use Rattle.s390x_elf.specs.Object.{type_of, with_used_names};
ghost use Rattle.s390x_elf.specs.Tables.{Indexes, RelocFits, symbol_of, relocation_entry, relocation_entries};

use crate::fields::{Field, put_fields};
use crate::names::{GivenName, symbol_name};
use crate::symbols::GlobalSymbols;
use s390x_base::Reloc;
use s390x_buffer::RelocEntry;
use std::alloc::{AllocError, Global};

// `R_390_PC32DBL`, `R_390_PLT32DBL`, `R_390_64`.
fn relocation_type(kind: Reloc) -> u64
    ensures value { result ≡ type_of kind }
    ensures small { result < 256 }
{
    match kind {
        Reloc::S390xPCRel32Dbl => 19,
        Reloc::S390xPLTRel32Dbl => 20,
        Reloc::Abs8 => 22,
    }
}

/// Adds the names that relocations use to global symbols.
pub fn add_used_names(
    alloc: Global,
    names: &[GivenName],
    symbols: &mut GlobalSymbols,
    relocs: &[RelocEntry],
) -> Result<(), AllocError>
    requires { Indexes symbols.old.places (map symbol_of symbols.old.symbols.items) }
    ensures places { IfOk result
        (λ _. Indexes symbols.new.places (map symbol_of symbols.new.symbols.items)) }
    ensures symbols { IfOk result
        (λ _. map symbol_of symbols.new.symbols.items
        ≡ with_used_names (name_in names.now) (map symbol_of symbols.old.symbols.items)
        relocs.now) }
{
    for reloc in relocs {
        let name = symbol_name(alloc, names, reloc.name)?;
        symbols.add_name(name)?;
    }
    Ok(())
}

// Puts the entry of a relocation behind others.
fn put_entry(
    alloc: Global,
    names: &[GivenName],
    entries: &mut Vec<u8>,
    symbols: &GlobalSymbols,
    reloc: RelocEntry,
) -> Result<(), AllocError>
    requires places { Indexes symbols.now.places (map symbol_of symbols.now.symbols.items) }
    requires few { length symbols.now.symbols.items < 4294967296 }
    ensures entries { IfOk result
        (λ _. entries.new.items
        ≡ entries.old.items
        ++ relocation_entry (name_in names.now) (map symbol_of symbols.now.symbols.items)
        reloc) }
    ensures fits { RelocFits reloc }
{
    let name = symbol_name(alloc, names, reloc.name)?;
    let number = symbols.number(name.as_str());
    let info = number * 4294967296 + relocation_type(reloc.kind);
    let fields = [
        Field::Wide(u64::from(reloc.offset)),
        Field::Wide(info),
        Field::Wide(reloc.addend.cast_unsigned()),
    ];
    put_fields(entries, &fields)?;
    Ok(())
}

/// The entries of relocations, by the numbers of the symbols that they name.
pub fn relocation_entries(
    alloc: Global,
    names: &[GivenName],
    symbols: &GlobalSymbols,
    relocs: &[RelocEntry],
) -> Result<Vec<u8>, AllocError>
    requires places { Indexes symbols.now.places (map symbol_of symbols.now.symbols.items) }
    requires few { length symbols.now.symbols.items < 4294967296 }
    ensures entries { IfOk result
        (λ entries. entries.items
        ≡ relocation_entries (name_in names.now) (map symbol_of symbols.now.symbols.items)
        relocs.now) }
    ensures fits { IfOk result (λ _. All RelocFits relocs.now) }
{
    let mut entries = Vec::new(alloc);
    for reloc in relocs {
        put_entry(alloc, names, &mut entries, symbols, *reloc)?;
    }
    Ok(entries)
}
