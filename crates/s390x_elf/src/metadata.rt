//! Tables of what a runtime looks up.
ghost use Rattle.std.specs.Prelude.{◌≡◌, ℕ, ◌<◌, ◌∷◌, [], ◌++◌, List, IfOk, length};
ghost use Rattle.std.specs.List.{All, flat_map, list_any};
ghost use Rattle.s390x_elf.specs.Metadata.{call_row, handler_row, handlers_of, has_entries, map_row, member_codes, part, patch_row, row_width, rows, table_name, trap_row, try_row};
ghost use Rattle.s390x_elf.specs.TableBytes.{AddsSections, HasPart, IsTable, IsWide, MetadataFits, TableFits, code_of, codes_of, kinds_sections, metadata_sections, part_entry, table_number, table_relocation_section, table_relocations_name, table_section, table_sections, wides};
ghost use Rattle.s390x_elf.specs.Writing.{section_of};

use crate::fields::{Field, put_fields};
use crate::file::{SHT_PROGBITS, SHT_RELA, SectionParts};
use crate::members::ObjectMember;
use s390x_buffer::{HandlerEntry, MachBufferFinalized, MapEntry, PatchEntry, TrapEntry, TryEntry};
use s390x_tables::trap_number;
use std::alloc::{AllocError, Global};

/// A kind of table.
#[derive(Clone, Copy)]
pub enum TableKind {
    Traps,
    Calls,
    Tries,
    Handlers,
    Patches,
    StackMaps,
}

/// A table of an object's functions, and the entries of its relocations.
#[derive(Drop)]
pub struct Table {
    pub content: Vec<u8>,
    pub relocations: Vec<u8>,
}

/// Finished code whose entries stand in tables.
#[derive(Clone, Copy)]
pub struct Coded<'a> {
    pub code: &'a MachBufferFinalized,
}

// The kinds in the order of their sections.
const KINDS: [TableKind; 6] = [
    TableKind::Traps,
    TableKind::Calls,
    TableKind::Tries,
    TableKind::Handlers,
    TableKind::Patches,
    TableKind::StackMaps,
];

// What `R_390_PC64` is called.
const DISTANCE: u64 = 23;
// Bytes that are loaded.
const ALLOC: u64 = 2;
// `sh_info` tells a section.
const INFO_LINK: u64 = 64;
// The number of the table of symbols among the sections.
const SYMBOLS: u32 = 1;

/// An entry of finished code that is a row of numbers.
pub trait Row {
    ghost flat: { Self → List ℕ };

    /// Puts the numbers behind others.
    fn put_row(&self, numbers: &mut Vec<u64>) -> Result<(), AllocError>
        ensures { IfOk result (λ _. numbers.new.items ≡ numbers.old.items ++ flat self.now) };
}

impl Row for TrapEntry {
    ghost flat = { trap_row };

    fn put_row(&self, numbers: &mut Vec<u64>) -> Result<(), AllocError> {
        let code = u64::from(trap_number(self.code));
        numbers.extend_from_slice(&[u64::from(self.offset), code])
    }
}

impl Row for u32 {
    ghost flat = { call_row };

    fn put_row(&self, numbers: &mut Vec<u64>) -> Result<(), AllocError> {
        numbers.push(u64::from(*self))?;
        Ok(())
    }
}

impl Row for TryEntry {
    ghost flat = { try_row };

    fn put_row(&self, numbers: &mut Vec<u64>) -> Result<(), AllocError> {
        let handlers = self.handlers.len() as u64;
        numbers.extend_from_slice(&[u64::from(self.offset), self.frame, handlers])
    }
}

impl Row for PatchEntry {
    ghost flat = { patch_row };

    fn put_row(&self, numbers: &mut Vec<u64>) -> Result<(), AllocError> {
        numbers.extend_from_slice(&[u64::from(self.offset), u64::from(self.len)])
    }
}

impl Row for MapEntry {
    ghost flat = { map_row };

    fn put_row(&self, numbers: &mut Vec<u64>) -> Result<(), AllocError> {
        numbers.extend_from_slice(&[u64::from(self.offset), u64::from(self.map)])
    }
}

// Puts the rows of entries behind others.
fn put_rows<E: Row>(numbers: &mut Vec<u64>, entries: &[E]) -> Result<(), AllocError>
    ensures { IfOk result
        (λ _. numbers.new.items ≡ numbers.old.items ++ flat_map E.flat entries.now) }
{
    for entry in entries {
        entry.put_row(numbers)?;
    }
    Ok(())
}

// Puts the row of a handler behind others.
fn put_handler(numbers: &mut Vec<u64>, call: u32, handler: HandlerEntry) -> Result<(), AllocError>
    ensures { IfOk result (λ _. numbers.new.items ≡ numbers.old.items ++ handler_row call handler) }
{
    let call = u64::from(call);
    let offset = u64::from(handler.offset);
    match handler.tag {
        Some(tag) => numbers.extend_from_slice(&[call, 1, u64::from(tag), offset]),
        None => numbers.extend_from_slice(&[call, 0, 0, offset]),
    }
}

// Puts the rows of a call's handlers behind others.
fn put_handlers(
    numbers: &mut Vec<u64>,
    call: u32,
    handlers: &[HandlerEntry],
) -> Result<(), AllocError>
    ensures { IfOk result
        (λ _. numbers.new.items ≡ numbers.old.items ++ flat_map (handler_row call) handlers.now) }
{
    for handler in handlers {
        put_handler(numbers, call, *handler)?;
    }
    Ok(())
}

// Puts the rows of the calls' handlers behind others.
fn put_all_handlers(numbers: &mut Vec<u64>, tries: &[TryEntry]) -> Result<(), AllocError>
    ensures { IfOk result
        (λ _. numbers.new.items ≡ numbers.old.items ++ flat_map handlers_of tries.now) }
{
    for entry in tries {
        put_handlers(numbers, entry.offset, &entry.handlers)?;
    }
    Ok(())
}

// Puts the rows of a kind behind others.
fn put_numbers(
    numbers: &mut Vec<u64>,
    kind: TableKind,
    code: &MachBufferFinalized,
) -> Result<(), AllocError>
    ensures { IfOk result (λ _. numbers.new.items ≡ numbers.old.items ++ rows kind code.now) }
{
    match kind {
        TableKind::Traps => put_rows(numbers, &code.traps),
        TableKind::Calls => put_rows(numbers, &code.call_sites),
        TableKind::Tries => put_rows(numbers, &code.try_call_sites),
        TableKind::Handlers => put_all_handlers(numbers, &code.try_call_sites),
        TableKind::Patches => put_rows(numbers, &code.patchable_sites),
        TableKind::StackMaps => put_rows(numbers, &code.stack_maps),
    }
}

// How many numbers a row of a kind has.
fn row_width(kind: TableKind) -> usize
    ensures value { result ≡ row_width kind }
    ensures some { 0 < result }
{
    match kind {
        TableKind::Calls => 1,
        TableKind::Traps | TableKind::Patches | TableKind::StackMaps => 2,
        TableKind::Tries => 3,
        TableKind::Handlers => 4,
    }
}

// Puts a number of eight bytes behind others.
fn put_wide(bytes: &mut Vec<u8>, number: u64) -> Result<(), AllocError>
    ensures bytes { IfOk result (λ _. bytes.new.items ≡ bytes.old.items ++ wides (number ∷ [])) }
    ensures fits { IsWide number }
{
    put_fields(bytes, &[Field::Wide(number)])
}

// Puts numbers of eight bytes behind others.
fn put_wides(bytes: &mut Vec<u8>, numbers: &[u64]) -> Result<(), AllocError>
    ensures bytes { IfOk result (λ _. bytes.new.items ≡ bytes.old.items ++ wides numbers.now) }
    ensures fits { IfOk result (λ _. All IsWide numbers.now) }
{
    for number in numbers {
        put_wide(bytes, *number)?;
    }
    Ok(())
}

// Puts the entry of a part's relocation behind others: the part starts there, and its function's
// symbol has this number.
fn put_relocation(entries: &mut Vec<u8>, at: u64, function: u32) -> Result<(), AllocError>
    ensures { IfOk result (λ _. entries.new.items ≡ entries.old.items ++ part_entry at function) }
{
    let info = u64::from(function) * 4294967296 + DISTANCE;
    put_fields(
        entries,
        &[Field::Wide(at), Field::Wide(info), Field::Wide(0)],
    )
}

// A function's part of a table.
fn part_of(
    alloc: Global,
    kind: TableKind,
    code: &MachBufferFinalized,
) -> Result<Vec<u64>, AllocError>
    ensures { IfOk result (λ numbers. numbers.items ≡ part kind code.now) }
{
    let mut rows = Vec::new(alloc);
    put_numbers(&mut rows, kind, code)?;
    let count = rows.len() / row_width(kind);
    let mut numbers = Vec::new(alloc);
    numbers.extend_from_slice(&[0, count as u64])?;
    numbers.extend_from_slice(&rows)?;
    Ok(numbers)
}

// Puts a function's part behind others, where its symbol has this number.
fn add_part(
    alloc: Global,
    table: &mut Table,
    kind: TableKind,
    code: &MachBufferFinalized,
    function: u32,
) -> Result<(), AllocError>
    ensures { IfOk result (λ _. HasPart kind code.now function table.old table.new) }
{
    let numbers = part_of(alloc, kind, code)?;
    put_relocation(&mut table.relocations, table.content.len() as u64, function)?;
    put_wides(&mut table.content, &numbers)?;
    Ok(())
}

// The table of a kind of functions with this code, whose symbols have the numbers from 1 on.
fn table_of(alloc: Global, kind: TableKind, codes: &[Coded]) -> Result<Table, AllocError>
    requires { length codes.now < 4294967295 }
    ensures { IfOk result (IsTable kind (codes_of codes.now)) }
{
    let mut table = Table {
        content: Vec::new(alloc),
        relocations: Vec::new(alloc),
    };
    let mut function: u32 = 0;
    for coded in codes {
        function += 1;
        add_part(alloc, &mut table, kind, coded.code, function)?;
    }
    Ok(table)
}

// The section of a kind.
fn table_name(kind: TableKind) -> &'static [u8]
    ensures { result.now ≡ table_name kind }
{
    match kind {
        TableKind::Traps => b"s390x_traps",
        TableKind::Calls => b"s390x_calls",
        TableKind::Tries => b"s390x_tries",
        TableKind::Handlers => b"s390x_handlers",
        TableKind::Patches => b"s390x_patches",
        TableKind::StackMaps => b"s390x_stack_maps",
    }
}

// The section of a kind's relocations.
fn relocations_name(kind: TableKind) -> &'static [u8]
    ensures { result.now ≡ table_relocations_name kind }
{
    match kind {
        TableKind::Traps => b".relas390x_traps",
        TableKind::Calls => b".relas390x_calls",
        TableKind::Tries => b".relas390x_tries",
        TableKind::Handlers => b".relas390x_handlers",
        TableKind::Patches => b".relas390x_patches",
        TableKind::StackMaps => b".relas390x_stack_maps",
    }
}

// The number of a kind's section.
fn table_number(kind: TableKind) -> u32
    ensures { result ≡ table_number kind }
{
    match kind {
        TableKind::Traps => 6,
        TableKind::Calls => 8,
        TableKind::Tries => 10,
        TableKind::Handlers => 12,
        TableKind::Patches => 14,
        TableKind::StackMaps => 16,
    }
}

// The section of a kind.
fn table_section(kind: TableKind, content: Vec<u8>) -> SectionParts
    ensures { section_of result ≡ table_section kind content.items }
{
    SectionParts {
        name: table_name(kind),
        kind: SHT_PROGBITS,
        flags: ALLOC,
        link: 0,
        info: 0,
        alignment: 8,
        entry_size: 0,
        content,
    }
}

// The section of a kind's relocations.
fn relocation_section(kind: TableKind, entries: Vec<u8>) -> SectionParts
    ensures { section_of result ≡ table_relocation_section kind entries.items }
{
    SectionParts {
        name: relocations_name(kind),
        kind: SHT_RELA,
        flags: INFO_LINK,
        link: SYMBOLS,
        info: table_number(kind),
        alignment: 8,
        entry_size: 24,
        content: entries,
    }
}

// Puts the two sections of a kind behind others.
fn put_kind(
    alloc: Global,
    sections: &mut Vec<SectionParts>,
    kind: TableKind,
    codes: &[Coded],
) -> Result<(), AllocError>
    requires { length codes.now < 4294967295 }
    ensures sections { IfOk result
        (λ _. AddsSections sections.old sections.new (table_sections (codes_of codes.now) kind)) }
    ensures fits { IfOk result (λ _. TableFits (codes_of codes.now) kind) }
{
    let table = table_of(alloc, kind, codes)?;
    let Table {
        content,
        relocations,
    } = table;
    sections.push(table_section(kind, content))?;
    sections.push(relocation_section(kind, relocations))?;
    Ok(())
}

// Puts the sections of kinds behind others.
fn put_kinds(
    alloc: Global,
    sections: &mut Vec<SectionParts>,
    kinds: &[TableKind],
    codes: &[Coded],
) -> Result<(), AllocError>
    requires { length codes.now < 4294967295 }
    ensures sections { IfOk result
        (λ _. AddsSections sections.old sections.new
        (kinds_sections (codes_of codes.now) kinds.now)) }
    ensures fits { IfOk result (λ _. All (TableFits (codes_of codes.now)) kinds.now) }
{
    for kind in kinds {
        put_kind(alloc, sections, *kind, codes)?;
    }
    Ok(())
}

// Whether finished code has an entry of any kind.
fn has_entries(code: &MachBufferFinalized) -> bool
    ensures { result ≡ has_entries code.now }
{
    !code.traps.is_empty()
        || !code.call_sites.is_empty()
        || !code.try_call_sites.is_empty()
        || !code.patchable_sites.is_empty()
        || !code.stack_maps.is_empty()
}

// Whether some code has an entry of any kind.
fn have_entries(codes: &[Coded]) -> bool
    ensures { result ≡ list_any has_entries (codes_of codes.now) }
{
    for coded in codes {
        if has_entries(coded.code) {
            return true;
        }
    }
    false
}

/// Puts the sections of all kinds behind others, where some code has an entry of any kind; else
/// none.
pub fn put_tables(
    alloc: Global,
    sections: &mut Vec<SectionParts>,
    codes: &[Coded],
) -> Result<(), AllocError>
    requires { length codes.now < 4294967295 }
    ensures sections { IfOk result
        (λ _. AddsSections sections.old sections.new (metadata_sections (codes_of codes.now))) }
    ensures fits { IfOk result (λ _. MetadataFits (codes_of codes.now)) }
{
    if have_entries(codes) {
        put_kinds(alloc, sections, &KINDS, codes)?;
        return Ok(());
    }
    Ok(())
}

/// The code of members.
pub fn member_codes<'a>(
    alloc: Global,
    members: &'a [ObjectMember],
) -> Result<Vec<Coded<'a>>, AllocError>
    ensures { IfOk result (λ codes. codes_of codes.items ≡ member_codes members.now) }
{
    let mut codes = Vec::new(alloc);
    for member in members {
        codes.push(Coded { code: &member.code })?;
    }
    Ok(codes)
}
