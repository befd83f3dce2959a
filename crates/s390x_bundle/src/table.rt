//! The symbols of a member.
ghost use Rattle.std.specs.Prelude.{◌≡◌, ◌+◌, ◌<◌, ◌^◌, IfOk, length};
ghost use Rattle.std.specs.List.{All};
ghost use Rattle.s390x_image.specs.Symbols.{Symbols, no_symbols};
ghost use Rattle.s390x_bundle.specs.Table.{AnswersAlike, AreJoined, joint_symbols, with_lines};

use crate::member::Member;
use s390x_base::NoMemory;
use s390x_buffer::RelocEntry;
use s390x_image::SymbolTable;
use s390x_job::SymbolLine;
use std::alloc::Global;

/// The symbols of these lines, each in place of an earlier one of its name. An error comes only when out of memory.
pub fn symbol_table(alloc: Global, lines: &[SymbolLine]) -> Result<SymbolTable, NoMemory>
    ensures { IfOk result (λ table. table ≡ with_lines no_symbols lines.now) }
{
    let mut table = SymbolTable::new(alloc);
    for line in lines {
        table.insert(line.name, line.address)?;
    }
    Ok(table)
}

/// All members at their starts in an image at a base.
pub fn joint_table(
    alloc: Global,
    base: u64,
    members: &[Member],
    starts: &[u32],
) -> Result<SymbolTable, NoMemory>
    requires counts { length starts.now ≡ length members.now }
    requires fits { All (λ start. base + start < 2 ^ 64) starts.now }
    ensures { IfOk result (λ table. table ≡ joint_symbols base members.now starts.now) }
{
    let mut table = SymbolTable::new(alloc);
    for (number, member) in members.iter().enumerate() {
        table.insert(member.name, base + u64::from(starts[number]))?;
    }
    Ok(table)
}

/// The symbols that a member's relocations need: those of its own lines, and of the joint table those that are named. A name that is in both has the joint
/// address. The joint table is made once for all members, and is looked up only.
pub fn member_table(
    alloc: Global,
    joint: &SymbolTable,
    lines: &[SymbolLine],
    relocs: &[RelocEntry],
) -> Result<SymbolTable, NoMemory>
    ensures { (symbols : Symbols) → AreJoined joint.now lines.now symbols
        → IfOk result (λ table. AnswersAlike relocs.now table symbols) }
{
    let mut table = symbol_table(alloc, lines)?;
    for reloc in relocs {
        if let Some(address) = joint.get(reloc.name) {
            table.insert(reloc.name, address)?;
        }
    }
    Ok(table)
}
