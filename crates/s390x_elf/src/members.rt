//! Several functions in a text, one behind the other.
ghost use Rattle.std.specs.Prelude.{◌≡◌, ◌+◌, ◌-◌, ◌<◌, ◌≤◌, ◌++◌, ◌∷◌, [], None, Some, IfOk, MatchResult, length, map};
ghost use Rattle.s390x_elf.specs.Answers.{MembersAnswer, MemberAnswer, TextOfMembersAnswer};
ghost use Rattle.s390x_elf.specs.Causes.{IsCause};
ghost use Rattle.s390x_elf.specs.Members.{IsLinkedAsMembers, end_or_zero, function_at, limit_cause, member_relocation, offsets_cause, start_behind, zeros};
ghost use Rattle.s390x_elf.specs.Metadata.{HasTablesOfMembers};
ghost use Rattle.s390x_elf.specs.Object.{function_of};

use crate::error::ObjectError;
use crate::metadata::member_codes;
use crate::names::GivenName;
use crate::object_file::{file_with_tables, text_sections};
use crate::symbols::TextFunction;
use s390x_buffer::{MachBufferFinalized, RelocEntry};
use std::alloc::{AllocError, Global};

/// A function of an object.
#[derive(Drop)]
pub struct ObjectMember {
    pub name: String,
    /// Its finished code.
    pub code: MachBufferFinalized,
}

/// The functions of members in a text.
#[derive(Drop)]
pub struct Text {
    pub functions: Vec<TextFunction>,
    pub alignment: u32,
    pub bytes: Vec<u8>,
    pub relocs: Vec<RelocEntry>,
}

// Where a member starts behind the end of the one before it.
fn start_behind(end: Option<u32>, alignment: u32) -> u64
    ensures value { result ≡ start_behind end alignment }
    ensures near { result < 8589934592 }
{
    match end {
        Some(end) => {
            let alignment = u64::from(alignment.max(1));
            (u64::from(end) + 2 + (alignment - 1)) / alignment * alignment
        }
        None => 0,
    }
}

// The end of a member that starts there, where it is below 2^31.
fn checked_end(start: u64, size: u64) -> Result<u32, ObjectError>
    ensures { let cause = limit_cause 2147483648 (start + size) in
        MatchResult result (λ end. (cause ≡ None) × (end ≡ start + size)) (λ e. cause ≡ Some e) }
{
    let end = u128::from(start) + u128::from(size);
    if 2147483648 <= end {
        return Err(ObjectError::TooLong);
    }
    Ok(end as u32)
}

// A relocation of a member that starts there, where its offset is below 2^32.
fn member_relocation(start: u32, reloc: RelocEntry) -> Result<RelocEntry, ObjectError>
    ensures { let cause = limit_cause 4294967296 (start + reloc.offset) in
        MatchResult result (λ r. (cause ≡ None) × (r ≡ member_relocation start reloc))
        (λ e. cause ≡ Some e) }
{
    let offset = u64::from(start) + u64::from(reloc.offset);
    if 4294967296 <= offset {
        return Err(ObjectError::TooLong);
    }
    Ok(RelocEntry {
        offset: offset as u32,
        kind: reloc.kind,
        name: reloc.name,
        addend: reloc.addend,
    })
}

// Puts the relocations of a member that starts there behind others.
fn put_relocs(
    relocs: &mut Vec<RelocEntry>,
    start: u32,
    added: &[RelocEntry],
) -> Result<(), ObjectError>
    ensures { let cause = offsets_cause start added.now in
        MatchResult result
        (λ _. (cause ≡ None)
        × (relocs.new.items ≡ relocs.old.items ++ map (member_relocation start) added.now))
        (IsCause cause) }
{
    for reloc in added {
        match member_relocation(start, *reloc) {
            Ok(reloc) => {
                if relocs.push(reloc).is_err() {
                    return Err(ObjectError::NoMemory);
                }
            }
            Err(error) => return Err(error),
        }
    }
    Ok(())
}

// Puts a member's bytes behind those before it, with zeros up to its start.
fn put_bytes(bytes: &mut Vec<u8>, start: u32, part: &[u8]) -> Result<(), AllocError>
    requires { length bytes.old.items ≤ start }
    ensures { IfOk result
        (λ _. bytes.new.items
        ≡ bytes.old.items ++ (zeros (start - length bytes.old.items) ++ part.now)) }
{
    let gap = start as usize - bytes.len();
    for _i in 0..gap {
        bytes.push(0)?;
    }
    bytes.extend_from_slice(part)
}

// Puts a member's function behind others.
fn put_function(
    functions: &mut Vec<TextFunction>,
    member: &ObjectMember,
    start: u32,
) -> Result<(), AllocError>
    ensures { IfOk result
        (λ _. map function_of functions.new.items
        ≡ map function_of functions.old.items ++ function_at start member.now ∷ []) }
{
    let name = member.name.clone()?;
    functions.push(TextFunction {
        name,
        start: u64::from(start),
        size: member.code.bytes.len() as u64,
    })?;
    Ok(())
}

// Puts a member behind those before it, and tells where it ends.
fn put_member(text: &mut Text, end: Option<u32>, member: &ObjectMember) -> Result<u32, ObjectError>
    requires { length text.old.bytes.items ≡ end_or_zero end }
    ensures { MemberAnswer end member.now text.old text.new result }
{
    let start = start_behind(end, member.code.alignment);
    let behind = checked_end(start, member.code.bytes.len() as u64)?;
    let start = start as u32;
    put_relocs(&mut text.relocs, start, &member.code.relocs)?;
    let Ok(()) = put_bytes(&mut text.bytes, start, &member.code.bytes) else {
        return Err(ObjectError::NoMemory);
    };
    let Ok(()) = put_function(&mut text.functions, member, start) else {
        return Err(ObjectError::NoMemory);
    };
    text.alignment = text.alignment.max(member.code.alignment);
    Ok(behind)
}

// The text of members one behind the other.
fn text_of_members(alloc: Global, members: &[ObjectMember]) -> Result<Text, ObjectError>
    ensures { TextOfMembersAnswer members.now result }
{
    let mut text = Text {
        functions: Vec::new(alloc),
        alignment: 1,
        bytes: Vec::new(alloc),
        relocs: Vec::new(alloc),
    };
    let mut end = None;
    for member in members {
        match put_member(&mut text, end, member) {
            Ok(behind) => end = Some(behind),
            Err(error) => return Err(error),
        }
    }
    Ok(text)
}

/// An object of several functions, some of whose symbols are given names; `text_object` says how.
/// The first one starts at 0, each later one at the least multiple of its alignment that is at
/// least 2 behind the end of the one before, with zeros between. Where some code has an entry of any
/// kind, the tables of all stand in sections, as `object_with_names` has one function's.
///
/// Refused by the first cause. Of the members in order: one ends at 2^31 or above, or a relocation
/// of it has an offset of 2^32 or above (`TooLong`). Then what `text_object` says of their
/// functions, of the given names and of all names. Or for want of memory.
pub fn objects_with_names(
    alloc: Global,
    names: &[GivenName],
    members: &[ObjectMember],
) -> Result<Vec<u8>, ObjectError>
    ensures answer { MembersAnswer names.now members.now result }
    ensures linked { IfOk result (λ file. IsLinkedAsMembers names.now members.now file.items) }
    ensures tables { IfOk result (λ file. HasTablesOfMembers members.now file.items) }
{
    let text = text_of_members(alloc, members)?;
    let sections = text_sections(
        alloc,
        names,
        &text.functions,
        text.alignment,
        &text.bytes,
        &text.relocs,
    )?;
    let Ok(codes) = member_codes(alloc, members) else {
        return Err(ObjectError::NoMemory);
    };
    let Ok(file) = file_with_tables(alloc, sections, &codes) else {
        return Err(ObjectError::NoMemory);
    };
    Ok(file)
}

/// An object of several functions, whose symbols are called `u7` and so on; `objects_with_names`
/// says how, and what is refused.
pub fn objects(alloc: Global, members: &[ObjectMember]) -> Result<Vec<u8>, ObjectError>
    ensures answer { MembersAnswer [] members.now result }
    ensures linked { IfOk result (λ file. IsLinkedAsMembers [] members.now file.items) }
    ensures tables { IfOk result (λ file. HasTablesOfMembers members.now file.items) }
{
    objects_with_names(alloc, &[], members)
}
