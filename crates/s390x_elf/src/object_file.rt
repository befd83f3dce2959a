//! An object of finished code.
ghost use Rattle.std.specs.Prelude.{◌≡◌, ◌+◌, ◌<◌, ◌^◌, ◌∷◌, [], Some, None, IfOk, MatchResult, codes, length, map, nat_eq};
ghost use Rattle.std.specs.List.{All, list_any};
ghost use Rattle.s390x_elf.specs.Causes.{IsCause, function_cause, functions_cause, given_cause, name_cause};
ghost use Rattle.s390x_elf.specs.Answers.{FunctionsAnswer, IsFileOf, IsTextLinked, ObjectAnswer, SectionsAnswer, TextAnswer};
ghost use Rattle.s390x_elf.specs.Metadata.{HasTablesOfCode};
ghost use Rattle.s390x_elf.specs.Object.{IsLinkedAsImage, IsLinkedAsNamed, function_of, function_symbol, stack_note, string_table, text_section};
ghost use Rattle.s390x_elf.specs.Tables.{FunctionFits, Indexes, relocation_section, sections_by, symbol_of, symbol_section};
ghost use Rattle.s390x_elf.specs.Writing.{AreFew, section_of, string_section};

use crate::error::ObjectError;
use crate::file::{SHT_PROGBITS, SHT_RELA, SHT_STRTAB, SHT_SYMTAB, SectionParts, write_file};
use crate::metadata::{Coded, put_tables};
use crate::names::GivenName;
use crate::relocations::{add_used_names, relocation_entries};
use crate::symbols::{GlobalSymbols, TEXT, TextFunction, string_table, symbol_entries};
use s390x_buffer::{MachBufferFinalized, RelocEntry};
use std::alloc::{AllocError, Global};

// The sections' numbers.
const SYMBOLS: u32 = 1;

const NAMES: u32 = 4;
// Bytes that are loaded and run.
const ALLOC_AND_EXECINSTR: u64 = 6;
// `sh_info` tells a section.
const INFO_LINK: u64 = 64;

// Whether one of the bytes is zero.
fn has_zero(bytes: &[u8]) -> bool
    ensures { result ≡ list_any (λ b. nat_eq b 0) bytes.now }
{
    bytes.contains(&0)
}

// Whether a function may have a name.
fn check_name(name: &str) -> Result<(), ObjectError>
    ensures { MatchResult result (λ _. name_cause name.now ≡ None)
        (λ e. name_cause name.now ≡ Some e) }
{
    if name.is_empty() {
        return Err(ObjectError::EmptyName);
    }
    if has_zero(name.as_bytes()) {
        return Err(ObjectError::ZeroByte);
    }
    Ok(())
}

// Whether a function may stand behind others, whose symbols these are.
fn check_function(symbols: &GlobalSymbols, function: &TextFunction) -> Result<(), ObjectError>
    requires { Indexes symbols.now.places (map symbol_of symbols.now.symbols.items) }
    ensures { let cause = function_cause (map symbol_of symbols.now.symbols.items)
        (function_of function.now) in MatchResult result (λ _. cause ≡ None) (λ e. cause ≡ Some e) }
{
    check_name(function.name.as_str())?;
    if symbols.has(function.name.as_str()) {
        return Err(ObjectError::DuplicateName);
    }
    if function.size == 0 {
        return Err(ObjectError::EmptyMember);
    }
    Ok(())
}

// Whether given names may be given.
fn check_given(names: &[GivenName]) -> Result<(), ObjectError>
    ensures { let cause = given_cause names.now in
        MatchResult result (λ _. cause ≡ None) (λ e. cause ≡ Some e) }
{
    for given in names {
        if let Err(error) = check_name(given.name.as_str()) {
            return Err(error);
        }
    }
    Ok(())
}

// The symbols of functions.
fn function_symbols(alloc: Global, functions: &[TextFunction]) -> Result<GlobalSymbols, ObjectError>
    ensures answer { FunctionsAnswer (map function_of functions.now) result }
    ensures places { IfOk result (λ ss. Indexes ss.places (map symbol_of ss.symbols.items)) }
    ensures fits { IfOk result (λ _. All FunctionFits (map function_of functions.now)) }
{
    let mut symbols = GlobalSymbols::new(alloc);
    for function in functions {
        check_function(&symbols, function)?;
        let Ok(()) = symbols.add_function(function) else {
            return Err(ObjectError::NoMemory);
        };
    }
    Ok(symbols)
}

// The table of symbols.
fn symbol_section(entries: Vec<u8>) -> SectionParts
    ensures { section_of result ≡ symbol_section entries.items }
{
    SectionParts {
        name: b".symtab",
        kind: SHT_SYMTAB,
        flags: 0,
        link: NAMES,
        info: 1,
        alignment: 8,
        entry_size: 24,
        content: entries,
    }
}

// The table of relocations.
fn relocation_section(entries: Vec<u8>) -> SectionParts
    ensures { section_of result ≡ relocation_section entries.items }
{
    SectionParts {
        name: b".rela.text",
        kind: SHT_RELA,
        flags: INFO_LINK,
        link: SYMBOLS,
        info: u32::from(TEXT),
        alignment: 8,
        entry_size: 24,
        content: entries,
    }
}

// The text.
fn text_section(text: Vec<u8>, alignment: u32) -> SectionParts
    ensures { section_of result ≡ text_section alignment text.items }
{
    SectionParts {
        name: b".text",
        kind: SHT_PROGBITS,
        flags: ALLOC_AND_EXECINSTR,
        link: 0,
        info: 0,
        alignment: u64::from(alignment),
        entry_size: 0,
        content: text,
    }
}

// The names of symbols.
fn name_section(names: Vec<u8>) -> SectionParts
    ensures { section_of result ≡ string_section (codes ".strtab") names.items }
{
    SectionParts {
        name: b".strtab",
        kind: SHT_STRTAB,
        flags: 0,
        link: 0,
        info: 0,
        alignment: 1,
        entry_size: 0,
        content: names,
    }
}

// The mark that the stack need not be executable.
fn stack_note(alloc: Global) -> SectionParts
    ensures { section_of result ≡ stack_note }
{
    SectionParts {
        name: b".note.GNU-stack",
        kind: SHT_PROGBITS,
        flags: 0,
        link: 0,
        info: 0,
        alignment: 1,
        entry_size: 0,
        content: Vec::new(alloc),
    }
}

// The sections of a text with global symbols, whose names stand in a string table, and with entries
// of relocations.
fn object_sections(
    alloc: Global,
    symbols: &GlobalSymbols,
    strings: Vec<u8>,
    relocations: Vec<u8>,
    alignment: u32,
    text: &[u8],
) -> Result<Vec<SectionParts>, AllocError>
    requires strings { strings.items ≡ 0 ∷ string_table (map symbol_of symbols.now.symbols.items) }
    requires small { length strings.items < 2 ^ 32 }
    ensures { IfOk result
        (λ sections. map section_of sections.items
        ≡ sections_by (map symbol_of symbols.now.symbols.items) alignment relocations.items
        text.now) }
{
    let entries = symbol_entries(alloc, &symbols.symbols)?;
    let text = Vec::from_slice(alloc, text)?;
    let mut sections = Vec::new(alloc);
    sections.push(symbol_section(entries))?;
    sections.push(relocation_section(relocations))?;
    sections.push(text_section(text, alignment))?;
    sections.push(name_section(strings))?;
    sections.push(stack_note(alloc))?;
    Ok(sections)
}

/// The sections of an object of functions in a text with relocations; `text_object` says how, and
/// what is refused.
pub fn text_sections(
    alloc: Global,
    names: &[GivenName],
    functions: &[TextFunction],
    alignment: u32,
    text: &[u8],
    relocs: &[RelocEntry],
) -> Result<Vec<SectionParts>, ObjectError>
    ensures answer { SectionsAnswer names.now functions.now alignment text.now relocs.now result }
    ensures few { IfOk result (λ sections. AreFew (map section_of sections.items)) }
    ensures count { IfOk result (λ _. length functions.now < 4294967295) }
{
    let mut symbols = function_symbols(alloc, functions)?;
    check_given(names)?;
    let Ok(()) = add_used_names(alloc, names, &mut symbols, relocs) else {
        return Err(ObjectError::NoMemory);
    };
    let Ok(strings) = string_table(alloc, &symbols.symbols) else {
        return Err(ObjectError::NoMemory);
    };
    if strings.len() > 0xffff_ffff {
        return Err(ObjectError::TooLong);
    }
    let Ok(entries) = relocation_entries(alloc, names, &symbols, relocs) else {
        return Err(ObjectError::NoMemory);
    };
    let Ok(sections) = object_sections(alloc, &symbols, strings, entries, alignment, text) else {
        return Err(ObjectError::NoMemory);
    };
    Ok(sections)
}

/// The file of an object's sections, with the tables of its functions' code behind them.
pub fn file_with_tables(
    alloc: Global,
    mut sections: Vec<SectionParts>,
    codes: &[Coded],
) -> Result<Vec<u8>, AllocError>
    requires few { AreFew (map section_of sections.items) }
    requires count { length codes.now < 4294967295 }
    ensures { IfOk result (λ file. IsFileOf sections codes.now file.items) }
{
    put_tables(alloc, &mut sections, codes)?;
    let file = write_file(alloc, &sections)?;
    Ok(file)
}

/// An object of functions in a text with relocations: big-endian ELF64 for s390x, `ET_REL`. Each
/// function is a global symbol. A symbol `u7` of the relocations is called by the first name that is
/// given to it, or else `u7`: that is the function of this name, or else a name that the object
/// doesn't define.
///
/// Refused by the first cause. Of the functions in order: a name is empty (`EmptyName`), has a zero
/// byte (`ZeroByte`) or is an earlier function's (`DuplicateName`), or a function has no bytes
/// (`EmptyMember`). Then of the given names in order: one is empty (`EmptyName`) or has a zero byte
/// (`ZeroByte`). Then the names take 2^32 bytes or more (`TooLong`). Or for want of memory.
pub fn text_object(
    alloc: Global,
    names: &[GivenName],
    functions: &[TextFunction],
    alignment: u32,
    text: &[u8],
    relocs: &[RelocEntry],
) -> Result<Vec<u8>, ObjectError>
    ensures answer { TextAnswer names.now functions.now alignment text.now relocs.now result }
    ensures linked { IfOk result
        (λ file. IsTextLinked names.now functions.now text.now relocs.now file.items) }
{
    let sections = text_sections(alloc, names, functions, alignment, text, relocs)?;
    let Ok(file) = file_with_tables(alloc, sections, &[]) else {
        return Err(ObjectError::NoMemory);
    };
    Ok(file)
}

/// An object with one global function of this name, the finished code, some of whose symbols are
/// given names; `text_object` says how. Where the code has an entry of any kind, its traps, calls,
/// tries, handlers, patchable calls and stack maps stand in sections `s390x_traps`, `s390x_calls`,
/// `s390x_tries`, `s390x_handlers`, `s390x_patches` and `s390x_stack_maps`.
///
/// Refused by the first cause: the name is empty (`EmptyName`) or has a zero byte (`ZeroByte`), the
/// code has no bytes (`EmptyMember`), a given name is empty (`EmptyName`) or has a zero byte
/// (`ZeroByte`), the names take 2^32 bytes or more (`TooLong`); or for want of memory.
pub fn object_with_names(
    alloc: Global,
    name: &str,
    names: &[GivenName],
    code: &MachBufferFinalized,
) -> Result<Vec<u8>, ObjectError>
    ensures answer { ObjectAnswer names.now name.now code.now result }
    ensures linked { IfOk result (λ file. IsLinkedAsNamed names.now name.now code.now file.items) }
    ensures tables { IfOk result (λ file. HasTablesOfCode name.now code.now file.items) }
{
    let Ok(name) = String::from_str(alloc, name) else {
        return Err(ObjectError::NoMemory);
    };
    let function = TextFunction {
        name,
        start: 0,
        size: code.bytes.len() as u64,
    };
    let sections = text_sections(
        alloc,
        names,
        &[function],
        code.alignment,
        &code.bytes,
        &code.relocs,
    )?;
    let Ok(file) = file_with_tables(alloc, sections, &[Coded { code }]) else {
        return Err(ObjectError::NoMemory);
    };
    Ok(file)
}

/// An object with one global function of this name, the finished code, whose symbols are called
/// `u7` and so on; `text_object` says how.
///
/// Refused by the first cause: the name is empty (`EmptyName`) or has a zero byte (`ZeroByte`), the
/// code has no bytes (`EmptyMember`), the names take 2^32 bytes or more (`TooLong`); or for want of
/// memory.
pub fn object(alloc: Global, name: &str, code: &MachBufferFinalized) -> Result<Vec<u8>, ObjectError>
    ensures answer { ObjectAnswer [] name.now code.now result }
    ensures linked { IfOk result (λ file. IsLinkedAsImage name.now code.now file.items) }
    ensures tables { IfOk result (λ file. HasTablesOfCode name.now code.now file.items) }
{
    object_with_names(alloc, name, &[], code)
}
