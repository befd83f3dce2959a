//! A file of sections.
ghost use Rattle.std.specs.Prelude.{◌≡◌, ◌+◌, ◌-◌, ◌<◌, ◌∷◌, [], ◌++◌, IfOk, length, map};
ghost use Rattle.std.specs.List.{All};
ghost use Rattle.s390x_elf.specs.Writing.{file_bytes, file_header_bytes, names_name, section_header_bytes, section_of, string_section};
ghost use Rattle.s390x_elf.specs.declared.file.SectionParts.{SectionParts as Parts};

use crate::fields::{Field, put_fields};
use std::alloc::{AllocError, Global};

/// What ELF calls a section of the program's own bytes.
pub const SHT_PROGBITS: u32 = 1;
/// A table of symbols.
pub const SHT_SYMTAB: u32 = 2;
/// Texts, each with a zero behind it.
pub const SHT_STRTAB: u32 = 3;
/// A table of relocations with addends.
pub const SHT_RELA: u32 = 4;

// ELF, of 64 bits, the most significant byte first, version 1.
const IDENT: [u8; 16] = [127, 69, 76, 70, 2, 2, 1, 0, 0, 0, 0, 0, 0, 0, 0, 0];
// A relocatable file.
const ET_REL: u16 = 1;
// For s390x.
const EM_S390: u16 = 22;

const EV_CURRENT: u32 = 1;

const FILE_HEADER_SIZE: u64 = 64;

const SECTION_HEADER_SIZE: u64 = 64;

/// A section of a file.
#[derive(Drop)]
pub struct SectionParts {
    pub name: &'static [u8],
    /// What it is: `SHT_PROGBITS` and so on.
    pub kind: u32,
    pub flags: u64,
    pub link: u32,
    pub info: u32,
    pub alignment: u64,
    /// The size of an entry, where the section is a table.
    pub entry_size: u64,
    pub content: Vec<u8>,
}

// What stands in a file so far.
#[derive(Drop)]
struct FileParts {
    headers: Vec<u8>,
    names: Vec<u8>,
    contents: Vec<u8>,
}

// Puts the header of a section behind others.
fn put_header(
    headers: &mut Vec<u8>,
    section: &SectionParts,
    name_at: u32,
    content_at: u64,
) -> Result<(), AllocError>
    ensures { IfOk result
        (λ _. headers.new.items
        ≡ headers.old.items
        ++ section_header_bytes name_at content_at (section_of section.now)) }
{
    let fields = [
        Field::Word(name_at),
        Field::Word(section.kind),
        Field::Wide(section.flags),
        Field::Wide(0),
        Field::Wide(content_at),
        Field::Wide(section.content.len() as u64),
        Field::Word(section.link),
        Field::Word(section.info),
        Field::Wide(section.alignment),
        Field::Wide(section.entry_size),
    ];
    put_fields(headers, &fields)
}

// Puts a section behind others, whose contents start at an offset of the file.
fn put_section(parts: &mut FileParts, start: u64, section: &SectionParts) -> Result<(), AllocError>
    requires names { length parts.old.names.items < 1000000 }
    requires start { start < 1000000 }
    ensures headers { IfOk result
        (λ _. parts.new.headers.items
        ≡ parts.old.headers.items
        ++ section_header_bytes (length parts.old.names.items)
        (start + length parts.old.contents.items) (section_of section.now)) }
    ensures names { IfOk result
        (λ _. parts.new.names.items ≡ parts.old.names.items ++ (section.now.name.now ++ 0 ∷ [])) }
    ensures contents { IfOk result
        (λ _. parts.new.contents.items ≡ parts.old.contents.items ++ section.now.content.items) }
{
    let name_at = parts.names.len() as u32;
    let content_at = start + parts.contents.len() as u64;
    put_header(&mut parts.headers, section, name_at, content_at)?;
    parts.names.extend_from_slice(section.name)?;
    parts.names.push(0)?;
    parts.contents.extend_from_slice(&section.content)?;
    Ok(())
}

// Puts the section with the sections' names behind the others, its own name among them.
fn put_names(
    headers: &mut Vec<u8>,
    contents: &mut Vec<u8>,
    mut names: Vec<u8>,
    start: u64,
) -> Result<(), AllocError>
    requires names { length names.items < 1000000 }
    requires start { start < 1000000 }
    ensures headers { IfOk result
        (λ _. headers.new.items
        ≡ headers.old.items
        ++ section_header_bytes (length names.items) (start + length contents.old.items)
        (string_section names_name (names.items ++ (names_name ++ 0 ∷ [])))) }
    ensures contents { IfOk result
        (λ _. contents.new.items ≡ contents.old.items ++ (names.items ++ (names_name ++ 0 ∷ []))) }
{
    let name_at = names.len() as u32;
    let content_at = start + contents.len() as u64;
    names.extend_from_slice(b".shstrtab\0")?;
    contents.extend_from_slice(&names)?;
    let section = SectionParts {
        name: b".shstrtab",
        kind: SHT_STRTAB,
        flags: 0,
        link: 0,
        info: 0,
        alignment: 1,
        entry_size: 0,
        content: names,
    };
    put_header(headers, &section, name_at, content_at)?;
    Ok(())
}

// Puts the header of a file with a number of sections, the last of which has their names.
fn put_file_header(file: &mut Vec<u8>, sections: u16) -> Result<(), AllocError>
    requires { 0 < sections }
    ensures { IfOk result
        (λ _. file.new.items ≡ file.old.items ++ file_header_bytes sections (sections - 1)) }
{
    file.extend_from_slice(&IDENT)?;
    let fields = [
        Field::Half(ET_REL),
        Field::Half(EM_S390),
        Field::Word(EV_CURRENT),
        Field::Wide(0),
        Field::Wide(0),
        Field::Wide(FILE_HEADER_SIZE),
        Field::Word(0),
        Field::Half(64),
        Field::Half(0),
        Field::Half(0),
        Field::Half(64),
        Field::Half(sections),
        Field::Half(sections - 1),
    ];
    put_fields(file, &fields)?;
    Ok(())
}

/// The bytes of a file of sections: its header, the sections' headers, their contents. A section
/// that stands for none comes first, and one with the sections' names last.
pub fn write_file(alloc: Global, sections: &[SectionParts]) -> Result<Vec<u8>, AllocError>
    requires count { length sections.now < 1000 }
    requires names { All (λ (s : Parts). length s.name.now < 256) sections.now }
    ensures { IfOk result (λ file. file.items ≡ file_bytes (map section_of sections.now)) }
{
    let start = FILE_HEADER_SIZE + SECTION_HEADER_SIZE * (sections.len() as u64 + 2);
    let mut headers = Vec::new(alloc);
    headers.extend_from_slice(&[0; 64])?;
    let mut names = Vec::new(alloc);
    names.push(0)?;
    let mut parts = FileParts {
        headers,
        names,
        contents: Vec::new(alloc),
    };
    for section in sections {
        put_section(&mut parts, start, section)?;
    }
    let FileParts {
        mut headers,
        names,
        mut contents,
    } = parts;
    put_names(&mut headers, &mut contents, names, start)?;
    let mut file = Vec::new(alloc);
    put_file_header(&mut file, sections.len() as u16 + 2)?;
    file.extend_from_slice(&headers)?;
    file.extend_from_slice(&contents)?;
    Ok(file)
}
