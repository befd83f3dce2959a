//! The text of `emit`: the finished code and its tables, a line for each entry.
ghost use Rattle.std.specs.Prelude.{◌≡◌, ℕ, List, [], ◌∷◌, ◌++◌, map, IfOk, OnOk, string_bytes};
ghost use Rattle.s390x_job.specs.Completions.{text_of_lines};
ghost use Rattle.s390x_job_fields.specs.Bytes.{bytes_text};
ghost use Rattle.s390x_job_fields.specs.Lists.{more_text, open_text};
ghost use Rattle.s390x_tool.specs.Emitted.{call_line, code_lines, emit_text, handler_entry_text, code_head_lines, reloc_kind_text, map_line, numbered_lines, patch_line, reloc_line, site_lines, start_offset_lines, trap_line, try_line};

use s390x_base::{CodeOffset, Reloc};
use s390x_buffer::{
    HandlerEntry, MachBufferFinalized, MapEntry, PatchEntry, RelocEntry, TrapEntry, TryEntry,
};
use s390x_job_fields::atoms::put_trap;
use std::alloc::{AllocError, Global};

/// The text of a finished code: `code` with its bytes in hex, `align` with its alignment in bytes, and then a line for each
/// entry of its tables, each offset in bytes from the code's beginning.
///
/// The tables come in this order: `block`, `const`, `reloc`, `trap`, `call`, `try`, `patch`, `map`.
pub fn emitted_text(alloc: Global, code: &MachBufferFinalized) -> Result<String, AllocError>
    ensures { IfOk result (λ text. string_bytes text ≡ emit_text code.now) }
{
    let mut out = String::new(alloc);
    put_head(alloc, &mut out, code)?;
    put_starts(&mut out, code)?;
    put_code_entries(&mut out, code)?;
    put_site_entries(&mut out, code)?;
    Ok(out)
}

// The bytes and the alignment.
fn put_head(alloc: Global, out: &mut String, code: &MachBufferFinalized) -> Result<(), AllocError>
    ensures { OnOk result
        (string_bytes out.new ≡ string_bytes out.old ++ text_of_lines (code_head_lines code.now)) }
{
    let bytes = hex_word(alloc, &code.bytes)?;
    let alignment = code.alignment;
    write!(out, "code {bytes}\nalign {alignment}\n")
}

// Bytes in hex, `-` for none.
fn hex_word(alloc: Global, bytes: &[u8]) -> Result<String, AllocError>
    ensures { IfOk result (λ word. string_bytes word ≡ bytes_text bytes.now) }
{
    if bytes.is_empty() {
        return String::from_str(alloc, "-");
    }
    hex::encode(alloc, bytes)
}

// The places of the blocks and of the constants.
fn put_starts(out: &mut String, code: &MachBufferFinalized) -> Result<(), AllocError>
    ensures { OnOk result
        (string_bytes out.new
        ≡ string_bytes out.old ++ text_of_lines (start_offset_lines code.now)) }
{
    put_numbered(out, "block", &code.block_starts)?;
    put_numbered(out, "const", &code.constant_starts)
}

// A line for each offset, numbered from 0 on.
fn put_numbered(out: &mut String, name: &str, offsets: &[CodeOffset]) -> Result<(), AllocError>
    ensures { OnOk result
        (string_bytes out.new
        ≡ string_bytes out.old ++ text_of_lines (numbered_lines name.now 0 offsets.now)) }
{
    for (number, offset) in offsets.iter().enumerate() {
        writeln!(out, "{name} {number} {offset}")?;
    }
    Ok(())
}

// Relocations, traps and calls.
fn put_code_entries(out: &mut String, code: &MachBufferFinalized) -> Result<(), AllocError>
    ensures { OnOk result
        (string_bytes out.new ≡ string_bytes out.old ++ text_of_lines (code_lines code.now)) }
{
    put_entries(out, &code.relocs)?;
    put_entries(out, &code.traps)?;
    put_calls(out, &code.call_sites)
}

// Calls with a try, patchable calls and stack maps.
fn put_site_entries(out: &mut String, code: &MachBufferFinalized) -> Result<(), AllocError>
    ensures { OnOk result
        (string_bytes out.new ≡ string_bytes out.old ++ text_of_lines (site_lines code.now)) }
{
    put_entries(out, &code.try_call_sites)?;
    put_entries(out, &code.patchable_sites)?;
    put_entries(out, &code.stack_maps)
}

// An entry of a table.
trait Entry {
    ghost line: { Self → List ℕ };

    // Appends the entry's line.
    fn put(&self, out: &mut String) -> Result<(), AllocError>
        ensures { OnOk result
            (string_bytes out.new ≡ string_bytes out.old ++ text_of_lines (line self.now ∷ [])) };
}

// A line for each entry.
fn put_entries<T: Entry>(out: &mut String, entries: &[T]) -> Result<(), AllocError>
    ensures { OnOk result
        (string_bytes out.new ≡ string_bytes out.old ++ text_of_lines (map T.line entries.now)) }
{
    for entry in entries {
        entry.put(out)?;
    }
    Ok(())
}

// A line for each call.
fn put_calls(out: &mut String, sites: &[CodeOffset]) -> Result<(), AllocError>
    ensures { OnOk result
        (string_bytes out.new ≡ string_bytes out.old ++ text_of_lines (map call_line sites.now)) }
{
    for site in sites {
        writeln!(out, "call {site}")?;
    }
    Ok(())
}

impl Entry for RelocEntry {
    ghost line = { reloc_line };

    fn put(&self, out: &mut String) -> Result<(), AllocError> {
        let offset = self.offset;
        let kind = reloc_kind_name(self.kind);
        let name = self.name.0;
        let addend = self.addend;
        writeln!(out, "reloc {offset} {kind} u{name} {addend}")
    }
}

/// The name of a kind of relocation.
pub fn reloc_kind_name(kind: Reloc) -> &'static str
    ensures { result.now ≡ reloc_kind_text kind }
{
    match kind {
        Reloc::S390xPCRel32Dbl => "PCRel32Dbl",
        Reloc::S390xPLTRel32Dbl => "PLTRel32Dbl",
        Reloc::Abs8 => "Abs8",
    }
}

impl Entry for TrapEntry {
    ghost line = { trap_line };

    fn put(&self, out: &mut String) -> Result<(), AllocError> {
        let offset = self.offset;
        write!(out, "trap {offset} ")?;
        put_trap(out, self.code)?;
        out.push_str("\n")
    }
}

impl Entry for TryEntry {
    ghost line = { try_line };

    fn put(&self, out: &mut String) -> Result<(), AllocError> {
        let offset = self.offset;
        let frame = self.frame;
        write!(out, "try {offset} {frame} ")?;
        put_handlers(out, &self.handlers)?;
        out.push_str("]\n")
    }
}

// The opening bracket and the handlers.
fn put_handlers(out: &mut String, handlers: &[HandlerEntry]) -> Result<(), AllocError>
    ensures { OnOk result
        (string_bytes out.new ≡ string_bytes out.old ++ open_text handler_entry_text handlers.now) }
{
    match handlers {
        [] => out.push_str("["),
        [first, rest @ ..] => {
            out.push_str("[")?;
            put_handler(out, first)?;
            put_more_handlers(out, rest)
        }
    }
}

// Each handler with a comma before it.
fn put_more_handlers(out: &mut String, handlers: &[HandlerEntry]) -> Result<(), AllocError>
    ensures { OnOk result
        (string_bytes out.new ≡ string_bytes out.old ++ more_text handler_entry_text handlers.now) }
{
    for handler in handlers {
        out.push_str(",")?;
        put_handler(out, handler)?;
    }
    Ok(())
}

// A handler's tag, `*` for all tags, and its offset.
fn put_handler(out: &mut String, handler: &HandlerEntry) -> Result<(), AllocError>
    ensures { OnOk result
        (string_bytes out.new ≡ string_bytes out.old ++ handler_entry_text handler.now) }
{
    let offset = handler.offset;
    match handler.tag {
        Some(tag) => write!(out, "{tag}:{offset}"),
        None => write!(out, "*:{offset}"),
    }
}

impl Entry for PatchEntry {
    ghost line = { patch_line };

    fn put(&self, out: &mut String) -> Result<(), AllocError> {
        let offset = self.offset;
        let length = self.len;
        writeln!(out, "patch {offset} {length}")
    }
}

impl Entry for MapEntry {
    ghost line = { map_line };

    fn put(&self, out: &mut String) -> Result<(), AllocError> {
        let offset = self.offset;
        let number = self.map;
        writeln!(out, "map {offset} {number}")
    }
}
