//! The tables of a buffer with an entry or two of each.

use crate::words::text_of;
use s390x_base::{EmitError, ExternalName, MachLabel, Reloc, TrapCode};
use s390x_buffer::{MachBuffer, MachBufferFinalized, TryEntry, TryHandler};
use s390x_case_runner::LineError;
use std::alloc::Global;

/// What a call with its words answers.
pub fn answer(alloc: Global, call: &str, words: &str) -> Result<String, LineError> {
    if call != "table" {
        return Err(LineError::Unreadable);
    }
    match finished_buffer(alloc) {
        Ok(code) => table_text(alloc, words, &code),
        Err(error) => text_of(alloc, error),
    }
}

// The entries of a table.
fn table_text(alloc: Global, name: &str, code: &MachBufferFinalized) -> Result<String, LineError> {
    match name {
        "starts" => text_of(alloc, code.starts.as_slice()),
        "block_starts" => text_of(alloc, code.block_starts.as_slice()),
        "alignment" => text_of(alloc, code.alignment),
        "traps" => text_of(alloc, code.traps.as_slice()),
        "relocs" => text_of(alloc, code.relocs.as_slice()),
        "call_sites" => text_of(alloc, code.call_sites.as_slice()),
        "patchable_sites" => text_of(alloc, code.patchable_sites.as_slice()),
        "stack_maps" => text_of(alloc, code.stack_maps.as_slice()),
        "try_call_sites" => sites_text(alloc, &code.try_call_sites),
        _ => Err(LineError::Unreadable),
    }
}

// The calls with a try.
fn sites_text(alloc: Global, sites: &[TryEntry]) -> Result<String, LineError> {
    let mut text = String::new(alloc);
    for site in sites {
        let (offset, frame, handlers) = (site.offset, site.frame, &site.handlers);
        write!(text, "{offset} {frame} {handlers:?}")?;
    }
    Ok(text)
}

// A buffer with all entries.
fn finished_buffer(alloc: Global) -> Result<MachBufferFinalized, EmitError> {
    let mut buffer = with_traps(alloc)?;
    add_references(&mut buffer)?;
    buffer.finish()
}

// Two steps, and traps over two bytes.
fn with_traps(alloc: Global) -> Result<MachBuffer, EmitError> {
    let mut buffer = MachBuffer::new(alloc, 2, &[])?;
    buffer.start_step()?;
    buffer.add_trap(TrapCode::HEAP_OUT_OF_BOUNDS)?;
    buffer.put1(0x07)?;
    buffer.add_trap(TrapCode::STACK_OVERFLOW)?;
    buffer.put1(0xfe)?;
    buffer.start_step()?;
    Ok(buffer)
}

// Relocations, calls and a stack map, and a call with two handlers, whose labels are never bound.
fn add_references(buffer: &mut MachBuffer) -> Result<(), EmitError> {
    buffer.add_reloc(Reloc::S390xPLTRel32Dbl, ExternalName(1), 2)?;
    buffer.add_reloc_at_offset(1, Reloc::Abs8, ExternalName(2), -1)?;
    buffer.add_call_site()?;
    buffer.add_patchable_call_site(6)?;
    buffer.push_user_stack_map(1, 9)?;
    let handlers = [
        TryHandler {
            tag: Some(7),
            label: MachLabel(0),
        },
        TryHandler {
            tag: None,
            label: MachLabel(1),
        },
    ];
    buffer.add_try_call_site(160, &handlers)
}
