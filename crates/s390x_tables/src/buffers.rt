//! The caller's buffers.
ghost use Rattle.std.specs.Prelude.{◌≡◌, ◌↔◌, IsTrue, true, false};
ghost use Rattle.s390x_tables.specs.Buffers.{AreUntouched, HasRoom, HoldTables, LieInPlace};

use crate::entries::{Handler, PatchableCall, Relocation, StackMap, Trap, Try};
use crate::sites::{write_handlers, write_tries};
use crate::sizes::sizes_of;
use crate::write::{copy_bytes, copy_offsets, write_entries};
use s390x_buffer::MachBufferFinalized;

/// The caller's buffers, one for the code and its constants and one for each table. Each offset is in bytes from the code's
/// beginning.
#[repr(C)]
pub struct Buffers<'a> {
    pub code: &'a mut [u8],
    /// Where each block starts; 0 where its label was never bound.
    pub block_starts: &'a mut [u32],
    /// Where each constant starts.
    pub constant_starts: &'a mut [u32],
    pub relocations: &'a mut [Relocation],
    pub traps: &'a mut [Trap],
    /// Where each call without a try returns to, and where each tail call ends.
    pub call_sites: &'a mut [u32],
    pub tries: &'a mut [Try],
    /// The handlers of all calls with a try, one call's behind the other's.
    pub handlers: &'a mut [Handler],
    pub patchable_calls: &'a mut [PatchableCall],
    pub stack_maps: &'a mut [StackMap],
}

/// Writes the code and its tables to the beginnings of the buffers. False exactly where one of them has no room; then none is
/// written.
pub fn write_tables(code: &MachBufferFinalized, out: &mut Buffers) -> bool
    ensures room { IsTrue result ↔ HasRoom code.now out.old }
    ensures written { result ≡ true → HoldTables code.now out.old out.new }
    ensures kept { result ≡ false → AreUntouched out.old out.new }
    ensures places { LieInPlace out.old out.new }
{
    if !has_room(code, out) {
        return false;
    }
    copy_bytes(out.code, &code.bytes);
    copy_offsets(out.block_starts, &code.block_starts);
    copy_offsets(out.constant_starts, &code.constant_starts);
    write_entries(out.relocations, &code.relocs);
    write_entries(out.traps, &code.traps);
    copy_offsets(out.call_sites, &code.call_sites);
    write_tries(out.tries, &code.try_call_sites);
    write_handlers(out.handlers, &code.try_call_sites);
    write_entries(out.patchable_calls, &code.patchable_sites);
    write_entries(out.stack_maps, &code.stack_maps);
    true
}

// Whether each table has room in its buffer.
fn has_room(code: &MachBufferFinalized, out: &Buffers) -> bool
    ensures { IsTrue result ↔ HasRoom code.now out.now }
{
    let sizes = sizes_of(code);
    sizes.code <= out.code.len()
        && sizes.block_starts <= out.block_starts.len()
        && sizes.constant_starts <= out.constant_starts.len()
        && sizes.relocations <= out.relocations.len()
        && sizes.traps <= out.traps.len()
        && sizes.call_sites <= out.call_sites.len()
        && sizes.tries <= out.tries.len()
        && sizes.handlers <= out.handlers.len()
        && sizes.patchable_calls <= out.patchable_calls.len()
        && sizes.stack_maps <= out.stack_maps.len()
}
