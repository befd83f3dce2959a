//! How many entries the tables have.
ghost use Rattle.std.specs.Prelude.{◌≡◌, ◌-◌, ◌^◌, min};
ghost use Rattle.s390x_tables.specs.Sizes.{sizes_of};
ghost use Rattle.s390x_tables.specs.Tables.{handler_count};

use s390x_buffer::{MachBufferFinalized, TryEntry};

/// How many entries each table of a code has, and the code's alignment.
#[repr(C)]
#[derive(Clone, Copy)]
pub struct Sizes {
    /// The bytes of the code and of its constants.
    pub code: usize,
    pub block_starts: usize,
    pub constant_starts: usize,
    pub relocations: usize,
    pub traps: usize,
    pub call_sites: usize,
    pub tries: usize,
    pub handlers: usize,
    pub patchable_calls: usize,
    pub stack_maps: usize,
    /// What the code's base has to be a multiple of, in bytes.
    pub alignment: u32,
}

/// The sizes of a code's tables. Handlers past the greatest `usize` aren't counted: no buffer has room for them.
pub fn sizes_of(code: &MachBufferFinalized) -> Sizes
    ensures { result ≡ sizes_of code.now }
{
    Sizes {
        code: code.bytes.len(),
        block_starts: code.block_starts.len(),
        constant_starts: code.constant_starts.len(),
        relocations: code.relocs.len(),
        traps: code.traps.len(),
        call_sites: code.call_sites.len(),
        tries: code.try_call_sites.len(),
        handlers: count_handlers(&code.try_call_sites),
        patchable_calls: code.patchable_sites.len(),
        stack_maps: code.stack_maps.len(),
        alignment: code.alignment,
    }
}

// How many handlers these calls have, up to the greatest `usize`.
fn count_handlers(tries: &[TryEntry]) -> usize
    ensures { result ≡ min (handler_count tries.now) (2 ^ 64 - 1) }
{
    let mut count: usize = 0;
    for entry in tries {
        count = count.saturating_add(entry.handlers.len());
    }
    count
}
