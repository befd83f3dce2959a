//! The code of a stop.

ghost use Rattle.std.specs.Prelude.{◌≡◌, ◌<◌, length};
ghost use Rattle.s390x_typed_steps.specs.Traps.{first_code as first_code_of};
ghost use Rattle.s390x_machine.specs.Codes.{code_offset, trap_code_at};

use s390x_base::TrapCode;
use s390x_buffer::{MachBufferFinalized, TrapEntry};
use s390x_format::fetch_length;
use s390x_operations::StopKind;

/// The code of the first entry at an offset.
fn first_code(entries: &[TrapEntry], offset: u64) -> Option<TrapCode>
    ensures { result ≡ first_code_of entries.now offset }
{
    for entry in entries {
        if entry.offset as u64 == offset {
            return Some(entry.code);
        }
    }
    None
}

/// The offset at which the table has the code of a stop at a place.
fn offset_of(bytes: &[u8], place: u32, kind: StopKind) -> u64
    requires { place < length bytes.now }
    ensures { result ≡ code_offset bytes.now place kind }
{
    match kind {
        StopKind::Access => place as u64,
        StopKind::Specification => place as u64,
        _ => place as u64 + (fetch_length(bytes[place as usize]) as u64 - 1),
    }
}

/// The code that the table of traps has for a stop of the machine at a place of the code, an offset in its bytes: for `Access` and
/// `Specification` that of the first entry at the place, for another kind that of the first entry at the last byte of the instruction there.
/// None where there is no such entry or no such place.
#[tactic(auto, using(crate::proofs::TrapCodes::code_here, crate::proofs::TrapCodes::code_past))]
pub fn code_at(code: &MachBufferFinalized, place: u32, kind: StopKind) -> Option<TrapCode>
    ensures { result
        ≡ trap_code_at (record { base = 0; bytes = code.now.bytes.items }) code.now.traps.items
        place kind }
{
    if place as usize >= code.bytes.len() {
        return None;
    }
    first_code(&code.traps, offset_of(&code.bytes, place, kind))
}
