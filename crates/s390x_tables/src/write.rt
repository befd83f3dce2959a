//! Writing entries to the beginning of a buffer.
ghost use Rattle.std.specs.Prelude.{◌≡◌, ◌≤◌, length, map};
ghost use Rattle.s390x_tables.specs.Tables.{handler_of, overwritten, patchable_call_of, relocation_of, stack_map_of, trap_of};

use crate::entries::{Handler, PatchableCall, Relocation, StackMap, Trap};
use crate::numbers::{relocation_number, trap_number};
use s390x_buffer::{HandlerEntry, MapEntry, PatchEntry, RelocEntry, TrapEntry};

/// An entry of finished code that has a flat form.
pub trait Flatten {
    type Flat: Copy;

    ghost flat: { Self → Self.Flat };

    /// The flat form.
    fn flatten(&self) -> Self::Flat
        ensures { result ≡ flat self.now };
}

/// Writes the flat forms of the entries.
pub fn write_entries<E: Flatten>(out: &mut [E::Flat], entries: &[E])
    requires { length entries.now ≤ length out.old }
    ensures { out.new ≡ overwritten out.old (map E.flat entries.now) }
{
    for (place, entry) in entries.iter().enumerate() {
        out[place] = entry.flatten();
    }
}

/// Copies bytes.
pub fn copy_bytes(out: &mut [u8], bytes: &[u8])
    requires { length bytes.now ≤ length out.old }
    ensures { out.new ≡ overwritten out.old bytes.now }
{
    out[..bytes.len()].copy_from_slice(bytes);
}

/// Copies offsets.
pub fn copy_offsets(out: &mut [u32], offsets: &[u32])
    requires { length offsets.now ≤ length out.old }
    ensures { out.new ≡ overwritten out.old offsets.now }
{
    out[..offsets.len()].copy_from_slice(offsets);
}

impl Flatten for RelocEntry {
    type Flat = Relocation;

    ghost flat = { relocation_of };

    fn flatten(&self) -> Relocation {
        Relocation {
            offset: self.offset,
            kind: relocation_number(self.kind),
            symbol: self.name.0,
            addend: self.addend,
        }
    }
}

impl Flatten for TrapEntry {
    type Flat = Trap;

    ghost flat = { trap_of };

    fn flatten(&self) -> Trap {
        Trap {
            offset: self.offset,
            code: trap_number(self.code),
        }
    }
}

impl Flatten for HandlerEntry {
    type Flat = Handler;

    ghost flat = { handler_of };

    fn flatten(&self) -> Handler {
        let offset = self.offset;
        match self.tag {
            Some(tag) => Handler {
                offset,
                has_tag: 1,
                tag,
            },
            None => Handler {
                offset,
                has_tag: 0,
                tag: 0,
            },
        }
    }
}

impl Flatten for PatchEntry {
    type Flat = PatchableCall;

    ghost flat = { patchable_call_of };

    fn flatten(&self) -> PatchableCall {
        PatchableCall {
            offset: self.offset,
            length: self.len,
        }
    }
}

impl Flatten for MapEntry {
    type Flat = StackMap;

    ghost flat = { stack_map_of };

    fn flatten(&self) -> StackMap {
        StackMap {
            offset: self.offset,
            map: self.map,
        }
    }
}
