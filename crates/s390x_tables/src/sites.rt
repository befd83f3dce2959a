//! Writing the calls with a try, and their handlers.
ghost use Rattle.std.specs.Prelude.{◌≡◌, ◌≤◌, ◌<◌, ◌^◌, length};
ghost use Rattle.s390x_tables.specs.Tables.{handler_count, handlers_of, overwritten, tries_from};

use crate::entries::{Handler, Try};
use crate::write::write_entries;
use s390x_buffer::TryEntry;

/// Writes the calls with a try to the beginning of the buffer.
pub fn write_tries(out: &mut [Try], tries: &[TryEntry])
    requires room { length tries.now ≤ length out.old }
    requires handlers { handler_count tries.now < 2 ^ 64 }
    ensures { out.new ≡ overwritten out.old (tries_from 0 tries.now) }
{
    let mut before: usize = 0;
    for (place, entry) in tries.iter().enumerate() {
        let handler_count = entry.handlers.len();
        out[place] = Try {
            offset: entry.offset,
            handler_count,
            first_handler: before,
            frame: entry.frame,
        };
        before += handler_count;
    }
}

/// Writes the handlers of all of these calls to the beginning of the buffer.
pub fn write_handlers(out: &mut [Handler], tries: &[TryEntry])
    requires { handler_count tries.now ≤ length out.old }
    ensures { out.new ≡ overwritten out.old (handlers_of tries.now) }
{
    let mut written: usize = 0;
    for entry in tries {
        write_entries(&mut out[written..], &entry.handlers);
        written += entry.handlers.len();
    }
}
