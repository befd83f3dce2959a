//! Entries into the caller's buffer.
ghost use Rattle.s390x_calls.specs.Put.{PutsEntries};

use crate::status::Status;

/// Writes the entries to the beginning of the buffer, if it has room for them, and says how many they are.
pub fn put_entries<T: Copy>(entries: &[T], out: &mut [T], count: &mut usize) -> Status
    ensures { PutsEntries entries.now out.old out.new count.new result }
{
    *count = entries.len();
    if out.len() < entries.len() {
        return Status::TooSmall;
    }
    out[..entries.len()].copy_from_slice(entries);
    Status::Done
}
