//! The bytes of an image of several members.
ghost use Rattle.std.specs.Prelude.{◌≡◌, ◌≤◌, ◌++◌, IfOk, length};
ghost use Rattle.s390x_bundle.specs.Bytes.{part_behind};

use std::alloc::AllocError;

/// Puts a member's bytes behind those before it, with zeros up to its start. After `AllocError` some of that may stand there.
pub fn put_part(bytes: &mut Vec<u8>, start: u32, part: &[u8]) -> Result<(), AllocError>
    requires { length bytes.old.items ≤ start }
    ensures { IfOk result
        (λ _. bytes.new.items
        ≡ bytes.old.items
        ++ part_behind (length bytes.old.items) (record { start = start; bytes = part.now })) }
{
    let gap = start as usize - bytes.len();
    for _i in 0..gap {
        bytes.push(0)?;
    }
    bytes.extend_from_slice(part)
}
