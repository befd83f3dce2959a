//! The sum of bytes.
ghost use Rattle.std.specs.Prelude.{◌≡◌, ◌%◌, ◌^◌, sum};

/// The sum of the bytes modulo 2^32.
pub fn byte_sum(bytes: &[u8]) -> u32
    ensures { result ≡ sum bytes.now % 2 ^ 32 }
{
    let mut total: u32 = 0;
    for byte in bytes {
        total = total.wrapping_add(u32::from(*byte));
    }
    total
}
