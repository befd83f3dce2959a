//! Putting bytes together.
ghost use Rattle.std.specs.Prelude.{◌≡◌, ◌+◌, ◌*◌, ◌/◌, ◌%◌, ◌^◌, ◌<◌, [], ◌∷◌, slice_index, pos, negsuc, ◌≤ℤ◌};
ghost use Rattle.s390x_format.specs.Distances.{half_of};
ghost use mir.Syntax.{w16};

use s390x_base::Code;

/// The byte with these two halves.
pub fn nibbles(high: u8, low: u8) -> u8
    requires high { high < 2 ^ 4 }
    requires low { low < 2 ^ 4 }
    ensures value { result ≡ high * 16 + low }
    ensures byte { result < 256 }
{
    high * 16 + low
}

/// The high byte.
pub fn high_byte(n: u16) -> u8
    ensures { result ≡ n / 256 }
{
    (n / 256) as u8
}

/// The low byte.
pub fn low_byte(n: u16) -> u8
    ensures { result ≡ n % 256 }
{
    (n % 256) as u8
}

/// The high half.
pub fn high_half(n: u32) -> u16
    ensures { result ≡ n / 65536 }
{
    (n / 65536) as u16
}

/// The low half.
pub fn low_half(n: u32) -> u16
    ensures { result ≡ n % 65536 }
{
    (n % 65536) as u16
}

/// The 16 bits of half of an even distance.
pub fn half16(distance: i32) -> u16
    requires low { negsuc 65535 ≤ℤ distance }
    requires high { distance ≤ℤ pos 65534 }
    ensures { result ≡ half_of w16 distance }
{
    let half = (distance / 2) as i16;
    half.cast_unsigned()
}

/// The 32 bits of half of an even distance.
pub fn half32(distance: u32) -> u32
    ensures { result ≡ distance / 2 }
{
    distance / 2
}

/// The code of two bytes.
pub fn two(a: u8, b: u8) -> Code
    ensures { result ≡ a ∷ b ∷ [] }
{
    match Code::new(&[a, b]) {
        Some(code) => code,
        None => unreachable!(),
    }
}

/// The code of four bytes.
pub fn four(a: u8, b: u8, c: u8, d: u8) -> Code
    ensures { result ≡ a ∷ b ∷ c ∷ d ∷ [] }
{
    match Code::new(&[a, b, c, d]) {
        Some(code) => code,
        None => unreachable!(),
    }
}

/// The code of six bytes.
pub fn six(bytes: [u8; 6]) -> Code
    ensures { result ≡ bytes }
{
    match Code::new(&bytes) {
        Some(code) => code,
        None => unreachable!(),
    }
}
