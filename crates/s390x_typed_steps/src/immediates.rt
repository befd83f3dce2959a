//! The bits of immediates and displacements, as they stand in an instruction.
ghost use Rattle.std.specs.Prelude.{◌≡◌, ◌<◌, pos};
ghost use Rattle.s390x_typed_steps.specs.General.{low_halfword, low_word, low_byte, low_displacement, low_12};

use s390x_base::{SImm20, UImm12};

/// The bits of a signed immediate of 16 bits, in two's complement.
pub fn bits_of_halfword(imm: i16) -> u16
    ensures { result ≡ low_halfword imm }
{
    i32::from(imm).rem_euclid(65536) as u16
}

/// The bits of a signed immediate of 32 bits, in two's complement.
pub fn bits_of_word(imm: i32) -> u32
    ensures { result ≡ low_word imm }
{
    i64::from(imm).rem_euclid(4294967296) as u32
}

/// An unsigned immediate of 32 bits is its own low bits, which the definitions take of any number.
pub fn bits_of_unsigned(imm: u32) -> u32
    ensures { result ≡ low_word (pos imm) }
{
    imm
}

/// An unsigned immediate of 16 bits is its own low bits, which the definitions take of any number.
pub fn bits_of_unsigned_halfword(imm: u16) -> u16
    ensures { result ≡ low_halfword (pos imm) }
{
    imm
}

/// An amount of 8 bits is its own low bits, which the definitions take of any number.
pub fn low_byte(amount: u8) -> u8
    ensures { result ≡ low_byte amount }
{
    amount
}

/// The 20 bits of a signed displacement, in two's complement.
pub fn low_displacement(displacement: SImm20) -> u32
    ensures value { result ≡ low_displacement displacement }
    ensures below { result < 1048576 }
{
    i64::from(displacement.value()).rem_euclid(1048576) as u32
}

/// The 12 bits of an unsigned displacement.
pub fn low_12(displacement: UImm12) -> u32
    ensures value { result ≡ low_12 displacement }
    ensures below { result < 4096 }
{
    displacement.bits() % 4096
}
