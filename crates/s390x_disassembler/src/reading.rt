//! The values that an instruction's operands are read as.
ghost use Rattle.std.specs.Prelude.{◌≡◌, ◌<◌, ◌≤◌, ◌%◌, ◌/◌, ◌^◌, length, true};
ghost use Rattle.s390x_format.specs.View.{imm_class_of};
ghost use Rattle.s390x_disassembler.specs.Numbers.{number_on, signed_read, signed_left, begins_with};
ghost use Rattle.s390x_disassembler.specs.declared.forms.Operand.TheVariants.{Indexed, Storage, Target};
ghost use Rattle.s390x_disassembler.specs.Operands.{AreRead, AreRegisters, IsRead, IsSet, half_width};

use crate::forms::Operand;
use crate::scan::{begins, digits, number, text_behind};
use s390x_format::{FormatKind, Imm, imm_class};

/// Puts the values of a text's operands into their slots.
pub fn put_operands(
    slots: &mut [u32; 10],
    address: u64,
    format: FormatKind,
    operands: &[Operand],
    text: &[u8],
)
    ensures ten { length slots.new ≡ 10 }
    ensures read { AreRead format address operands.now text.now slots.old slots.new }
{
    let mut separator = b' ';
    let mut rest = text;
    for operand in operands {
        if begins(rest, separator) {
            rest = put_operand(slots, address, format, *operand, rest);
            separator = b',';
        }
    }
}

// An operand's, and what stands behind it.
#[tactic(auto, using(crate::proofs::OneOperand::general_read, crate::proofs::OneOperand::float_read, crate::proofs::OneOperand::vector_read, crate::proofs::OneOperand::access_read, crate::proofs::OneOperand::mask_read, crate::proofs::OneOperand::nonzero_read, crate::proofs::OneOperand::unnamed_read, crate::proofs::OneOperand::unsigned_read, crate::proofs::OneOperand::signed16_read, crate::proofs::OneOperand::signed32_read))]
fn put_operand<'a>(
    slots: &mut [u32; 10],
    address: u64,
    format: FormatKind,
    operand: Operand,
    text: &'a [u8],
) -> &'a [u8]
    ensures ten { length slots.new ≡ 10 }
    ensures read { IsRead format address operand text.now slots.old slots.new result.now }
{
    match operand {
        Operand::General(k) | Operand::Float(k) | Operand::Vector(k) | Operand::Access(k) => {
            put_number(slots, 1 + usize::from(k), 4294967296, text)
        }
        Operand::Mask(k) => put_number(slots, 5 + usize::from(k), 4294967296, text),
        Operand::NonzeroMask | Operand::UnnamedMask => put_number(slots, 5, 4294967296, text),
        Operand::Unsigned | Operand::Signed32 => put_number(slots, 8, 4294967296, text),
        Operand::Signed16 => put_number(slots, 8, 65536, text),
        Operand::Target => put_target(slots, address, format, text),
        Operand::Storage(base) => put_storage(slots, address, format, base, text),
        Operand::Indexed(index, base) => put_indexed(slots, address, format, index, base, text),
    }
}

// The next number's low bits, in a slot.
fn put_number<'a>(slots: &mut [u32; 10], slot: usize, modulus: u64, text: &'a [u8]) -> &'a [u8]
    requires some { 0 < modulus }
    requires small { modulus ≤ 2 ^ 32 }
    ensures ten { length slots.new ≡ 10 }
    ensures set { IsSet slot (signed_read (number_on text.now) % modulus) slots.old slots.new }
    ensures rest { result.now ≡ signed_left (number_on text.now) }
{
    let (bits, rest) = number(text);
    set(slots, slot, (bits % modulus) as u32);
    rest
}

// A value in a slot.
fn set(slots: &mut [u32; 10], slot: usize, value: u32)
    ensures ten { length slots.new ≡ 10 }
    ensures set { IsSet slot value slots.old slots.new }
{
    if slot < 10 {
        slots[slot] = value;
    }
}

// Half of the distance to a target.
#[tactic(auto, using(crate::proofs::OneOperand::target_read))]
fn put_target<'a>(
    slots: &mut [u32; 10],
    address: u64,
    format: FormatKind,
    text: &'a [u8],
) -> &'a [u8]
    ensures ten { length slots.new ≡ 10 }
    ensures read { IsRead format address Target text.now slots.old slots.new result.now }
{
    let (target, rest) = digits(16, text_behind(text, 3));
    set(slots, 8, half_bits(format, target.wrapping_sub(address)));
    rest
}

// The bits of half of a distance.
fn half_bits(format: FormatKind, distance: u64) -> u32
    ensures { result ≡ distance / 2 % 2 ^ half_width (imm_class_of format) }
{
    match imm_class(format) {
        Imm::Half16 => (distance / 2 % 65536) as u32,
        _ => (distance / 2 % 4294967296) as u32,
    }
}

// The displacement and the base of an address.
#[tactic(auto, using(crate::proofs::OneOperand::storage_read))]
fn put_storage<'a>(
    slots: &mut [u32; 10],
    address: u64,
    format: FormatKind,
    base: u8,
    text: &'a [u8],
) -> &'a [u8]
    ensures ten { length slots.new ≡ 10 }
    ensures read { IsRead format address (Storage base) text.now slots.old slots.new result.now }
{
    let rest = put_number(slots, 9, 1048576, text);
    let (_, base_value, rest) = registers(rest);
    set(slots, 1 + usize::from(base), base_value);
    rest
}

// The displacement, the index and the base of an address.
#[tactic(auto, using(crate::proofs::OneOperand::indexed_read))]
fn put_indexed<'a>(
    slots: &mut [u32; 10],
    address: u64,
    format: FormatKind,
    index: u8,
    base: u8,
    text: &'a [u8],
) -> &'a [u8]
    ensures ten { length slots.new ≡ 10 }
    ensures read { IsRead format address (Indexed index base) text.now slots.old slots.new
        result.now }
{
    let rest = put_number(slots, 9, 1048576, text);
    let (index_value, base_value, rest) = registers(rest);
    set(slots, 1 + usize::from(index), index_value);
    set(slots, 1 + usize::from(base), base_value);
    rest
}

// The registers of an address: the index, 0 where there is none, and the base.
#[tactic(auto, using(crate::proofs::Registers::none_written))]
fn registers(text: &[u8]) -> (u32, u32, &[u8])
    ensures { AreRegisters text.now result.0 result.1 result.2.now }
{
    if begins(text, b'(') {
        written_registers(text)
    } else {
        (0, 0, text)
    }
}

// The registers of an address where a bracket opens.
#[tactic(auto, using(crate::proofs::Registers::two_written, crate::proofs::Registers::one_written))]
fn written_registers(text: &[u8]) -> (u32, u32, &[u8])
    requires { begins_with 40 text.now ≡ true }
    ensures { AreRegisters text.now result.0 result.1 result.2.now }
{
    let (first, rest) = number(text);
    if begins(rest, b',') {
        let (second, rest) = number(rest);
        (low_word(first), low_word(second), text_behind(rest, 1))
    } else {
        (0, low_word(first), text_behind(rest, 1))
    }
}

// The low bits.
fn low_word(value: u64) -> u32
    ensures { result ≡ value % 2 ^ 32 }
{
    (value % 4294967296) as u32
}
