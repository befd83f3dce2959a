//! Layouts: which bits of an instruction are which bits of its operands.
ghost use Rattle.std.specs.Prelude.{◌≡◌, ℕ, ◌+◌, ◌*◌, ◌/◌, ◌%◌, ◌^◌, ◌<◌, ◌≤◌, ◌&&◌, ◌||◌, nat_lt, Bool, true, ◌==◌, length, slice_index, if◌then◌else◌};
ghost use Rattle.s390x_format.specs.Layout.{number, piece, field, is_layout, bits, zero_bits};

// The ten slots of an instruction's values. Registers stand in the order of the arguments of the
// format's encoding call, and so do masks and immediates of 8 bits.
pub const OPCODE: u8 = 0;

pub const REG_1: u8 = 1;

pub const REG_2: u8 = 2;

pub const REG_3: u8 = 3;

pub const REG_4: u8 = 4;

pub const MASK_1: u8 = 5;

pub const MASK_2: u8 = 6;

pub const MASK_3: u8 = 7;

pub const IMMEDIATE: u8 = 8;

pub const DISPLACEMENT: u8 = 9;
/// No slot: the bits are zero.
pub const ZERO: u8 = 10;

/// Some neighbouring bits of an instruction: `width` bits of the value in `slot`, from its bit
/// `low` on, where bit 0 is the least significant one.
#[derive(Clone, Copy)]
pub struct Part {
    pub slot: u8,
    pub low: u8,
    pub width: u8,
}

/// The bits of its value that a part has.
fn piece_of(part: Part, slots: &[u32; 10]) -> u64
    requires low { part.low ≤ 31 }
    requires width { part.width ≤ 32 }
    ensures { result ≡ piece (slice_index slots.now part.slot) part }
{
    let slot = part.slot as usize;
    let value = if slot < 10 { slots[slot] } else { 0 };
    (value >> part.low) as u64 % (1u64 << part.width)
}

/// The number with `piece` after it.
fn append(n: u64, width: u8, piece: u64) -> u64
    requires width { width ≤ 32 }
    requires fits { n * 2 ^ width + piece < 2 ^ 64 }
    ensures { result ≡ n * 2 ^ width + piece }
{
    n * (1u64 << width) + piece
}

/// The number with the parts of the slots.
pub fn pack(parts: &[Part], slots: &[u32; 10]) -> u64
    requires { is_layout parts.now ≡ true }
    ensures { result ≡ number parts.now slots.now }
{
    let mut n: u64 = 0;
    for part in parts {
        n = append(n, part.width, piece_of(*part, slots));
    }
    n
}

/// The bits of a number from `rest` on.
fn digit_of(n: u64, rest: u8, width: u8) -> u64
    requires rest { rest ≤ 48 }
    requires width { width ≤ 32 }
    ensures { result ≡ n / 2 ^ rest % 2 ^ width }
{
    (n >> rest) % (1u64 << width)
}

/// Puts a digit into its field.
fn add_digit(slots: &mut [u32; 10], part: Part, digit: u64)
    requires low { part.low ≤ 31 }
    requires digit { digit < 2 ^ 32 }
    requires fits { part.slot < 10
        → slice_index slots.old part.slot + digit * 2 ^ part.low < 2 ^ 32 }
    ensures ten { length slots.new ≡ 10 }
    ensures values { (k : ℕ) → k < 10
        → slice_index slots.new k
        ≡ (if part.slot == k then digit * 2 ^ part.low else 0) + slice_index slots.old k }
{
    let slot = part.slot as usize;
    if slot < 10 {
        let shifted = digit * (1u64 << part.low);
        slots[slot] += shifted as u32;
    }
}

/// Whether the bits of no field are zero in one more digit, as they are in those before it.
fn has_more_zeros(before: bool, part: Part, digit: u64) -> bool
    ensures { result ≡ ((nat_lt part.slot 10 || (digit == 0)) && before) }
{
    (part.slot < 10 || digit == 0) && before
}

/// What a number has in a format's slots, and whether its bits of no field are zero.
#[derive(Clone, Copy)]
pub struct Unpacked {
    pub slots: [u32; 10],
    pub has_zeros: bool,
}

/// The slots of a number.
pub fn unpack(parts: &[Part], total: u8, n: u64) -> Unpacked
    requires layout { is_layout parts.now ≡ true }
    requires total { total ≡ bits parts.now }
    ensures ten { length result.slots ≡ 10 }
    ensures values { (k : ℕ) → k < 10 → slice_index result.slots k ≡ field parts.now n k }
    ensures zeros { result.has_zeros ≡ zero_bits parts.now n }
{
    let mut slots = [0u32; 10];
    let mut has_zeros = true;
    let mut rest = total;
    for part in parts {
        rest -= part.width;
        let digit = digit_of(n, rest, part.width);
        has_zeros = has_more_zeros(has_zeros, *part, digit);
        add_digit(&mut slots, *part, digit);
    }
    Unpacked { slots, has_zeros }
}
