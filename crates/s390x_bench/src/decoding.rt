//! Decoding an instruction again and again.

use s390x_format::{Decoded, decode};

/// What the fields of so many decoded instructions sum up to. Each has the lowest six bytes of a number, most significant first; the lowest four
/// bits of the fourth byte change from turn to turn, so that each is decoded anew.
pub fn decode_turns(turns: u64, number: u64) -> u64 {
    let mut sum: u64 = 0;
    for turn in 0..turns {
        let bytes = six_bytes(number, turn % 16);
        if let Some(decoded) = decode(&bytes) {
            sum = sum.wrapping_add(fields_sum(&decoded));
        }
    }
    sum
}

// The bytes of a number, the lowest four bits of the fourth replaced.
fn six_bytes(number: u64, turn: u64) -> [u8; 6] {
    let fourth = (number >> 16) % 256 / 16 * 16 + turn % 16;
    [
        ((number >> 40) % 256) as u8,
        ((number >> 32) % 256) as u8,
        ((number >> 24) % 256) as u8,
        fourth as u8,
        ((number >> 8) % 256) as u8,
        (number % 256) as u8,
    ]
}

// The sum of all that was decoded.
fn fields_sum(decoded: &Decoded) -> u64 {
    let fields = &decoded.fields;
    let mut sum = decoded.row.opcode as u64;
    for register in &fields.regs {
        sum = sum.wrapping_add(*register as u64);
    }
    for mask in &fields.masks {
        sum = sum.wrapping_add(*mask as u64);
    }
    sum.wrapping_add(fields.imm.cast_unsigned())
        .wrapping_add(fields.disp.cast_unsigned() as u64)
}
