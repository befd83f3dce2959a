//! Operands of an access that are an offset which a displacement of its rows holds: they are printed as they stand.
ghost use Rattle.std.specs.Prelude.{◌≡◌, ◌++◌, codes, string_bytes};
ghost use Rattle.std.specs.Option.{option_map};
ghost use Rattle.s390x_text_rows.specs.Texts.{Prints, fixed_text};
ghost use Rattle.s390x_text_rows.specs.Storage.{at_offset, near_offset, near_row, offset_text};

use crate::error::TextError;
use crate::operand::{Operand, put_bracketed};
use crate::piece::{put, put_integer};
use crate::row::text_result;
use s390x_base::Reg;
use s390x_inst::MemArg;
use std::alloc::AllocError;

/// A base behind an offset.
#[derive(Clone, Copy)]
pub struct BaseOffset {
    pub base: Reg,
    pub off: i64,
}

impl Operand for BaseOffset {
    ghost shown = { λ o. offset_text o.off o.base };

    fn put(&self, out: &mut String) -> Result<(), AllocError> {
        put_integer(out, self.off)?;
        put_bracketed(out, &self.base)
    }
}

/// Appends a comma and a base behind an offset.
#[inline(always)]
pub fn put_place(out: &mut String, at: &BaseOffset) -> Result<(), TextError>
    ensures { Prints result (string_bytes out.old) (string_bytes out.new)
        (fixed_text (codes ", " ++ offset_text at.now.off at.now.base)) }
{
    match put(out, ", ") {
        Ok(()) => text_result(at.put(out)),
        Err(error) => Err(TextError::from(error)),
    }
}

/// An access at an offset, by the row with this opcode.
#[derive(Clone, Copy)]
pub struct NearOffset {
    pub opcode: u16,
    pub at: BaseOffset,
}

// The opcode of the first row whose displacement holds an offset.
#[inline(always)]
fn near_row(short: Option<u16>, long: Option<u16>, off: i64) -> Option<u16>
    ensures { result ≡ near_row short long off }
{
    if short.is_some() && 0 <= off && off <= 4095 {
        return short;
    }
    if long.is_some() && -524288 <= off && off <= 524287 {
        long
    } else {
        None
    }
}

/// The access at an offset by the row with an opcode, where there is one.
#[inline(always)]
pub fn at_offset(base: Reg, off: i64, opcode: Option<u16>) -> Option<NearOffset>
    ensures { result ≡ option_map (at_offset base off) opcode }
{
    match opcode {
        Some(opcode) => Some(NearOffset {
            opcode,
            at: BaseOffset { base, off },
        }),
        None => None,
    }
}

/// The access at an operand that is an offset which a displacement holds, by rows with these opcodes.
#[inline(always)]
pub fn near_offset(short: Option<u16>, long: Option<u16>, mem: &MemArg) -> Option<NearOffset>
    ensures { result ≡ near_offset short long mem.now }
{
    match mem {
        MemArg::RegOffset { reg, off, .. } => at_offset(*reg, *off, near_row(short, long, *off)),
        _ => None,
    }
}

/// An opcode of two digits as one of any length.
pub fn long_opcode(opcode: Option<u8>) -> Option<u16>
    ensures { result ≡ opcode }
{
    match opcode {
        Some(opcode) => Some(u16::from(opcode)),
        None => None,
    }
}
