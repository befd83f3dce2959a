//! Operands of an access behind one helper, which is the load of a far offset or of an address.
ghost use Rattle.std.specs.Prelude.{◌≡◌};
ghost use Rattle.s390x_inst.specs.declared.args.MemArg.TheVariants.{RegOffset};
ghost use Rattle.s390x_typed_steps.specs.Operands.{is_far};
ghost use Rattle.s390x_text_rows.specs.Storage.{has_displacement, zero_text, at_zero, behind_address, helped_at, helped_operand};

use crate::operand::Operand;
use crate::piece::put_small;
use crate::sum::put_sum;
use s390x_address::{is_numbered, needs_address};
use s390x_base::{MachMemFlags, Reg, SImm20, UImm12, spilltmp_reg, zero_reg};
use s390x_inst::MemArg;
use s390x_typed_steps::MemInstType;
use std::alloc::AllocError;

/// A base and an index at the displacement zero.
#[derive(Clone, Copy)]
pub struct AtZero {
    pub base: Reg,
    pub index: Reg,
}

impl Operand for AtZero {
    ghost shown = { λ a. zero_text a.base a.index };

    fn put(&self, out: &mut String) -> Result<(), AllocError> {
        put_small(out, 0)?;
        put_sum(out, &self.base, &self.index)
    }
}

/// Whether an immediate holds an offset, and no displacement does.
#[inline(always)]
pub fn is_far(off: i64) -> bool
    ensures { result ≡ is_far off }
{
    (-2147483648 <= off && off <= 2147483647)
        && !(0 <= off && off <= 4095)
        && !(-524288 <= off && off <= 524287)
}

/// Whether the rows have a displacement.
#[inline(always)]
pub fn has_displacement(mi: MemInstType) -> bool
    ensures { result ≡ has_displacement mi }
{
    mi.have_d12 || mi.have_d20
}

// A base and an index at the displacement zero of the rows.
fn at_zero(mi: MemInstType, base: Reg, index: Reg, flags: MachMemFlags) -> MemArg
    ensures { result ≡ at_zero mi base index flags }
{
    let disp = UImm12::zero();
    if !mi.have_d12 && mi.have_d20 {
        MemArg::BXD20 {
            base,
            index,
            disp: SImm20::from_uimm12(disp),
            flags,
        }
    } else {
        MemArg::BXD12 {
            base,
            index,
            disp,
            flags,
        }
    }
}

// The place behind the load of an offset as an index.
fn behind_offset(mi: MemInstType, reg: Reg, off: i64, flags: MachMemFlags) -> Option<AtZero>
    ensures { result ≡ helped_at mi (RegOffset reg off flags) }
{
    if has_displacement(mi) && mi.have_index && !is_numbered(1, &reg) && is_far(off) {
        Some(AtZero {
            base: reg,
            index: spilltmp_reg(),
        })
    } else {
        None
    }
}

// The place behind the load of an address, where the rows have no form for the operand.
fn behind_address(mi: MemInstType, mem: &MemArg) -> Option<AtZero>
    ensures { result ≡ behind_address mi mem.now }
{
    if has_displacement(mi) && needs_address(mi, mem) {
        Some(AtZero {
            base: spilltmp_reg(),
            index: zero_reg(),
        })
    } else {
        None
    }
}

/// Where an operand stands behind one helper: a far offset, or one that the rows don't take relative to the instruction.
pub fn helped_at(mi: MemInstType, mem: &MemArg) -> Option<AtZero>
    ensures { result ≡ helped_at mi mem.now }
{
    match mem {
        MemArg::RegOffset { reg, off, flags } => behind_offset(mi, *reg, *off, *flags),
        MemArg::Label { .. } | MemArg::Constant { .. } | MemArg::Symbol { .. } => {
            behind_address(mi, mem)
        }
        _ => None,
    }
}

/// The operand of an access behind one helper.
pub fn helped_operand(mi: MemInstType, mem: &MemArg) -> Option<MemArg>
    ensures { result ≡ helped_operand mi mem.now }
{
    match helped_at(mi, mem) {
        Some(at) => Some(at_zero(mi, at.base, at.index, mem.get_flags())),
        None => None,
    }
}
