//! The look-up of a move under a condition.
ghost use Rattle.std.specs.Prelude.{◌≡◌, ◌<◌};
ghost use Rattle.s390x_base.specs.Regs.{number_of};
ghost use Rattle.s390x_typed_steps.specs.General.{four_bits};
ghost use Rattle.s390x_typed_steps.specs.SingleCode.{code_where};
ghost use Rattle.s390x_typed_steps.specs.MachineInstruction.{vrr_a};
ghost use Rattle.s390x_typed_steps.specs.VectorComposite.{move_under};
ghost use Rattle.s390x_typed_steps.specs.VectorInstruction.{is_vector, move_left_row, reuses_vector};
ghost use Rattle.s390x_emit_vec.specs.Conditional.{IsMoveUnder};

use crate::codes::{reused_left, reused_whole};
use s390x_base::{Code, Cond, EmitError};
use s390x_inst::VecInst;
use s390x_rows::opcodes;

/// A move that is done where the mask selects the condition code: its code, or why it is refused.
#[derive(Drop)]
pub struct MoveUnder {
    pub mask: u8,
    pub code: Result<Code, EmitError>,
}

fn bits_of(cond: Cond) -> u8
    ensures value { result ≡ four_bits cond }
    ensures few { result < 16 }
{
    cond.bits()
}

/// The move of a vector instruction that is one under a condition; None for another one.
pub fn find_move_under(inst: &VecInst) -> Option<MoveUnder>
    ensures { IsMoveUnder result (move_under inst.now) }
{
    match inst {
        VecInst::FpuCMov32 { rd, cond, ri, rm } => Some(MoveUnder {
            mask: bits_of(*cond),
            code: reused_left(opcodes::LER, rd.to_reg(), *ri, *rm),
        }),
        VecInst::FpuCMov64 { rd, cond, ri, rm } => Some(MoveUnder {
            mask: bits_of(*cond),
            code: reused_left(opcodes::LDR, rd.to_reg(), *ri, *rm),
        }),
        VecInst::VecCMov { rd, cond, ri, rm } => Some(MoveUnder {
            mask: bits_of(*cond),
            code: reused_whole(rd.to_reg(), *ri, *rm),
        }),
        _ => None,
    }
}
