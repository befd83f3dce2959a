//! The instructions on vector and float registers.

use crate::args::MemArg;
use crate::vec_ops::{VecBinaryOp, VecIntCmpOp, VecIntEltCmpOp, VecShiftOp, VecUnaryOp};
use s390x_base::{Cond, Reg, Writable};
use std::fmt;

/// A typed instruction on vector or float registers, with the names of `Inst`'s fields.
///
/// `rd` is written; `ri` is an input that has to be the same register as `rd`; `rn`, `rm` and `ra` are read.
#[rattlefmt::skip]
#[derive(Clone, Copy)]
pub enum VecInst {
    /// `rd` becomes `rn op rm`.
    VecRRR { op: VecBinaryOp, rd: Writable<Reg>, rn: Reg, rm: Reg },
    /// `rd` becomes `op rn`.
    VecRR { op: VecUnaryOp, rd: Writable<Reg>, rn: Reg },
    /// `rd` becomes `rn`, its lanes shifted by `shift_imm` plus `shift_reg`.
    VecShiftRR { shift_op: VecShiftOp, rd: Writable<Reg>, rn: Reg, shift_imm: u8, shift_reg: Reg },
    /// `rd` has the bits of `rn` where `ra` has ones, else those of `rm`.
    VecSelect { rd: Writable<Reg>, rn: Reg, rm: Reg, ra: Reg },
    /// `rd` has the bytes of `rn` and `rm` that the bytes of `ra` name.
    VecPermute { rd: Writable<Reg>, rn: Reg, rm: Reg, ra: Reg },
    /// `rd` has the lanes of `rn` or `rm` that the lanes of `ra` choose.
    VecBlend { rd: Writable<Reg>, rn: Reg, rm: Reg, ra: Reg },
    /// `rd` has for each bit of `rn`, `rm` and `ra` the bit that the truth table `imm` gives.
    VecEvaluate { imm: u8, rd: Writable<Reg>, rn: Reg, rm: Reg, ra: Reg },
    /// `rd` has doubleword `idx1` of `rn` and doubleword `idx2` of `rm`.
    VecPermuteDWImm { rd: Writable<Reg>, rn: Reg, rm: Reg, idx1: u8, idx2: u8 },
    /// The lanes of `rd` become ones where the comparison holds, else zeros.
    VecIntCmp { op: VecIntCmpOp, rd: Writable<Reg>, rn: Reg, rm: Reg },
    /// As `VecIntCmp`, and sets the condition code.
    VecIntCmpS { op: VecIntCmpOp, rd: Writable<Reg>, rn: Reg, rm: Reg },
    /// Compares two numbers of 128 bits.
    VecIntEltCmp { op: VecIntEltCmpOp, rn: Reg, rm: Reg },
    /// Whether `rn` is greater than `rm`, signed; `tmp` may change.
    VecInt128SCmpHi { tmp: Writable<Reg>, rn: Reg, rm: Reg },
    /// Whether `rn` is greater than `rm`, unsigned; `tmp` may change.
    VecInt128UCmpHi { tmp: Writable<Reg>, rn: Reg, rm: Reg },
    /// Loads 128 bits.
    VecLoad { rd: Writable<Reg>, mem: MemArg },
    /// Loads 128 bits, their bytes reversed.
    VecLoadRev { rd: Writable<Reg>, mem: MemArg },
    /// Loads 128 bits, the bytes of each lane of 16 bits reversed.
    VecLoadByte16Rev { rd: Writable<Reg>, mem: MemArg },
    /// Loads 128 bits, the bytes of each lane of 32 bits reversed.
    VecLoadByte32Rev { rd: Writable<Reg>, mem: MemArg },
    /// Loads 128 bits, the bytes of each lane of 64 bits reversed.
    VecLoadByte64Rev { rd: Writable<Reg>, mem: MemArg },
    /// Loads 128 bits, the lanes of 16 bits reversed.
    VecLoadElt16Rev { rd: Writable<Reg>, mem: MemArg },
    /// Loads 128 bits, the lanes of 32 bits reversed.
    VecLoadElt32Rev { rd: Writable<Reg>, mem: MemArg },
    /// Loads 128 bits, the lanes of 64 bits reversed.
    VecLoadElt64Rev { rd: Writable<Reg>, mem: MemArg },
    /// Stores 128 bits.
    VecStore { rd: Reg, mem: MemArg },
    /// Stores 128 bits, their bytes reversed.
    VecStoreRev { rd: Reg, mem: MemArg },
    /// Stores 128 bits, the bytes of each lane of 16 bits reversed.
    VecStoreByte16Rev { rd: Reg, mem: MemArg },
    /// Stores 128 bits, the bytes of each lane of 32 bits reversed.
    VecStoreByte32Rev { rd: Reg, mem: MemArg },
    /// Stores 128 bits, the bytes of each lane of 64 bits reversed.
    VecStoreByte64Rev { rd: Reg, mem: MemArg },
    /// Stores 128 bits, the lanes of 16 bits reversed.
    VecStoreElt16Rev { rd: Reg, mem: MemArg },
    /// Stores 128 bits, the lanes of 32 bits reversed.
    VecStoreElt32Rev { rd: Reg, mem: MemArg },
    /// Stores 128 bits, the lanes of 64 bits reversed.
    VecStoreElt64Rev { rd: Reg, mem: MemArg },
    /// Loads one lane of `size` bits into all lanes.
    VecLoadReplicate { size: u32, rd: Writable<Reg>, mem: MemArg },
    /// Loads one lane of `size` bits, its bytes reversed, into all lanes.
    VecLoadReplicateRev { size: u32, rd: Writable<Reg>, mem: MemArg },
    /// Loads the lane `lane_imm` of `size` bits; `ri` is `rd`.
    VecLoadLane { size: u32, rd: Writable<Reg>, ri: Reg, mem: MemArg, lane_imm: u8 },
    /// Loads the lane `lane_imm` of `size` bits, its bytes reversed; `ri` is `rd`.
    VecLoadLaneRev { size: u32, rd: Writable<Reg>, ri: Reg, mem: MemArg, lane_imm: u8 },
    /// Loads the lane `lane_imm` of `size` bits; the other lanes may change.
    VecLoadLaneUndef { size: u32, rd: Writable<Reg>, mem: MemArg, lane_imm: u8 },
    /// Loads the lane `lane_imm` of `size` bits, its bytes reversed; the other lanes may change.
    VecLoadLaneRevUndef { size: u32, rd: Writable<Reg>, mem: MemArg, lane_imm: u8 },
    /// Stores the lane `lane_imm` of `size` bits.
    VecStoreLane { size: u32, rd: Reg, mem: MemArg, lane_imm: u8 },
    /// Stores the lane `lane_imm` of `size` bits, its bytes reversed.
    VecStoreLaneRev { size: u32, rd: Reg, mem: MemArg, lane_imm: u8 },
    /// `rd` becomes `rn`.
    VecMov { rd: Writable<Reg>, rn: Reg },
    /// The left 32 bits of `rd` become those of `rn`; the others may change.
    FpuMove32 { rd: Writable<Reg>, rn: Reg },
    /// The left 64 bits of `rd` become those of `rn`; the others may change.
    FpuMove64 { rd: Writable<Reg>, rn: Reg },
    /// As `FpuMove32` from `rm`, where the condition holds; `ri` is `rd`.
    FpuCMov32 { rd: Writable<Reg>, cond: Cond, ri: Reg, rm: Reg },
    /// As `FpuMove64` from `rm`, where the condition holds; `ri` is `rd`.
    FpuCMov64 { rd: Writable<Reg>, cond: Cond, ri: Reg, rm: Reg },
    /// `rd` becomes `rm` where the condition holds; `ri` is `rd`.
    VecCMov { rd: Writable<Reg>, cond: Cond, ri: Reg, rm: Reg },
    /// `rd` becomes the general registers `rn` and `rm` side by side.
    MovToVec128 { rd: Writable<Reg>, rn: Reg, rm: Reg },
    /// Each byte of `rd` becomes ones where its bit of `mask` is one, else zeros.
    VecImmByteMask { rd: Writable<Reg>, mask: u16 },
    /// Each lane of `size` bits becomes ones from `start_bit` to `end_bit`, wrapping.
    VecImmBitMask { size: u32, rd: Writable<Reg>, start_bit: u8, end_bit: u8 },
    /// Each lane of `size` bits becomes `imm`.
    VecImmReplicate { size: u32, rd: Writable<Reg>, imm: i16 },
    /// The lane `lane_imm` plus `lane_reg` becomes the low `size` bits of `rn`; `ri` is `rd`.
    VecInsertLane { size: u32, rd: Writable<Reg>, ri: Reg, rn: Reg, lane_imm: u8, lane_reg: Reg },
    /// The lane `lane_imm` plus `lane_reg` becomes the low `size` bits of `rn`; the other lanes may change.
    VecInsertLaneUndef { size: u32, rd: Writable<Reg>, rn: Reg, lane_imm: u8, lane_reg: Reg },
    /// `rd` becomes the lane `lane_imm` plus `lane_reg` of `size` bits, zero-extended.
    VecExtractLane { size: u32, rd: Writable<Reg>, rn: Reg, lane_imm: u8, lane_reg: Reg },
    /// The lane `lane_imm` of `size` bits becomes `imm`; `ri` is `rd`.
    VecInsertLaneImm { size: u32, rd: Writable<Reg>, ri: Reg, imm: i16, lane_imm: u8 },
    /// The lane `lane_imm` of `size` bits becomes `imm`; the other lanes may change.
    VecInsertLaneImmUndef { size: u32, rd: Writable<Reg>, imm: i16, lane_imm: u8 },
    /// All lanes of `size` bits become the lane `lane_imm` of `rn`.
    VecReplicateLane { size: u32, rd: Writable<Reg>, rn: Reg, lane_imm: u8 },
    /// `rd` becomes `rn` with its lanes in reverse order.
    VecEltRev { lane_count: u64, rd: Writable<Reg>, rn: Reg },
}

impl fmt::Debug for VecInst {
    fn fmt<W: fmt::Write>(&self, f: &mut fmt::Formatter<W>) -> fmt::Result {
        f.write_str("VecInst")
    }
}
