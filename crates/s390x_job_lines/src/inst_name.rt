//! The names of instructions' lines, in groups.
ghost use Rattle.s390x_job_lines.specs.Names.{integer_text, memory_name_text, control_text, vector_name_text};

use crate::rows::named;
use s390x_inst::{inst_table, vector_table};
use s390x_job_fields::word::{Names, Word, name_at};

/// Instructions on general registers alone.
#[derive(Clone, Copy)]
pub enum IntegerName {
    AluRRR,
    AluRRSImm16,
    AluRR,
    AluRX,
    AluRSImm16,
    AluRSImm32,
    AluRUImm32,
    AluRUImm16Shifted,
    AluRUImm32Shifted,
    SMulWide,
    UMulWide,
    SDivMod32,
    SDivMod64,
    UDivMod32,
    UDivMod64,
    Flogr,
    ShiftRR,
    RxSBG,
    RxSBGTest,
    UnaryRR,
    CmpRR,
    CmpRX,
    CmpRSImm16,
    CmpRSImm32,
    CmpRUImm32,
    CmpTrapRR,
    CmpTrapRSImm16,
    CmpTrapRUImm16,
    Mov64,
    MovPReg,
    Mov32,
    Mov32Imm,
    Mov32SImm16,
    Mov64SImm16,
    Mov64SImm32,
    Mov64UImm16Shifted,
    Mov64UImm32Shifted,
    Insert64UImm16Shifted,
    Insert64UImm32Shifted,
    CMov32,
    CMov64,
    CMov32SImm16,
    CMov64SImm16,
    Extend,
    LoadAR,
    InsertAR,
}

/// Multiple loads and stores, stores of numbers, addresses and atomic instructions.
#[derive(Clone, Copy)]
pub enum MemoryName {
    StoreImm8,
    StoreImm16,
    StoreImm32SExt16,
    StoreImm64SExt16,
    LoadMultiple64,
    StoreMultiple64,
    LoadAddr,
    LoadIndexedAddr,
    LoadLogicalIndexedAddr,
    AtomicRmw,
    AtomicCas32,
    AtomicCas64,
}

/// Traps, branches, calls, and what has no code.
#[derive(Clone, Copy)]
pub enum ControlName {
    Trap,
    TrapIf,
    Jump,
    CondBr,
    Ret,
    CondBreak,
    AllocateArgs,
    LoadSymbolReloc,
    LabelAddress,
    DummyUse,
    Fence,
    Nop0,
    Nop2,
    Debugtrap,
    IndirectBr,
    JTSequence,
    Call,
    ReturnCall,
    Args,
    Rets,
    SequencePoint,
}

/// Instructions on vector or float registers, but for loads and stores of a whole one.
#[derive(Clone, Copy)]
pub enum VectorName {
    VecRRR,
    VecRR,
    VecShiftRR,
    VecSelect,
    VecPermute,
    VecBlend,
    VecEvaluate,
    VecPermuteDWImm,
    VecIntCmp,
    VecIntCmpS,
    VecIntEltCmp,
    VecInt128SCmpHi,
    VecInt128UCmpHi,
    VecLoadReplicate,
    VecLoadReplicateRev,
    VecLoadLane,
    VecLoadLaneRev,
    VecLoadLaneUndef,
    VecLoadLaneRevUndef,
    VecStoreLane,
    VecStoreLaneRev,
    VecMov,
    FpuMove32,
    FpuMove64,
    FpuCMov32,
    FpuCMov64,
    VecCMov,
    MovToVec128,
    VecImmByteMask,
    VecImmBitMask,
    VecImmReplicate,
    VecInsertLane,
    VecInsertLaneUndef,
    VecExtractLane,
    VecInsertLaneImm,
    VecInsertLaneImmUndef,
    VecReplicateLane,
    VecEltRev,
}

/// Each value with its name, in the order of the declaration.
pub const INTEGER_NAMES: Names<IntegerName> = inst_table!(named, IntegerName);

/// Each value with its name, in the order of the declaration.
pub const MEMORY_NAMES: Names<MemoryName> = inst_table!(named, MemoryName);

/// Each value with its name, in the order of the declaration.
pub const CONTROL_NAMES: Names<ControlName> =
    inst_table!(named, ControlName, Fence Nop0 Nop2 Debugtrap IndirectBr JTSequence Call ReturnCall Args Rets SequencePoint);

/// Each value with its name, in the order of the declaration.
pub const VECTOR_NAMES: Names<VectorName> = vector_table!(named, VectorName);

impl Word for IntegerName {
    ghost spelling = { integer_text };

    fn text(self) -> &'static str {
        name_at(INTEGER_NAMES, self as usize)
    }
}

impl Word for MemoryName {
    ghost spelling = { memory_name_text };

    fn text(self) -> &'static str {
        name_at(MEMORY_NAMES, self as usize)
    }
}

impl Word for ControlName {
    ghost spelling = { control_text };

    fn text(self) -> &'static str {
        name_at(CONTROL_NAMES, self as usize)
    }
}

impl Word for VectorName {
    ghost spelling = { vector_name_text };

    fn text(self) -> &'static str {
        name_at(VECTOR_NAMES, self as usize)
    }
}
