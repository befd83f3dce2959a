//! Operands in memory.
ghost use Rattle.std.specs.Prelude.{◌≡◌};
ghost use Rattle.s390x_alloc.specs.Shape.{memory_operand, rest_operand, vector_memory, part_operand};

use s390x_inst::{Inst, MemArg, VecInst};

// The operand in memory of a load or a store of elements.
fn part_operand(inst: &VecInst) -> Option<MemArg>
    ensures { result ≡ part_operand inst.now }
{
    match inst {
        VecInst::VecLoadReplicate { mem, .. }
        | VecInst::VecLoadReplicateRev { mem, .. }
        | VecInst::VecLoadLane { mem, .. }
        | VecInst::VecLoadLaneRev { mem, .. }
        | VecInst::VecLoadLaneUndef { mem, .. }
        | VecInst::VecLoadLaneRevUndef { mem, .. }
        | VecInst::VecStoreLane { mem, .. }
        | VecInst::VecStoreLaneRev { mem, .. } => Some(*mem),
        _ => None,
    }
}

// The operand in memory of a vector instruction.
fn vector_memory(inst: &VecInst) -> Option<MemArg>
    ensures { result ≡ vector_memory inst.now }
{
    match inst.as_whole() {
        Some(whole) => Some(whole.mem),
        None => part_operand(inst),
    }
}

// The operand in memory of an instruction that is neither a load nor a store of one register.
fn rest_operand(inst: &Inst) -> Option<MemArg>
    ensures { result ≡ rest_operand inst.now }
{
    match inst {
        Inst::AluRX { mem, .. }
        | Inst::CmpRX { mem, .. }
        | Inst::StoreImm8 { mem, .. }
        | Inst::StoreImm16 { mem, .. }
        | Inst::StoreImm32SExt16 { mem, .. }
        | Inst::StoreImm64SExt16 { mem, .. }
        | Inst::LoadMultiple64 { mem, .. }
        | Inst::StoreMultiple64 { mem, .. }
        | Inst::LoadAddr { mem, .. }
        | Inst::AtomicRmw { mem, .. }
        | Inst::AtomicCas32 { mem, .. }
        | Inst::AtomicCas64 { mem, .. } => Some(*mem),
        Inst::Vector(inst) => vector_memory(inst),
        _ => None,
    }
}

/// The operand in memory of an instruction, where it has one.
pub fn memory_operand(inst: &Inst) -> Option<MemArg>
    ensures { result ≡ memory_operand inst.now }
{
    match inst.as_load() {
        Some(load) => Some(load.mem),
        None => match inst.as_store() {
            Some(store) => Some(store.mem),
            None => rest_operand(inst),
        },
    }
}
