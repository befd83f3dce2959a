//! Finalizing an operand.
ghost use Rattle.std.specs.Prelude.{◌≡◌, ◌++◌, None, Some, MatchResult};
ghost use Rattle.smallvec.specs.SmallVec.{HasRoomFor};
ghost use Rattle.s390x_typed_steps.specs.Operands.{resolved_operand, finalized_operand};
ghost use Rattle.s390x_typed_steps.specs.Causes.{operand_cause};
ghost use Rattle.s390x_address.specs.Lowerings.{far_helper, address_helper};

use crate::lowering::lower_operand;
use s390x_base::{EmitError, writable_spilltmp_reg};
use s390x_inst::{EmitState, Inst, MemArg};
use s390x_typed_steps::MemInstType;
use smallvec::SmallVec;
use std::alloc::Global;

// The load of an offset, where there is one.
fn push_far(helpers: &mut SmallVec<Inst, 4, Global>, far: Option<i32>)
    requires { HasRoomFor helpers.old 2 }
    ensures items { helpers.new.items ≡ helpers.old.items ++ far_helper far }
    ensures room { HasRoomFor helpers.new 1 }
{
    match far {
        Some(imm) => helpers.push_reserved(Inst::Mov64SImm32 {
            rd: writable_spilltmp_reg(),
            imm,
        }),
        None => {}
    }
}

// The load of an address, where there is one.
fn push_address(helpers: &mut SmallVec<Inst, 4, Global>, address: Option<MemArg>)
    requires { HasRoomFor helpers.old 1 }
    ensures { helpers.new.items ≡ helpers.old.items ++ address_helper address }
{
    match address {
        Some(mem) => helpers.push_reserved(Inst::LoadAddr {
            rd: writable_spilltmp_reg(),
            mem,
        }),
        None => {}
    }
}

/// The operand that stands in an access by rows with these forms, and the instructions before it, which write `%r1` alone.
///
/// A frame operand is its exact offset from the stack pointer. An offset stands as a displacement of 12 or 20 bits, or it is loaded into `%r1`
/// as an index; what the rows have no form for, has its address loaded into `%r1`. It takes no memory.
///
/// `BadOperator` where the rows have no displacement and the operand is none that they take relative to the instruction, `ScratchConflict` where
/// the offset is loaded over its base `%r1`, `OffsetOutOfRange` where the exact offset doesn't fit a signed immediate of 32 bits
/// (cranelift-codegen, `mem_finalize` in `emit.rs`).
pub fn mem_finalize(
    alloc: Global,
    mem: &MemArg,
    state: &EmitState,
    mi: MemInstType,
) -> Result<(SmallVec<Inst, 4, Global>, MemArg), EmitError>
    ensures { MatchResult result
        (λ r. (operand_cause mi (resolved_operand state.now mem.now) ≡ None)
        × (r.0.items ≡ (finalized_operand mi (resolved_operand state.now mem.now)).helpers)
        × (r.1 ≡ (finalized_operand mi (resolved_operand state.now mem.now)).operand))
        (λ e. operand_cause mi (resolved_operand state.now mem.now) ≡ Some e) }
{
    let lowering = lower_operand(mem, state, mi)?;
    let mut helpers = SmallVec::new(alloc);
    push_far(&mut helpers, lowering.offset_load);
    push_address(&mut helpers, lowering.address_load);
    Ok((helpers, lowering.operand))
}
