//! That registers which meet an instruction's constraints are no cause of refusal.
ghost use Rattle.s390x_inst.specs.declared.inst.Inst.{Inst};
ghost use Rattle.s390x_alloc_laws.specs.Allocatable.{AssignmentsSuffice, EmissionsSuffice, IsAllocatable, Place};
ghost use Rattle.s390x_alloc_laws.specs.Examples.{far_load, division, selection};

/// Where an instruction has no cause of refusal but its virtual registers, and its real registers stand only where `IsAllocatable` lets them, any registers
/// that meet its constraints, of which no virtual operand gets `%r0`, `%r1` or `%r15`, give an instruction whose step and whose emission are refused neither by
/// `BadRegister` nor by `ScratchConflict`.
pub fn registers_are_not_blamed()
    ensures step { (P : Place) (i : Inst) → IsAllocatable P i → AssignmentsSuffice P i }
    ensures emission { (P : Place) (i : Inst) → IsAllocatable P i → EmissionsSuffice P i }
{}

/// Some instructions are meant by that: a load at an offset of more than 12 bits, a division, and a vector instruction.
pub fn some_are_allocatable()
    ensures load { (P : Place) → IsAllocatable P far_load }
    ensures division { (P : Place) → IsAllocatable P division }
    ensures vector { (P : Place) → IsAllocatable P selection }
{}
