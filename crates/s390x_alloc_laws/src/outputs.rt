//! That an assigned instruction changes no register but those that it reported.
ghost use Rattle.s390x_inst.specs.declared.inst.Inst.{Inst};
ghost use Rattle.s390x_alloc_laws.specs.Allocatable.{IsAllocatable, Place};
ghost use Rattle.s390x_alloc_laws.specs.Examples.{far_load, division, selection};
ghost use Rattle.s390x_alloc_laws.specs.Emitted.{EmittedChangesOutputs};
ghost use Rattle.s390x_alloc_laws.specs.OutputExamples.{IsMeant, load_registers, load_changes, division_registers, division_changes};
ghost use Rattle.s390x_alloc_laws.specs.OutputExamples.{selection_registers, selection_changes};
ghost use Rattle.s390x_alloc_laws.specs.Machine.{MachineChangesOutputs};
ghost use Rattle.s390x_alloc_laws.specs.Outputs.{ChangesOutputs, EmitsItsSteps};

/// Where an instruction is allocatable and the one that it becomes with registers that meet its constraints isn't refused, that one's typed step changes no
/// general or vector register but those that its outputs got, those in the range of a `LoadMultiple64`, and `%r1` where it is reported; and no access register.
/// A machine that has done the step's bytes has changed no others, whatever other processors wrote meanwhile. And emission makes no other steps of it.
/// All that holds of each that emission lets pass, with any number of labels in use.
pub fn only_outputs_change()
    ensures step { (P : Place) (i : Inst) → IsAllocatable P i → ChangesOutputs P i }
    ensures machine { (P : Place) (i : Inst) → IsAllocatable P i → MachineChangesOutputs P i }
    ensures emission { (P : Place) (i : Inst) → IsAllocatable P i → EmitsItsSteps P i }
    ensures emitted { (P : Place) (i : Inst) → IsAllocatable P i → EmittedChangesOutputs P i }
{}

/// Some instructions are meant by that, wherever they stand: a load at an offset of more than 12 bits, which may change its output and `%r1`; a division, which
/// may change the pair `%r2` and `%r3`; and a vector instruction, which may change its output.
pub fn some_are_meant()
    ensures load { (P : Place) → IsMeant P far_load load_registers load_changes }
    ensures division { (P : Place) → IsMeant P division division_registers division_changes }
    ensures vector { (P : Place) → IsMeant P selection selection_registers selection_changes }
{}
