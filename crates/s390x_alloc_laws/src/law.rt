//! What holds of the function that a plan without a fault gives, by its typed steps.
ghost use Rattle.s390x_alloc_laws.specs.Accesses.{OperandsAreSeen};
ghost use Rattle.s390x_alloc_laws.specs.Classes.{EditsKeepClasses};
ghost use Rattle.s390x_alloc_laws.specs.Successors.{CallsHaveNoHandlers, JumpsLead, StepsLeadToSuccessors, StepsStay};
ghost use Rattle.s390x_alloc_laws.specs.Unblamed.{MovesAreNotBlamed, StepsAreNotBlamed};

/// Where an instruction has no cause of refusal but its virtual registers, and its real registers stand only where `IsAllocatable` lets them, the registers of
/// a step that has no fault give an instruction that is refused neither by `BadRegister` nor by `ScratchConflict`.
pub fn steps_are_not_blamed()
    ensures { StepsAreNotBlamed }
{}

/// No move without a fault is refused by `BadRegister` or `ScratchConflict`, wherever it is emitted.
pub fn moves_are_not_blamed()
    ensures { MovesAreNotBlamed }
{}

/// Wherever a typed step goes on, whatever registers its instruction got, that is to the next step, or, of the last instruction of a block, to the first step of
/// a block that the checker takes for a successor. No call has handlers, at which a run could go on.
pub fn steps_lead_to_successors()
    ensures inside { StepsStay }
    ensures ends { StepsLeadToSuccessors }
    ensures calls { CallsHaveNoHandlers }
{}

/// Some step goes on so: a jump in any layout leads to its block.
pub fn some_step_leads()
    ensures { JumpsLead }
{}

/// The operand in memory in which the checker looks for labels is the one that the instruction's typed step accesses, or whose address it loads.
pub fn operands_are_seen()
    ensures { OperandsAreSeen }
{}

/// No edit without a fault puts a value into a register of another class, neither from another register nor from a slot nor as an output.
pub fn edits_keep_classes()
    ensures { EditsKeepClasses }
{}
