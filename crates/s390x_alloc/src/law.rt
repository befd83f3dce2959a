//! What a plan without a fault is good for.
ghost use Rattle.std.specs.Prelude.{◌≡◌, IsOk, List, None};
ghost use Rattle.s390x_base.specs.declared.regs.Reg.{Reg};
ghost use Rattle.s390x_inst.specs.declared.function.Block.{Block};
ghost use Rattle.s390x_inst.specs.declared.inst.Inst.{Inst};
ghost use Rattle.s390x_inst.specs.declared.state.FrameLayout.{FrameLayout};
ghost use Rattle.s390x_operands.specs.Meets.{Meets};
ghost use Rattle.s390x_operands.specs.Operands.{operands};
ghost use Rattle.s390x_alloc.specs.Checked.{plan_contents};
ghost use Rattle.s390x_alloc.specs.Example.{SpillIsAccepted};
ghost use Rattle.s390x_alloc.specs.Steps.{step_cause};
ghost use Rattle.s390x_alloc.specs.Walks.{EveryWalkReadsAlike};
ghost use Rattle.s390x_alloc.specs.declared.plan.BlockPlan.{BlockPlan};
ghost use Rattle.s390x_alloc.specs.declared.plan.EntryPair.{EntryPair};

/// Where a plan has no fault, on every walk from the first block, and whatever the values are, each instruction reads by its registers the values of its virtual
/// registers.
pub fn walks_read_alike()
    ensures { (layout : FrameLayout) (blocks : List Block) (plans : List BlockPlan)
        → IsOk (plan_contents layout blocks plans) → EveryWalkReadsAlike blocks plans }
{}

/// Some plan of two blocks has no fault, with a move into a slot and one out of it, and a walk comes to both blocks.
pub fn some_plan_is_accepted()
    ensures { SpillIsAccepted }
{}

/// The registers of a step that has no cause of refusal meet what its instruction reports.
pub fn accepted_registers_meet()
    ensures { (i : Inst) (regs : List Reg) (held : List EntryPair) → step_cause i regs held ≡ None
        → Meets (operands i) regs }
{}
