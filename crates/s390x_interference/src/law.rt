//! The theorem about retry loops, over every layout.
ghost use Rattle.std.specs.Prelude.{◌≡◌, IsTrue, List, ℕ};
ghost use Rattle.s390x_inst.specs.declared.inst.Inst.{Inst};
ghost use Rattle.s390x_machine.specs.Functions.{function_layout};
ghost use Rattle.s390x_operations.specs.State.{CodeImage};
ghost use Rattle.s390x_typed_steps.specs.Folding.{folded_trees};
ghost use Rattle.s390x_typed_steps.specs.Rows.{LinkEnvironment};
ghost use Rattle.s390x_typed_steps.specs.Tree.{Tree};
ghost use Rattle.s390x_machine.specs.StepKinds.{instruction_kind};
ghost use Rattle.s390x_interference.specs.Loops.{RetryAt, is_register_work};
ghost use Rattle.s390x_interference.specs.Retry.{IsRegisterWork, Retry};
ghost use Rattle.s390x_machine.specs.Layout.{Layout};
ghost use Rattle.s390x_schedule.specs.declared.schedule.ScheduleEnd.{ScheduleEnd};
ghost use Rattle.s390x_schedule.specs.Schedule.{World, EndsAs};
ghost use Rattle.s390x_interference.specs.Leaving.{LoopIsLeft};
ghost use Rattle.s390x_interference.specs.Shared.{LoopIsShared};
ghost use Rattle.s390x_interference.specs.Schedules.{Interference, Guarded};

/// Under every schedule of processors that don't store into the image, one run of a retry loop by one of them stores at most once: as its swap, which finds
/// what `rd` holds and puts what `rn` holds behind a typed run of the members before it, from where that round began. It stores exactly once where it
/// ends with a swap that succeeded, and never where it leaves by a break.
pub fn retry_loops()
    ensures { (L : Layout) → Interference L }
{}

/// What `retry_loops` says of every schedule holds of every call of `run_schedule`, by its contract alone.
pub fn scheduled_retry_loops()
    ensures { (w v : World) (ps : List ℕ) (end : ScheduleEnd) → EndsAs w ps end v
        → Guarded w ps end v }
{}

/// Each instruction without an operand in memory that can't stop and goes on to the next one is register work.
pub fn listed_instructions_are_register_work()
    ensures { (L : Layout) (i : Inst) → IsTrue (is_register_work i)
        → IsRegisterWork (instruction_kind L i) }
{}

/// A loop of a function whose members are register work and breaks, and last a compare and swap, and whose mask lacks the bit of code 0, is a retry loop of
/// its typed steps.
pub fn loops_are_retry_loops()
    ensures { (environment : LinkEnvironment) (ts : List Tree) (image : CodeImage) (n : ℕ)
        (r : RetryAt ts n)
        → (R : Retry (function_layout environment ts image)) × (R.opening ≡ n) × (R.mask ≡ r.mask) }
{}

/// The end of a block folds no loop and moves none: where one opens among a function's blocks, the same opens among the blocks as their ends leave them.
pub fn folded_loops_are_retry_loops()
    ensures { (ts : List Tree) (n : ℕ) → RetryAt ts n → RetryAt (folded_trees ts) n }
{}

/// The premises can be met: by the finished code of a function of one retry loop, linked at 4096 and lying in memory there, and two processors that
/// add to one word by it. The first one's swap succeeds and stores once, and the other one's finds that and stores nothing.
pub fn premises_can_be_met()
    ensures { LoopIsShared }
{}

/// So can what is said of a run that leaves by a break: by the finished code of a function whose loop breaks before it swaps, and one processor that does so.
pub fn a_break_can_come()
    ensures { LoopIsLeft }
{}
