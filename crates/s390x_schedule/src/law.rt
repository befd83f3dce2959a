//! What schedules are to the machine's definitions.
ghost use Rattle.std.specs.Prelude.{◌≡◌, ℕ, List, []};
ghost use Rattle.s390x_operations.specs.State.{CodeImage};
ghost use Rattle.s390x_machine.specs.Machine.{Run};
ghost use Rattle.s390x_schedule.specs.declared.schedule.ScheduleEnd.{ScheduleEnd};
ghost use Rattle.s390x_schedule.specs.Schedule.{World, EndsAs, OthersLeaveImage, Scheduled, Taken, Tick, steps_taken, transitions_of, view};

/// What `run_schedule` answers is a schedule of machine steps: one of each number in turn, and one that stops is the last. The step of `NoRow` isn't one
/// of them.
pub fn ends_are_schedules()
    ensures { (w v : World) (ps : List ℕ) (end : ScheduleEnd) → EndsAs w ps end v
        → Taken w (steps_taken ps end) v }
{}

/// To one processor a schedule is a run of the machine under others' writes, which are what the other processors store between its steps, where
/// none of the others stores into the image. So what is proved of every run holds under every schedule.
pub fn others_store_as_writes()
    ensures { (image : CodeImage) (p : ℕ) (w : World) (ps : List ℕ) (ticks : List Tick)
        → Scheduled w ps ticks → OthersLeaveImage image p ticks
        → Run image (view w p) (transitions_of p [] ticks) }
{}
