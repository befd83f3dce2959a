//! Steps of several machines by a schedule.
ghost use Rattle.std.specs.Prelude.{◌≡◌, ◌<◌, length};
ghost use Rattle.s390x_machine.specs.State.{memory_of};
ghost use Rattle.s390x_machine.specs.Step.{Steps};
ghost use Rattle.s390x_schedule.specs.Schedule.{EndsAs, NameMachines, after_step, view, world_of};

use s390x_machine::{Machine, Memory, StepEnd};
use s390x_operations::StopKind;

/// How the steps of a schedule end.
#[derive(Clone, Copy, PartialEq, Eq, Debug)]
pub enum ScheduleEnd {
    /// Each step went.
    Done,
    /// The step at this position of the schedule, counted from 0, stopped at its instruction's place; those before it went.
    Stopped {
        at: usize,
        kind: StopKind,
        place: u64,
    },
    /// The row of the step at this position leaves its result free, or isn't computed; those before it went.
    NoRow {
        at: usize,
    },
}

/// One step of the machine of a number.
fn step_one<M: Memory>(machines: &mut [Machine], memory: &mut M, number: usize) -> StepEnd
    requires { number < length machines.old }
    ensures count { length machines.new ≡ length machines.old }
    ensures steps { Steps
        (view (world_of machines.old (memory_of (M.held memory.old) (M.byte memory.old))) number)
        result
        (view (world_of machines.new (memory_of (M.held memory.new) (M.byte memory.new))) number) }
    ensures world { world_of machines.new (memory_of (M.held memory.new) (M.byte memory.new))
        ≡ after_step (world_of machines.old (memory_of (M.held memory.old) (M.byte memory.old)))
        number
        (view (world_of machines.new (memory_of (M.held memory.new) (M.byte memory.new)))
        number) }
{
    machines[number].step(memory)
}

/// The machines that the schedule names take one step each in turn, over one memory, and the first step that doesn't go ends it
/// (Principles of Operation, chapter 5, "Sequence of Storage References": each step is one access to the data).
///
/// `Stopped` and `NoRow` come exactly where the step at that position answers so, and leave the machines and the memory as they stand before it.
/// Each number of the schedule has to be that of a machine.
pub fn run_schedule<M: Memory>(
    machines: &mut [Machine],
    memory: &mut M,
    schedule: &[u32],
) -> ScheduleEnd
    requires { NameMachines (length machines.old) schedule.now }
    ensures count { length machines.new ≡ length machines.old }
    ensures end { EndsAs (world_of machines.old (memory_of (M.held memory.old) (M.byte memory.old)))
        schedule.now result
        (world_of machines.new (memory_of (M.held memory.new) (M.byte memory.new))) }
{
    for at in 0..schedule.len() {
        match step_one(machines, memory, schedule[at] as usize) {
            StepEnd::Went => {}
            StepEnd::Stopped(kind, place) => return ScheduleEnd::Stopped { at, kind, place },
            StepEnd::NoRow => return ScheduleEnd::NoRow { at },
        }
    }
    ScheduleEnd::Done
}
