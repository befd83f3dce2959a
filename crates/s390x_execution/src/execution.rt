//! Steps of the machine, one after another.
ghost use Rattle.s390x_machine.specs.State.{state_of};
ghost use Rattle.s390x_execution.specs.Execution.{IsExecution, IsStepped};

use s390x_machine::{Machine, Memory, StepEnd};
use s390x_operations::StopKind;

/// How an execution ends.
#[derive(Clone, Copy)]
pub enum End {
    /// As many steps went as were asked for.
    Limit,
    /// The instruction at this place stops.
    Stopped { kind: StopKind, place: u64 },
    /// The instruction at this place has a row whose result is free, or isn't computed.
    NoRow { place: u64 },
}

/// How many steps went, and how the execution ended behind them.
#[derive(Clone, Copy)]
pub struct Execution {
    pub went: u32,
    pub end: End,
}

/// Steps a machine until so many steps went, or one doesn't go (Principles of Operation, chapter 5, "Program execution").
///
/// `Limit` comes exactly where all the steps went. Before that `Stopped` comes where the next step is a stop, with its kind and
/// the place of the instruction, and `NoRow` where the next instruction is at a row that `Machine::step` doesn't compute.
/// Machine and memory are then as the steps that went left them.
pub fn execute<M: Memory>(machine: &mut Machine, memory: &mut M, steps: u32) -> Execution
    ensures { IsExecution steps (state_of machine.old (M.held memory.old) (M.byte memory.old))
        (state_of machine.new (M.held memory.new) (M.byte memory.new)) result }
{
    for went in 0..steps {
        match step_end(machine, memory) {
            None => {}
            Some(end) => return Execution { went, end },
        }
    }
    Execution {
        went: steps,
        end: End::Limit,
    }
}

// Takes one step, and tells how the execution ends where it doesn't go.
fn step_end<M: Memory>(machine: &mut Machine, memory: &mut M) -> Option<End>
    ensures { IsStepped (state_of machine.old (M.held memory.old) (M.byte memory.old))
        (state_of machine.new (M.held memory.new) (M.byte memory.new)) result }
{
    match machine.step(memory) {
        StepEnd::Went => None,
        StepEnd::Stopped(kind, place) => Some(End::Stopped { kind, place }),
        StepEnd::NoRow => Some(End::NoRow {
            place: machine.place,
        }),
    }
}
