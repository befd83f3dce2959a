//! A step whose end is known.

use crate::contents::Contents;
use s390x_base::NoMemory;
use s390x_machine::StepEnd;
use std::alloc::Global;

/// A step of the machine, how it ends, and what registers and memory hold before and after it.
#[derive(Drop)]
pub struct KnownStep {
    pub before: Contents,
    pub end: StepEnd,
    pub after: Contents,
}

/// Whether the step ends as it is told.
pub fn ends_as_told(alloc: Global, known: &KnownStep) -> Result<bool, NoMemory> {
    let mut machine = known.before.machine();
    let mut memory = known.before.memory(alloc)?;
    let after = known.after.memory(alloc)?;
    let is_end = machine.step(&mut memory) == known.end;
    Ok(is_end && known.after.are_registers_of(&machine) && known.after.agree(&memory, &after))
}
