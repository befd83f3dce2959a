//! Schedules that are drawn, and the addends of a simulation.
ghost use Rattle.std.specs.Prelude.{◌≡◌, ◌<◌, IfOk};
ghost use Rattle.s390x_smp.specs.Drawn.{addends_to, drawn_numbers, next_number};

use std::alloc::{AllocError, Global};

/// A schedule of so many steps of processors whose numbers are below `count`, drawn by a linear congruential sequence from `start` on.
///
/// An error comes for want of memory alone.
pub fn drawn_schedule(
    alloc: Global,
    count: u32,
    steps: u32,
    start: u32,
) -> Result<Vec<u32>, AllocError>
    requires { 0 < count }
    ensures { IfOk result (λ schedule. schedule.items ≡ drawn_numbers count steps start) }
{
    let mut schedule = Vec::new(alloc);
    let mut drawn = start;
    for _step in 0..steps {
        drawn = next_number(drawn);
        schedule.push(drawn / 65536 % count)?;
    }
    Ok(schedule)
}

// The next number of the sequence.
fn next_number(drawn: u32) -> u32
    ensures { result ≡ next_number drawn }
{
    let next = (u64::from(drawn) * 1664525 + 1013904223) % 4294967296;
    next as u32
}

/// The numbers from 1 to this one.
pub fn addends_to(alloc: Global, count: u32) -> Result<Vec<u32>, AllocError>
    ensures { IfOk result (λ addends. addends.items ≡ addends_to 0 count) }
{
    let mut addends = Vec::new(alloc);
    for number in 0..count {
        addends.push(number + 1)?;
    }
    Ok(addends)
}
