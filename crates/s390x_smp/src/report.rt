//! The text of a simulation.
ghost use Rattle.std.specs.Prelude.{◌≡◌, ◌++◌, ◌<◌, ◌⊎◌, Some, None, IfOk, MatchResult, OnOk, string_bytes};
ghost use Rattle.s390x_smp.specs.Image.{start_cause};
ghost use Rattle.s390x_smp.specs.Report.{IsSimulated, count_line, count_lines, word_line};

use crate::drawn::{addends_to, drawn_schedule};
use crate::{Smp, SmpError};
use std::alloc::{AllocError, Global};

/// `word V` for the word, and `cpu I stores S` for the completed stores of each processor, after so many steps by a schedule that is drawn from
/// `start` on. There are `count` processors, and processor I adds I + 1.
///
/// Refused as `Smp::new` refuses the base and the word's address; else an error comes for want of memory alone.
pub fn simulation_text(
    alloc: Global,
    base: u64,
    word: u64,
    count: u32,
    steps: u32,
    start: u32,
) -> Result<String, SmpError>
    requires { 0 < count }
    ensures text { IfOk result
        (λ text. IsSimulated base word count steps start (string_bytes text)) }
    ensures cause { MatchResult result (λ _. start_cause base word ≡ None)
        (λ e. (e ≡ SmpError.NoMemory) ⊎ (start_cause base word ≡ Some e)) }
{
    let Ok(addends) = addends_to(alloc, count) else {
        return Err(SmpError::NoMemory);
    };
    let Ok(schedule) = drawn_schedule(alloc, count, steps, start) else {
        return Err(SmpError::NoMemory);
    };
    let mut smp = match Smp::new(alloc, base, word, &addends) {
        Ok(smp) => smp,
        Err(error) => return Err(error),
    };
    smp.run(&schedule);
    match summary(alloc, smp.word(), smp.stores()) {
        Ok(text) => Ok(text),
        Err(_) => Err(SmpError::NoMemory),
    }
}

// The line of the word, and those of the counts.
fn summary(alloc: Global, word: u32, stores: &[u64]) -> Result<String, AllocError>
    ensures { IfOk result (λ text. string_bytes text ≡ word_line word ++ count_lines 0 stores.now) }
{
    let mut out = String::new(alloc);
    writeln!(out, "word {word}")?;
    put_counts(&mut out, stores)?;
    Ok(out)
}

// A line for each count.
fn put_counts(out: &mut String, stores: &[u64]) -> Result<(), AllocError>
    ensures { OnOk result
        (string_bytes out.new ≡ string_bytes out.old ++ count_lines 0 stores.now) }
{
    for number in 0..stores.len() {
        put_count(out, number, stores[number])?;
    }
    Ok(())
}

// The line of a processor's count.
fn put_count(out: &mut String, number: usize, count: u64) -> Result<(), AllocError>
    ensures { OnOk result (string_bytes out.new ≡ string_bytes out.old ++ count_line number count) }
{
    writeln!(out, "cpu {number} stores {count}")
}
