//! What a program writes of its input's cases, and how it ends.

ghost use Rattle.std.specs.Prelude.{◌≡◌, ◌++◌, count_by, if◌then◌else◌, nat_eq, IfOk, OnOk};
ghost use Rattle.s390x_case_runner.specs.Report.{differs, first_lines, verdicts_of};

use crate::judge::{Judge, LineError, Verdict};
use std::alloc::{AllocError, Global};
use std::io;
use std::io::{BufRead, BufReader};
use std::process::ExitCode;

/// How many numbers of lines are printed.
const MOST_LINES: usize = 10;

/// Why the input isn't judged.
#[derive(Clone, Copy)]
enum Failure {
    /// The line of this number can't be read.
    Unreadable(u64),
    /// No memory, or nothing could be printed.
    Other,
}

impl From<AllocError> for Failure {
    fn from(_: AllocError) -> Failure {
        Failure::Other
    }
}

/// Judges the cases of standard input, prints `line K` for each of the first ten that aren't met, by the line at which they begin, and then
/// `N NOUN, D differ`.
///
/// The status is 0 where none differs, 1 where some do, 2 where a line can't be read (`line K can't be read` is printed), and 3 for want of
/// memory or where what is printed isn't taken.
pub fn judge_input(
    rt: &(impl io::Input + io::Print),
    alloc: Global,
    judge: &mut impl Judge,
    noun: &str,
) -> ExitCode {
    let mut verdicts = Vec::new(alloc);
    let judged = judge_lines(rt, alloc, judge, &mut verdicts);
    match judged.and(print_first_lines(rt, alloc, &verdicts)) {
        Ok(()) => print_counts(rt, &verdicts, noun),
        Err(Failure::Unreadable(number)) => {
            let _ = println!(rt; "line {number} can't be read");
            ExitCode::from(2)
        }
        Err(Failure::Other) => ExitCode::from(3),
    }
}

/// How many of the cases aren't as the lines tell.
pub fn count_differing(verdicts: &[Verdict]) -> usize
    ensures { result ≡ count_by differs verdicts.now }
{
    verdicts.iter().filter(|verdict| !verdict.is_met).count()
}

/// The lines at which the first cases begin that aren't as the lines tell, at most `most`.
///
/// An error for want of memory.
pub fn first_differing(
    alloc: Global,
    verdicts: &[Verdict],
    most: usize,
) -> Result<Vec<u64>, AllocError>
    ensures { IfOk result (λ lines. lines.items ≡ first_lines most verdicts.now) }
{
    verdicts
        .iter()
        .filter(|verdict| !verdict.is_met)
        .map(|verdict| verdict.line)
        .take(most)
        .collect(alloc)
}

/// How the program ends where so many cases aren't as the lines tell: with 0 where none differs, and else with 1.
pub fn exit_code(differ: usize) -> ExitCode
    ensures { result ≡ (if nat_eq differ 0 then ExitCode.SUCCESS else ExitCode.FAILURE) }
{
    if differ == 0 {
        ExitCode::SUCCESS
    } else {
        ExitCode::FAILURE
    }
}

// Judges each case as soon as it is read.
fn judge_lines(
    rt: &(impl io::Input + io::Print),
    alloc: Global,
    judge: &mut impl Judge,
    verdicts: &mut Vec<Verdict>,
) -> Result<(), Failure> {
    let lines = BufReader::new(alloc, rt.reader()).map_err(|_| Failure::Other)?;
    let mut number: u64 = 0;
    for line in lines.lines(alloc) {
        number = number.saturating_add(1);
        let line = line.map_err(|_| Failure::Unreadable(number))?;
        let verdict = judge
            .take(alloc, number, &line)
            .map_err(|error| failure_at(error, number))?;
        keep(verdicts, verdict)?;
    }
    let verdict = judge.end(alloc).map_err(|error| failure_at(error, number))?;
    keep(verdicts, verdict)
}

// Puts a case's verdict behind those before it, if there is one.
fn keep(verdicts: &mut Vec<Verdict>, verdict: Option<Verdict>) -> Result<(), Failure>
    ensures { OnOk result (verdicts.new.items ≡ verdicts.old.items ++ verdicts_of verdict) }
{
    if let Some(verdict) = verdict {
        verdicts.push(verdict).map_err(|_| Failure::Other)?;
    }
    Ok(())
}

// What a line that isn't taken makes of the whole.
fn failure_at(error: LineError, number: u64) -> Failure {
    match error {
        LineError::Unreadable => Failure::Unreadable(number),
        LineError::NoMemory => Failure::Other,
    }
}

// Prints the lines of the first cases that differ.
fn print_first_lines(
    rt: &impl io::Print,
    alloc: Global,
    verdicts: &[Verdict],
) -> Result<(), Failure> {
    for line in &first_differing(alloc, verdicts, MOST_LINES)? {
        println!(rt; "line {line}").map_err(|_| Failure::Other)?;
    }
    Ok(())
}

// Prints how many cases there are and how many differ, and answers how the program ends.
fn print_counts(rt: &impl io::Print, verdicts: &[Verdict], noun: &str) -> ExitCode {
    let cases = verdicts.len();
    let differ = count_differing(verdicts);
    match println!(rt; "{cases} {noun}, {differ} differ") {
        Ok(()) => exit_code(differ),
        Err(_) => ExitCode::from(3),
    }
}
