//! Reads the job on standard input, emits its function as often as its first word says, and decodes an instruction as often as its second one says,
//! the number of whose first six bytes is the third one. It prints how many bytes came of it in all, and what the decoded fields sum up to.
//! `bench/emission.sh` tells by it what emission takes apart from reading, and `bench/steps.sh` what `decode` takes.
#![tactic(auto)]

mod decoding;

use crate::decoding::decode_turns;
use s390x_emit_int::emit_function;
use s390x_job::{Job, read_lines};
use std::alloc::Global;
use std::env;
use std::io::{self, Read};
use std::process::ExitCode;

/// Why nothing is printed.
#[derive(Clone, Copy, PartialEq, Eq, Debug)]
enum Failure {
    /// A word isn't a number, or there is none.
    Usage,
    /// The input isn't there, or isn't the text of a job.
    Input,
    /// The function is refused, or there is no memory.
    Emission,
}

/// What the words ask for.
#[derive(Clone, Copy)]
struct Turns {
    emissions: u64,
    decodings: u64,
    /// The number of the bytes that are decoded.
    decoded: u64,
}

fn main(rt: HostRuntime) -> ExitCode {
    match counts(&rt, rt.alloc(), rt.stdin()) {
        Ok((bytes, sum)) => match println!(rt; "bytes {bytes} sum {sum}") {
            Ok(()) => ExitCode::SUCCESS,
            Err(_) => ExitCode::FAILURE,
        },
        Err(_) => ExitCode::FAILURE,
    }
}

// How many bytes the emissions give in all, and what the decoded fields sum up to.
fn counts<R: Read + Drop>(
    rt: &(impl env::Env + AllocGlobal),
    alloc: Global,
    source: R,
) -> Result<(u64, u64), Failure> {
    let turns = read_turns(rt)?;
    let job = read_job(alloc, source)?;
    let mut bytes: u64 = 0;
    for _ in 0..turns.emissions {
        bytes = bytes.saturating_add(emit(alloc, &job)?);
    }
    Ok((bytes, decode_turns(turns.decodings, turns.decoded)))
}

// What the words ask for: no decoding where there is but one.
fn read_turns(rt: &(impl env::Env + AllocGlobal)) -> Result<Turns, Failure> {
    let mut args = env::args(rt).map_err(|_: io::Error| Failure::Usage)?;
    args.next();
    let emissions = match args.next() {
        Some(word) => number(word.as_str())?,
        None => return Err(Failure::Usage),
    };
    let decodings = match args.next() {
        Some(word) => number(word.as_str())?,
        None => 0,
    };
    let decoded = match args.next() {
        Some(word) => number(word.as_str())?,
        None => 0,
    };
    Ok(Turns {
        emissions,
        decodings,
        decoded,
    })
}

// The number that a word writes.
fn number(word: &str) -> Result<u64, Failure> {
    word.parse().map_err(|_| Failure::Usage)
}

fn read_job<R: Read + Drop>(alloc: Global, mut source: R) -> Result<Job, Failure> {
    let mut input = Vec::new(alloc);
    source
        .read_to_end(&mut input)
        .map_err(|_: io::Error| Failure::Input)?;
    if input.len() as u64 >= 4294967295 {
        return Err(Failure::Input);
    }
    read_lines(alloc, &input).map_err(|_| Failure::Input)
}

// How many bytes the job's function has, with its constants.
fn emit(alloc: Global, job: &Job) -> Result<u64, Failure> {
    match emit_function(alloc, &job.function, &job.info, job.state) {
        Ok(code) => Ok(code.bytes.len() as u64),
        Err(_) => Err(Failure::Emission),
    }
}
