//! The line that a syntax error names.

ghost use Rattle.std.specs.Prelude.{◌≡◌, ◌+◌, ◌-◌, ◌<◌, IfOk, IfErr, map, length, codes, false, MatchResult};
ghost use Rattle.std.specs.Str.{bytes_eq};
ghost use Rattle.s390x_job.specs.Builds.{IsAt, IsFullBody, Reads, body_lines, lines_at, place_at};
ghost use Rattle.s390x_job.specs.Grammar.{Within};
ghost use Rattle.s390x_job.specs.Errors.{IsReadJob, IsError};
ghost use Rattle.s390x_job.specs.Jobs.{text_of_job, IsJob};
ghost use Rattle.s390x_job.specs.Same.{SameJob};
ghost use Rattle.s390x_job.specs.declared.job.Job.{Job};
ghost use Rattle.s390x_job.specs.Completions.{ends_job, completion, IsText, text_limit};

use crate::build::{Body, Progress, Stage, add, job_of, make_room, push, start};
use crate::completing::{
    Completes, count_closes, count_opens, first_wrong, put_closing, put_joined,
};
use crate::job::{Job, LineError};
use crate::reader::read_item;
use crate::split::before;
use s390x_job_exact::exact_line;
use s390x_job_fields::number::tail;
use std::alloc::{AllocError, Global};

/// What a reader found: a job, or a number of lines where the text is no job's: no more of them can be completed to one.
#[derive(Drop)]
pub enum ParseOutcome {
    Whole(Job),
    Stuck(usize),
}

fn is_end(w: &[u8]) -> bool
    ensures { result ≡ bytes_eq w.now (codes "end") }
{
    w == b"end".as_slice()
}

fn last_is_end(ws: &[&[u8]]) -> bool
    ensures { result ≡ ends_job false (map (λ w. w.now) ws.now) }
{
    let mut b = false;
    for w in ws {
        b = is_end(w);
    }
    b
}

/// The text of a job.
struct JobText;

impl Completes for JobText {
    ghost limit = { text_limit };

    ghost completed = { completion };

    ghost IsWhole = { IsText };

    fn complete(alloc: Global, ws: &[&[u8]]) -> Result<Vec<u8>, AllocError> {
        let mut out = Vec::new(alloc);
        put_joined(&mut out, ws)?;
        if last_is_end(ws) {
            return Ok(out);
        }
        let n = count_opens(ws).saturating_sub(count_closes(ws));
        put_closing(&mut out, n)?;
        Ok(out)
    }

    fn is_whole(alloc: Global, bytes: &[u8]) -> Result<bool, AllocError> {
        match find_job(alloc, bytes)? {
            ParseOutcome::Whole(_) => Ok(true),
            ParseOutcome::Stuck(_) => Ok(false),
        }
    }
}

/// Reads one more line, of whatever kind: what is read is printed, and compared with it. Answers as `read_line` does.
fn read_part(
    alloc: Global,
    b: &mut Body,
    text: &mut String,
    progress: Progress,
    w: &[u8],
) -> Result<Option<Progress>, AllocError>
    requires { IsAt progress b.old }
    ensures { IfOk result (Reads b.new (lines_at progress b.old) (place_at progress b.old) w.now) }
{
    match read_item(alloc, text, w)? {
        None => Ok(None),
        Some(i) => push(alloc, b, progress, i),
    }
}

/// Reads one more line within a block, which is often an instruction's. Answers as `read_line` does.
///
/// Room is made before the line is read, so that the instruction is moved once.
#[tactic(auto, using(crate::proofs::Told::single))]
#[inline(always)]
fn read_instruction(
    alloc: Global,
    b: &mut Body,
    text: &mut String,
    w: &[u8],
) -> Result<Option<Progress>, AllocError>
    requires { IsFullBody b.old }
    ensures { IfOk result
        (Reads b.new (body_lines b.old) (Within (length b.old.loops.items)) w.now) }
{
    make_room(&mut b.here)?;
    match exact_line(alloc, w) {
        Some(x) => {
            add(b, x);
            Ok(Some(Progress::Inside))
        }
        None => read_part(alloc, b, text, Progress::Inside, w),
    }
}

/// Reads one more line within a block. Answers as `read_line` does.
/// No instruction has a name that begins with `b`, as the line `block` does.
#[inline(always)]
fn read_inside(
    alloc: Global,
    b: &mut Body,
    text: &mut String,
    w: &[u8],
) -> Result<Option<Progress>, AllocError>
    requires { IsFullBody b.old }
    ensures { IfOk result
        (Reads b.new (body_lines b.old) (Within (length b.old.loops.items)) w.now) }
{
    match w {
        [b'b', ..] => read_part(alloc, b, text, Progress::Inside, w),
        _ => read_instruction(alloc, b, text, w),
    }
}

/// Reads one more line. Answers where the lines have come to, or none where no line of this text may stand there.
#[inline(always)]
fn read_line(
    alloc: Global,
    b: &mut Body,
    text: &mut String,
    progress: Progress,
    w: &[u8],
) -> Result<Option<Progress>, AllocError>
    requires { IsAt progress b.old }
    ensures { IfOk result (Reads b.new (lines_at progress b.old) (place_at progress b.old) w.now) }
{
    match progress {
        Progress::Inside => read_inside(alloc, b, text, w),
        _ => read_part(alloc, b, text, progress, w),
    }
}

/// The job whose text this is. Where there is none, a number of its lines: no more of them can be completed to a job's text.
pub fn find_job(alloc: Global, bytes: &[u8]) -> Result<ParseOutcome, AllocError>
    ensures { IfOk result (IsReadJob bytes.now) }
{
    let mut body = start(alloc);
    let mut progress = Progress::Head(Stage::Flags, 0);
    let mut text = String::new(alloc);
    let mut rest = bytes;
    let mut n: usize = 0;
    while !rest.is_empty() {
        let line = before(rest, b'\n');
        if line.len() == rest.len() {
            return Ok(ParseOutcome::Stuck(n));
        }
        match read_line(alloc, &mut body, &mut text, progress, line)? {
            None => return Ok(ParseOutcome::Stuck(n)),
            Some(p) => progress = p,
        }
        rest = tail(rest, line.len() + 1);
        n += 1;
    }
    match progress {
        Progress::Done => Ok(ParseOutcome::Whole(job_of(body))),
        _ => Ok(ParseOutcome::Stuck(n)),
    }
}

fn read_inner(alloc: Global, bytes: &[u8]) -> Result<Result<Job, LineError>, AllocError>
    requires { length bytes.now < text_limit }
    ensures { IfOk result
        (λ r. MatchResult r (λ j. IsJob j × (text_of_job j ≡ bytes.now)) (IsError bytes.now)) }
{
    match find_job(alloc, bytes)? {
        ParseOutcome::Whole(j) => Ok(Ok(j)),
        ParseOutcome::Stuck(k) => {
            let line = first_wrong::<JobText>(alloc, bytes, k)?;
            Ok(Err(LineError::Syntax { line }))
        }
    }
}

fn read_all(alloc: Global, bytes: &[u8]) -> Result<Job, LineError>
    requires { length bytes.now < text_limit }
    ensures job { IfOk result (λ j. IsJob j × (text_of_job j ≡ bytes.now)) }
    ensures error { IfErr result (IsError bytes.now) }
{
    match read_inner(alloc, bytes) {
        Ok(r) => r,
        Err(_) => Err(LineError::NoMemory),
    }
}

/// The job whose text this is.
///
/// `Syntax` comes exactly where the bytes are the text of no job. Its line is 1 plus the greatest k that is 0 or
/// for which the first k lines can be completed to the text of a job: as they are where the last of them is `end`,
/// otherwise by as many lines `endloop` as lines begin with `Loop ` beyond those that are `endloop`, and a line
/// `end`. `NoMemory` comes for want of memory alone.
pub fn read_lines(alloc: Global, bytes: &[u8]) -> Result<Job, LineError>
    requires { length bytes.now < text_limit }
    ensures job { IfOk result (λ j. IsJob j × (text_of_job j ≡ bytes.now)) }
    ensures error { IfErr result (IsError bytes.now) }
    ensures one { (j : Job) → IsJob j → text_of_job j ≡ bytes.now → IfOk result (λ r. SameJob r j) }
{
    read_all(alloc, bytes)
}
