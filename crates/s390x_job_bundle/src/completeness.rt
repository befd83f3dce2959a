//! Lines of a text, completed to the text of functions.
ghost use Rattle.std.specs.Prelude.{◌≡◌, ◌++◌, IfOk, OnOk, map, take, codes};
ghost use Rattle.std.specs.Str.{bytes_eq};
ghost use Rattle.s390x_job_bundle.specs.Completions.{bundle_completion, ends, has_line, heads, job_ending, line_ending};

use s390x_job::{count_closes, count_opens, put, put_closing, put_joined};
use std::alloc::{AllocError, Global};

fn front_of(w: &[u8], count: usize) -> &[u8]
    ensures { result.now ≡ take count w.now }
{
    if w.len() < count { w } else { &w[..count] }
}

fn begins_function(w: &[u8]) -> bool
    ensures { result ≡ bytes_eq (take 9 w.now) (codes "function ") }
{
    front_of(w, 9) == b"function ".as_slice()
}

/// Whether the line is `end`.
pub fn ends_job(w: &[u8]) -> bool
    ensures { result ≡ bytes_eq w.now (codes "end") }
{
    w == b"end".as_slice()
}

/// Whether the line is `close`.
pub fn closes_text(w: &[u8]) -> bool
    ensures { result ≡ bytes_eq w.now (codes "close") }
{
    w == b"close".as_slice()
}

fn count_heads(ws: &[&[u8]]) -> usize
    ensures { result ≡ heads (map (λ w. w.now) ws.now) }
{
    let mut n: usize = 0;
    for w in ws {
        if begins_function(w) {
            n += 1;
        }
    }
    n
}

fn count_ends(ws: &[&[u8]]) -> usize
    ensures { result ≡ ends (map (λ w. w.now) ws.now) }
{
    let mut n: usize = 0;
    for w in ws {
        if ends_job(w) {
            n += 1;
        }
    }
    n
}

/// Whether one of the lines is this one.
pub fn has_line(line: &[u8], ws: &[&[u8]]) -> bool
    ensures { result ≡ has_line line.now (map (λ w. w.now) ws.now) }
{
    for w in ws {
        if *w == line {
            return true;
        }
    }
    false
}

// What the last job lacks, where more lines begin with `function ` than are `end`.
fn put_job_ending(out: &mut Vec<u8>, ws: &[&[u8]]) -> Result<(), AllocError>
    ensures { OnOk result (out.new.items ≡ out.old.items ++ job_ending (map (λ w. w.now) ws.now)) }
{
    if count_ends(ws) < count_heads(ws) {
        return put_closing(out, count_opens(ws).saturating_sub(count_closes(ws)));
    }
    Ok(())
}

/// Appends this line with a line feed, where none of the lines is one. An error comes only when out of memory.
pub fn put_line_ending(out: &mut Vec<u8>, line: &[u8], ws: &[&[u8]]) -> Result<(), AllocError>
    ensures { OnOk result
        (out.new.items ≡ out.old.items ++ line_ending line.now (map (λ w. w.now) ws.now)) }
{
    if has_line(line, ws) {
        return Ok(());
    }
    put(out, line)?;
    put(out, b"\n")
}

/// The text of lines, completed.
pub fn complete(alloc: Global, ws: &[&[u8]]) -> Result<Vec<u8>, AllocError>
    ensures { IfOk result (λ v. v.items ≡ bundle_completion (map (λ w. w.now) ws.now)) }
{
    let mut out = Vec::new(alloc);
    put_joined(&mut out, ws)?;
    put_job_ending(&mut out, ws)?;
    put_line_ending(&mut out, b"close", ws)?;
    Ok(out)
}
