//! The lines of a text, and what completes them: shared by the readers of texts that hold jobs.
ghost use Rattle.std.specs.Prelude.{◌≡◌, ℕ, ◌<◌, ◌≤◌, ◌++◌, List, IfOk, OnOk, IsTrue, ◌↔◌, length, map, take, codes};
ghost use Rattle.std.specs.Str.{bytes_eq};
ghost use Rattle.s390x_job.specs.Completions.{IsFirstWrongLine, IsStuck, pieces, text_of_lines, opens, closes, closing, text_limit};

use crate::split::before;
use s390x_job_fields::number::tail;
use std::alloc::{AllocError, Global};

/// Appends bytes.
pub fn put(out: &mut Vec<u8>, s: &[u8]) -> Result<(), AllocError>
    ensures { OnOk result (out.new.items ≡ out.old.items ++ s.now) }
{
    out.extend_from_slice(s)
}

/// The lines of a text.
pub fn split_lines<'a>(alloc: Global, bytes: &'a [u8]) -> Result<Vec<&'a [u8]>, AllocError>
    ensures { IfOk result (λ v. map (λ w. w.now) v.items ≡ pieces bytes.now) }
{
    let mut v = Vec::new(alloc);
    let mut rest = bytes;
    while !rest.is_empty() {
        let line = before(rest, b'\n');
        if line.len() == rest.len() {
            return Ok(v);
        }
        v.push(line)?;
        rest = tail(rest, line.len() + 1);
    }
    Ok(v)
}

/// Whether the line opens a loop.
fn opens_loop(w: &[u8]) -> bool
    ensures { result ≡ bytes_eq (take 5 w.now) (codes "Loop ") }
{
    let front = if w.len() < 5 { w } else { &w[..5] };
    front == b"Loop ".as_slice()
}

/// Whether the line closes a loop.
fn closes_loop(w: &[u8]) -> bool
    ensures { result ≡ bytes_eq w.now (codes "endloop") }
{
    w == b"endloop".as_slice()
}

/// How many lines open a loop.
pub fn count_opens(ws: &[&[u8]]) -> usize
    ensures { result ≡ opens (map (λ w. w.now) ws.now) }
{
    let mut n: usize = 0;
    for w in ws {
        if opens_loop(w) {
            n += 1;
        }
    }
    n
}

/// How many lines close one.
pub fn count_closes(ws: &[&[u8]]) -> usize
    ensures { result ≡ closes (map (λ w. w.now) ws.now) }
{
    let mut n: usize = 0;
    for w in ws {
        if closes_loop(w) {
            n += 1;
        }
    }
    n
}

/// Appends lines, each with its line feed.
pub fn put_joined(out: &mut Vec<u8>, ws: &[&[u8]]) -> Result<(), AllocError>
    ensures { OnOk result
        (out.new.items ≡ out.old.items ++ text_of_lines (map (λ w. w.now) ws.now)) }
{
    for w in ws {
        put(out, w)?;
        put(out, b"\n")?;
    }
    Ok(())
}

/// Appends so many lines `endloop`, and a line `end`.
pub fn put_closing(out: &mut Vec<u8>, n: usize) -> Result<(), AllocError>
    ensures { OnOk result (out.new.items ≡ out.old.items ++ closing n) }
{
    let mut k = n;
    while k > 0 {
        put(out, b"endloop\n")?;
        k -= 1;
    }
    put(out, b"end\n")
}

/// A kind of text to which lines can be completed.
pub trait Completes {
    // The lines' text has fewer bytes.
    ghost limit: { ℕ };

    // The text of lines, completed.
    ghost completed: { List (List ℕ) → List ℕ };

    // The bytes are such a text.
    ghost IsWhole: { List ℕ → Type 0 };

    /// The text of lines, completed.
    fn complete(alloc: Global, ws: &[&[u8]]) -> Result<Vec<u8>, AllocError>
        ensures { IfOk result (λ v. v.items ≡ completed (map (λ w. w.now) ws.now)) };

    /// Whether the bytes, which are lines completed, are such a text.
    fn is_whole(alloc: Global, bytes: &[u8]) -> Result<bool, AllocError>
        requires { (vs : List (List ℕ)) × (length (text_of_lines vs) < limit)
            × (bytes.now ≡ completed vs) }
        ensures { IfOk result (λ b. IsTrue b ↔ IsWhole bytes.now) };
}

/// Whether the lines can be completed to a text.
fn can_be_completed<T: Completes>(alloc: Global, ws: &[&[u8]]) -> Result<bool, AllocError>
    requires { length (text_of_lines (map (λ w. w.now) ws.now)) < T.limit }
    ensures { IfOk result (λ b. IsTrue b ↔ T.IsWhole (T.completed (map (λ w. w.now) ws.now))) }
{
    let text = T::complete(alloc, ws)?;
    let is_whole = T::is_whole(alloc, &text)?;
    Ok(is_whole)
}

/// The number of the first wrong line, where no more than `top` lines can be completed.
fn first_wrong_of_lines<T: Completes>(
    alloc: Global,
    ws: &[&[u8]],
    top: usize,
) -> Result<usize, AllocError>
    requires small { top ≤ length ws.now }
    requires short { length (text_of_lines (map (λ w. w.now) ws.now)) < T.limit }
    requires above { (m : ℕ) → top < m → m ≤ length ws.now
        → T.IsWhole (T.completed (take m (map (λ w. w.now) ws.now))) → ⊥ }
    ensures { IfOk result
        (λ n. IsFirstWrongLine (λ vs. T.IsWhole (T.completed vs)) (map (λ w. w.now) ws.now) n) }
{
    let mut k = top;
    while k > 0 {
        if can_be_completed::<T>(alloc, &ws[..k])? {
            return Ok(k + 1);
        }
        k -= 1;
    }
    Ok(1)
}

/// The number of the first wrong line of these bytes, where no more than `top` of their lines can be completed.
pub fn first_wrong<T: Completes>(alloc: Global, bytes: &[u8], top: usize) -> Result<u32, AllocError>
    requires fits { length bytes.now < text_limit }
    requires short { length bytes.now < T.limit }
    requires stuck { IsStuck T.IsWhole T.completed bytes.now top }
    ensures { IfOk result
        (λ n. IsFirstWrongLine (λ vs. T.IsWhole (T.completed vs)) (pieces bytes.now) n) }
{
    let ws = split_lines(alloc, bytes)?;
    let n = first_wrong_of_lines::<T>(alloc, &ws, top)?;
    Ok(n as u32)
}
