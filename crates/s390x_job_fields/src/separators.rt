//! Words between marks.
ghost use Rattle.std.specs.Prelude.{◌≡◌};
ghost use Rattle.s390x_job_fields.specs.Marks.{is_mark, before_mark, from_mark, word, after_word, upto, past};

use crate::number::tail;

/// Whether each byte stands between words.
#[rattlefmt::skip]
const MARKS: [bool; 256] = [
    false, false, false, false, false, false, false, false, false, false, true, false, false, false, false, false,
    false, false, false, false, false, false, false, false, false, false, false, false, false, false, false, false,
    true, true, false, false, false, false, false, false, true, true, false, false, true, false, false, true,
    false, false, false, false, false, false, false, false, false, false, true, false, false, true, false, false,
    true, false, false, false, false, false, false, false, false, false, false, false, false, false, false, false,
    false, false, false, false, false, false, false, false, false, false, false, true, false, true, false, false,
    false, false, false, false, false, false, false, false, false, false, false, false, false, false, false, false,
    false, false, false, false, false, false, false, false, false, false, false, false, false, false, false, false,
    false, false, false, false, false, false, false, false, false, false, false, false, false, false, false, false,
    false, false, false, false, false, false, false, false, false, false, false, false, false, false, false, false,
    false, false, false, false, false, false, false, false, false, false, false, false, false, false, false, false,
    false, false, false, false, false, false, false, false, false, false, false, false, false, false, false, false,
    false, false, false, false, false, false, false, false, false, false, false, false, false, false, false, false,
    false, false, false, false, false, false, false, false, false, false, false, false, false, false, false, false,
    false, false, false, false, false, false, false, false, false, false, false, false, false, false, false, false,
    false, false, false, false, false, false, false, false, false, false, false, false, false, false, false, false,
];

#[inline(always)]
fn marks(x: u8) -> bool
    ensures { result ≡ is_mark x }
{
    let table: &[bool] = &MARKS;
    table[usize::from(x)]
}

/// The bytes before the first mark.
#[inline(always)]
pub fn until_separator(s: &[u8]) -> &[u8]
    ensures { result.now ≡ before_mark s.now }
{
    for (i, x) in s.iter().enumerate() {
        if marks(*x) {
            return &s[..i];
        }
    }
    s
}

/// The bytes from the first mark on.
pub fn from_separator(s: &[u8]) -> &[u8]
    ensures { result.now ≡ from_mark s.now }
{
    for (i, x) in s.iter().enumerate() {
        if marks(*x) {
            return &s[i..];
        }
    }
    &s[s.len()..]
}

/// The word after one mark.
#[inline(always)]
pub fn word(s: &[u8]) -> &[u8]
    ensures { result.now ≡ word s.now }
{
    until_separator(tail(s, 1))
}

/// What follows the word after one mark, where that word is known.
#[inline(always)]
pub fn rest_behind<'a>(s: &'a [u8], found: &[u8]) -> &'a [u8]
    requires { found.now ≡ word s.now }
    ensures { result.now ≡ after_word s.now }
{
    tail(tail(s, 1), found.len())
}

/// What follows the word after one mark.
pub fn after_word(s: &[u8]) -> &[u8]
    ensures { result.now ≡ after_word s.now }
{
    from_separator(tail(s, 1))
}

/// The bytes before the first `c`.
pub fn before(s: &[u8], c: u8) -> &[u8]
    ensures { result.now ≡ upto c s.now }
{
    for (i, x) in s.iter().enumerate() {
        if *x == c {
            return &s[..i];
        }
    }
    s
}

/// The bytes after the first `c`.
pub fn after(s: &[u8], c: u8) -> &[u8]
    ensures { result.now ≡ past c s.now }
{
    for (i, x) in s.iter().enumerate() {
        if *x == c {
            return &s[i + 1..];
        }
    }
    &s[s.len()..]
}
