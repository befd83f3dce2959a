//! A place in a line, and the words from there on.
ghost use Rattle.std.specs.Prelude.{◌≡◌, drop};
ghost use Rattle.s390x_job_fields.specs.Marks.{word, after_word};

use crate::number::tail;
use crate::separators::until_separator;
use std::marker::Model;

/// A place in a line. Contracts see it as the bytes that are left.
#[derive(Drop)]
pub struct Cursor<'a> {
    left: &'a [u8],
}

impl<'a> Model for Cursor<'a> {
    ghost use Rattle.std.specs.Prelude.{ℕ, List};

    ghost Value = { List ℕ };

    ghost view = { λ c. c.left.now };
}

impl<'a> Cursor<'a> {
    /// The place before these bytes.
    pub fn new(left: &'a [u8]) -> Cursor<'a>
        ensures { result ≡ left.now }
    {
        Cursor { left }
    }

    /// What is left.
    pub fn rest(&self) -> &'a [u8]
        ensures { result.now ≡ self.now }
    {
        self.left
    }

    /// Goes on by so many bytes.
    pub fn skip(&mut self, n: usize)
        ensures { self.new ≡ drop n self.old }
    {
        self.left = tail(self.left, n);
    }

    /// The word after one mark.
    #[inline(always)]
    pub fn word(&mut self) -> &'a [u8]
        ensures value { result.now ≡ word self.old }
        ensures after { self.new ≡ after_word self.old }
    {
        let from = tail(self.left, 1);
        let found = until_separator(from);
        self.left = tail(from, found.len());
        found
    }
}
