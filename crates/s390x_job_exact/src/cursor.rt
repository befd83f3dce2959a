//! A cursor in a line, whose fields are taken only as they are printed.
ghost use Rattle.std.specs.Prelude.{◌≡◌, ◌++◌, ◌∷◌, [], ◌<◌, ◌^◌, IfSome};
ghost use Rattle.std.specs.Fmt.{decimal, signed_decimal};
ghost use Rattle.s390x_job_fields.specs.Numbers.{IsBelow};

use crate::literal::behind_text;
use crate::number::natural;
use std::marker::Model;

/// A cursor in a line that takes a field only as it is printed. Contracts see it as the bytes that are left.
#[derive(Drop)]
pub struct ExactCursor<'a> {
    left: &'a [u8],
}

impl<'a> Model for ExactCursor<'a> {
    ghost use Rattle.std.specs.Prelude.{ℕ, List};

    ghost Value = { List ℕ };

    ghost view = { λ c. c.left.now };
}

impl<'a> ExactCursor<'a> {
    /// The cursor before these bytes.
    pub fn new(left: &'a [u8]) -> ExactCursor<'a>
        ensures { result ≡ left.now }
    {
        ExactCursor { left }
    }

    /// That nothing is left.
    #[inline(always)]
    pub fn end(&self) -> Option<()>
        ensures { IfSome result (λ _. self.now ≡ []) }
    {
        match self.left {
            [] => Some(()),
            _ => None,
        }
    }

    /// What is left.
    pub fn rest(&self) -> &'a [u8]
        ensures { result.now ≡ self.now }
    {
        self.left
    }

    /// Takes one byte.
    #[inline(always)]
    pub fn next_byte(&mut self) -> Option<u8>
        ensures { IfSome result (λ x. self.old ≡ x ∷ self.new) }
    {
        match self.left {
            [first, rest @ ..] => {
                self.left = rest;
                Some(*first)
            }
            [] => None,
        }
    }

    /// Takes `%` and the letter behind it.
    #[inline(always)]
    pub fn letter(&mut self) -> Option<u8>
        ensures { IfSome result (λ x. self.old ≡ 37 ∷ x ∷ self.new) }
    {
        match self.left {
            [b'%', letter, rest @ ..] => {
                self.left = rest;
                Some(*letter)
            }
            _ => None,
        }
    }

    /// Takes a space, `%` and the letter behind it.
    #[inline(always)]
    pub fn spaced_letter(&mut self) -> Option<u8>
        ensures { IfSome result (λ x. self.old ≡ 32 ∷ 37 ∷ x ∷ self.new) }
    {
        match self.left {
            [b' ', b'%', letter, rest @ ..] => {
                self.left = rest;
                Some(*letter)
            }
            _ => None,
        }
    }

    /// Takes this byte.
    #[inline(always)]
    pub fn byte(&mut self, byte: u8) -> Option<()>
        ensures { IfSome result (λ _. self.old ≡ byte ∷ self.new) }
    {
        if self.next_byte()? == byte {
            Some(())
        } else {
            None
        }
    }

    /// Takes these bytes, which are a literal.
    #[inline(always)]
    pub fn text(&mut self, text: &[u8]) -> Option<()>
        ensures { IfSome result (λ _. self.old ≡ text.now ++ self.new) }
    {
        self.left = behind_text(self.left, text)?;
        Some(())
    }

    /// Takes these bytes, many of them compared at a time.
    #[inline(always)]
    pub fn prefix(&mut self, text: &[u8]) -> Option<()>
        ensures { IfSome result (λ _. self.old ≡ text.now ++ self.new) }
    {
        self.left = self.left.strip_prefix(text)?;
        Some(())
    }

    /// Takes a number.
    #[inline(always)]
    pub fn natural(&mut self) -> Option<u64>
        ensures { IfSome result (λ n. self.old ≡ decimal n ++ self.new) }
    {
        let taken = natural(self.left)?;
        self.left = taken.rest;
        Some(taken.number)
    }

    /// Takes a number with its sign.
    #[inline(always)]
    pub fn integer(&mut self) -> Option<i64>
        ensures text { IfSome result (λ z. self.old ≡ signed_decimal z ++ self.new) }
        ensures below { IfSome result (IsBelow (2 ^ 63)) }
    {
        match self.left {
            [b'-', rest @ ..] => {
                self.left = rest;
                let number = self.natural()?;
                if 0 < number && number <= 1 << 63 {
                    Some(-((number - 1) as i64) - 1)
                } else {
                    None
                }
            }
            _ => {
                let number = self.natural()?;
                if number < 1 << 63 {
                    Some(number as i64)
                } else {
                    None
                }
            }
        }
    }
}
