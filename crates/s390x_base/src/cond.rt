//! Comparison codes and conditions.
ghost use Rattle.std.specs.Prelude.{◌≡◌, ℕ, ◌-◌, ◌<◌, ◌≤◌, not};
ghost use Rattle.s390x_base.specs.Conditions.{mask_of_intcc, mask_of_floatcc, selects};

use std::marker::Model;

/// An integer comparison.
#[derive(Clone, Copy, PartialEq, Eq, Debug)]
pub enum IntCC {
    Equal,
    NotEqual,
    SignedLessThan,
    SignedGreaterThanOrEqual,
    SignedGreaterThan,
    SignedLessThanOrEqual,
    UnsignedLessThan,
    UnsignedGreaterThanOrEqual,
    UnsignedGreaterThan,
    UnsignedLessThanOrEqual,
}

/// A floating-point comparison.
#[derive(Clone, Copy, PartialEq, Eq, Debug)]
pub enum FloatCC {
    Ordered,
    Unordered,
    Equal,
    NotEqual,
    OrderedNotEqual,
    UnorderedOrEqual,
    LessThan,
    LessThanOrEqual,
    GreaterThan,
    GreaterThanOrEqual,
    UnorderedOrLessThan,
    UnorderedOrLessThanOrEqual,
    UnorderedOrGreaterThan,
    UnorderedOrGreaterThanOrEqual,
}

/// A condition for conditional branches: a mask of 1 to 14. Contracts see it as its mask.
///
/// Mask bit 8 stands for condition code 0, 4 for code 1, 2 for code 2 and 1 for code 3.
#[derive(Clone, Copy, PartialEq, Eq, Debug)]
pub struct Cond {
    mask: u8,
}

impl Model for Cond {
    ghost use Rattle.std.specs.Prelude.{ℕ, ◌≤◌};

    ghost Value = { ℕ };

    ghost view = { λ c. c.mask };

    ghost invariant = { λ c. (1 ≤ c.mask) × (c.mask ≤ 14) };

    ghost inverse = { λ m. record { mask = m } };
}

impl Cond {
    /// The condition of the mask.
    pub fn from_mask(mask: u8) -> Cond
        requires least { 1 ≤ mask }
        requires greatest { mask ≤ 14 }
        ensures { result ≡ mask }
    {
        Cond { mask }
    }

    /// The codes that a compare sets where the comparison holds, signed and unsigned alike.
    pub fn from_intcc(cc: IntCC) -> Cond
        ensures { result ≡ mask_of_intcc cc }
    {
        let mask = match cc {
            IntCC::Equal => 8,
            IntCC::NotEqual => 6,
            IntCC::SignedLessThan => 4,
            IntCC::SignedGreaterThanOrEqual => 10,
            IntCC::SignedGreaterThan => 2,
            IntCC::SignedLessThanOrEqual => 12,
            IntCC::UnsignedLessThan => 4,
            IntCC::UnsignedGreaterThanOrEqual => 10,
            IntCC::UnsignedGreaterThan => 2,
            IntCC::UnsignedLessThanOrEqual => 12,
        };
        Cond { mask }
    }

    /// The codes that a floating-point compare sets where the comparison holds.
    pub fn from_floatcc(cc: FloatCC) -> Cond
        ensures { result ≡ mask_of_floatcc cc }
    {
        let mask = match cc {
            FloatCC::Ordered => 14,
            FloatCC::Unordered => 1,
            FloatCC::Equal => 8,
            FloatCC::NotEqual => 7,
            FloatCC::OrderedNotEqual => 6,
            FloatCC::UnorderedOrEqual => 9,
            FloatCC::LessThan => 4,
            FloatCC::LessThanOrEqual => 12,
            FloatCC::GreaterThan => 2,
            FloatCC::GreaterThanOrEqual => 10,
            FloatCC::UnorderedOrLessThan => 5,
            FloatCC::UnorderedOrLessThanOrEqual => 13,
            FloatCC::UnorderedOrGreaterThan => 3,
            FloatCC::UnorderedOrGreaterThanOrEqual => 11,
        };
        Cond { mask }
    }

    /// The condition that selects exactly the other codes: 15 less the mask.
    pub fn invert(self) -> Cond
        ensures value { result ≡ 15 - self }
        ensures twice { 15 - result ≡ self }
        ensures others { (code : ℕ) → code < 4 → selects result code ≡ not (selects self code) }
    {
        Cond {
            mask: 15 - self.mask,
        }
    }

    /// The mask.
    pub fn bits(self) -> u8
        ensures value { result ≡ self }
        ensures least { 1 ≤ result }
        ensures greatest { result ≤ 14 }
    {
        self.mask
    }
}
