//! Trap codes.
ghost use Rattle.std.specs.Prelude.{◌≡◌, ◌<◌, ◌≤◌, ◌↔◌, IsSome, IfSome, Some, None};
ghost use Rattle.s390x_base.specs.declared.trap.TrapKind.{TrapKind};
ghost use Rattle.s390x_base.specs.declared.trap.TrapKind.TheVariants.{User};
ghost use Rattle.s390x_base.specs.Traps.{user_of};

use std::fmt;
use std::marker::Model;

/// What a trap code says. The number of a user code is 1 to 250.
#[derive(Clone, Copy, PartialEq, Eq, Debug)]
pub enum TrapKind {
    StackOverflow,
    IntegerOverflow,
    HeapOutOfBounds,
    IntegerDivisionByZero,
    BadConversionToInteger,
    User(u8),
}

/// A trap code: one of the five named ones, or a user code of 1 to 250. Contracts see it as its kind.
#[derive(Clone, Copy, PartialEq, Eq, Debug)]
pub struct TrapCode {
    kind: TrapKind,
}

impl Model for TrapCode {
    ghost use Rattle.s390x_base.specs.declared.trap.TrapKind.{TrapKind};
    ghost use Rattle.s390x_base.specs.Traps.{IsKind};

    ghost Value = { TrapKind };

    ghost view = { λ t. t.kind };

    ghost invariant = { λ t. IsKind t.kind };

    ghost inverse = { λ k. record { kind = k } };
}

impl TrapCode {
    /// The stack overflowed.
    pub const STACK_OVERFLOW: TrapCode = TrapCode {
        kind: TrapKind::StackOverflow,
    };

    /// An integer operation overflowed.
    pub const INTEGER_OVERFLOW: TrapCode = TrapCode {
        kind: TrapKind::IntegerOverflow,
    };

    /// A heap address is out of bounds.
    pub const HEAP_OUT_OF_BOUNDS: TrapCode = TrapCode {
        kind: TrapKind::HeapOutOfBounds,
    };

    /// An integer division by zero.
    pub const INTEGER_DIVISION_BY_ZERO: TrapCode = TrapCode {
        kind: TrapKind::IntegerDivisionByZero,
    };

    /// A failed conversion of a floating-point number to an integer.
    pub const BAD_CONVERSION_TO_INTEGER: TrapCode = TrapCode {
        kind: TrapKind::BadConversionToInteger,
    };

    /// The user code of this number; Some exactly for 1 to 250.
    pub fn user(code: u8) -> Option<TrapCode>
        ensures fits { IsSome result ↔ ((1 ≤ code) × (code ≤ 250)) }
        ensures value { IfSome result (λ t. t ≡ User code) }
    {
        if 1 <= code && code <= 250 {
            Some(TrapCode {
                kind: TrapKind::User(code),
            })
        } else {
            None
        }
    }

    /// The number of a user code; None exactly for the five named codes.
    pub fn user_code(self) -> Option<u8>
        ensures value { result ≡ user_of self }
        ensures range { IfSome result (λ n. (1 ≤ n) × (n ≤ 250)) }
    {
        match self.kind {
            TrapKind::User(code) => Some(code),
            _ => None,
        }
    }

    /// What the code says.
    pub fn kind(self) -> TrapKind
        ensures { result ≡ self }
    {
        self.kind
    }
}

impl fmt::Display for TrapCode {
    /// `stk_ovf`, `int_ovf`, `heap_oob`, `int_divz`, `bad_toint`, or `user` and the number.
    fn fmt<W: fmt::Write>(&self, f: &mut fmt::Formatter<W>) -> fmt::Result {
        match self.kind {
            TrapKind::StackOverflow => f.write_str("stk_ovf"),
            TrapKind::IntegerOverflow => f.write_str("int_ovf"),
            TrapKind::HeapOutOfBounds => f.write_str("heap_oob"),
            TrapKind::IntegerDivisionByZero => f.write_str("int_divz"),
            TrapKind::BadConversionToInteger => f.write_str("bad_toint"),
            TrapKind::User(code) => write!(f, "user{code}"),
        }
    }
}
