//! Why a text is refused.
ghost use Rattle.std.specs.Prelude.{◌≡◌};
ghost use Rattle.s390x_text_rows.specs.declared.error.TextError.TheVariants.{NoMemory};

use s390x_base::EmitError;
use std::alloc::AllocError;

/// Why there is no text.
#[derive(Clone, Copy, PartialEq, Eq, Debug)]
pub enum TextError {
    /// An operator, type, size, lane, bit or shift number without a row, or a `Loop` nested more than 8 deep.
    NoRow,
    /// A memory operand that is an offset from a register or in the frame, by itself.
    Virtual,
    /// A pair of two real registers of which the second isn't the next one.
    BadPair,
    /// The address of a memory operand can't be made, for this cause.
    Address(EmitError),
    /// No memory.
    NoMemory,
}

impl From<AllocError> for TextError {
    ghost from_gives = { λ _ e. e ≡ NoMemory };

    #[cold]
    fn from(_e: AllocError) -> TextError {
        TextError::NoMemory
    }
}
