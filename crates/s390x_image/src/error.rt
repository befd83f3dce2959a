//! Why linking is refused.
ghost use Rattle.std.specs.Prelude.{◌≡◌};
ghost use Rattle.s390x_image.specs.Errors.{number_of_link_error};

use thiserror::Error;

/// Why code is not linked at a base. The displayed text is the variant's name.
#[derive(Clone, Copy, PartialEq, Debug, Error)]
pub enum LinkError {
    /// The base isn't a multiple of the code's alignment.
    #[error("MisalignedBase")]
    MisalignedBase = 1,
    /// The base plus the length of the code is above 2^64.
    #[error("ImageTooHigh")]
    ImageTooHigh = 2,
    /// A relocation's symbol has no address.
    #[error("UndefinedSymbol")]
    UndefinedSymbol = 3,
    /// Symbol plus addend (for `Abs8`), or symbol plus addend less 2 (for the others), is no address.
    #[error("AddressOverflow")]
    AddressOverflow = 4,
    /// Symbol plus addend less the field's address is odd; not for `Abs8`.
    #[error("OddSymbol")]
    OddSymbol = 5,
    /// Half of symbol plus addend less the field's address is outside signed 32 bits; not for `Abs8`.
    #[error("TooFar")]
    TooFar = 6,
    /// No memory.
    #[error("NoMemory")]
    NoMemory = 7,
}

impl LinkError {
    /// The number of the error, 1 to 7.
    pub fn number(self) -> u8
        ensures { result ≡ number_of_link_error self }
    {
        self as u8
    }
}
