//! Why a simulator is refused.
use thiserror::Error;

/// Why no simulator is made. The displayed text is the variant's name.
#[derive(Clone, Copy, PartialEq, Debug, Error)]
pub enum SmpError {
    /// The base isn't a multiple of 4.
    #[error("MisalignedBase")]
    MisalignedBase,
    /// The image ends behind the last address.
    #[error("ImageTooHigh")]
    ImageTooHigh,
    /// The word's address isn't a multiple of 4, or one of its bytes lies in the image.
    #[error("BadWord")]
    BadWord,
    /// No memory.
    #[error("NoMemory")]
    NoMemory,
}
