//! Why objects are refused.

use thiserror::Error;

/// Why finished code is not made an object. The displayed text is the variant's name.
#[derive(Clone, Copy, PartialEq, Debug, Error)]
pub enum ObjectError {
    /// A name has no bytes.
    #[error("EmptyName")]
    EmptyName,
    /// A name has a zero byte.
    #[error("ZeroByte")]
    ZeroByte,
    /// A function has an earlier one's name.
    #[error("DuplicateName")]
    DuplicateName,
    /// A function has no bytes.
    #[error("EmptyMember")]
    EmptyMember,
    /// The names with their ends take 2^32 bytes or more, or the text 2^31.
    #[error("TooLong")]
    TooLong,
    /// No memory.
    #[error("NoMemory")]
    NoMemory,
}
