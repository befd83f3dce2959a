//! How a call ends.
ghost use Rattle.std.specs.Prelude.{◌≡◌};
ghost use Rattle.s390x_calls.specs.Status.{number_of_status};

/// The greatest number of bytes of an input.
pub const MOST_BYTES: usize = 16_777_216;

/// How a call ends.
#[derive(Clone, Copy, PartialEq, Eq, Debug)]
pub enum Status {
    /// All was done.
    Done,
    /// The input is no such text.
    Syntax,
    /// Emission refuses the function, or an instruction can't be reported.
    Refused,
    /// Linking refuses the code.
    LinkRefused,
    /// The input has more than `MOST_BYTES` bytes.
    TooLong,
    /// There was no memory.
    NoMemory,
    /// The plan of registers has a fault.
    PlanRefused,
    /// A name comes twice, or a function has no place in the image.
    BundleRefused,
    /// A buffer is too small.
    TooSmall,
}

impl Status {
    /// The number: that with which the program ends too, and 13 for a buffer that is too small.
    pub fn number(self) -> u32
        ensures { result ≡ number_of_status self }
    {
        match self {
            Status::Done => 0,
            Status::Syntax => 3,
            Status::Refused => 4,
            Status::LinkRefused => 5,
            Status::TooLong => 8,
            Status::NoMemory => 9,
            Status::PlanRefused => 11,
            Status::BundleRefused => 12,
            Status::TooSmall => 13,
        }
    }
}
