//! How the second program ends.
ghost use Rattle.std.specs.Prelude.{◌≡◌};
ghost use Rattle.s390x_binary_tool.specs.Status.{number_of_binary_status};

use s390x_tool::Status;

/// How `run` ended.
#[derive(Clone, Copy, PartialEq, Debug)]
pub enum BinaryStatus {
    /// With one of the first program's statuses, for the same cause.
    Shared(Status),
    /// The bytes behind the job aren't its image at this base.
    Differs,
    /// The job's code is not made an object.
    ObjectRefused,
}

impl BinaryStatus {
    /// The number with which the program ends.
    pub fn number(self) -> u8
        ensures { result ≡ number_of_binary_status self }
    {
        match self {
            BinaryStatus::Shared(status) => status.number(),
            BinaryStatus::Differs => 13,
            BinaryStatus::ObjectRefused => 14,
        }
    }
}
