//! How the program ends.
ghost use Rattle.std.specs.Prelude.{◌≡◌};
ghost use Rattle.s390x_tool.specs.Status.{number_of_status};

/// How `run` ended.
#[derive(Clone, Copy, PartialEq, Debug)]
pub enum Status {
    /// All done, and the whole text written.
    Ok = 0,
    /// The words are no command.
    Usage = 2,
    /// The input is no text of a job, or of functions.
    Syntax = 3,
    /// Emission refuses the job.
    Refused = 4,
    /// Linking refuses the job's code at this base.
    LinkRefused = 5,
    /// Reading failed.
    ReadFault = 6,
    /// Writing failed.
    WriteFault = 7,
    /// The input has more than 16777216 bytes.
    InputTooLong = 8,
    /// No memory.
    NoMemory = 9,
    /// The word to which processors add doesn't stand at a multiple of 4, or lies in their code.
    BadWord = 10,
    /// What `alloc` read is the text of a job with a plan, and the plan has a fault. The line has the name and the numbers of its first one (`PlanFault` of
    /// `s390x_alloc`), and behind `Operands` the name of what refuses them.
    PlanRefused = 11,
    /// Several functions don't stand in one image: by their names, or by the emission, the place or the linking of one of them.
    BundleRefused = 12,
}

impl Status {
    /// The number with which the program ends.
    pub fn number(self) -> u8
        ensures { result ≡ number_of_status self }
    {
        self as u8
    }
}
