//! Why calls are refused.
ghost use Rattle.std.specs.Prelude.{◌≡◌};
ghost use Rattle.s390x_base.specs.Errors.{number_of_error};

/// Why an emission call is refused.
#[derive(Clone, Copy, PartialEq, Eq, Debug)]
pub enum EmitError {
    /// The instruction's facility isn't among the flags.
    MissingFacility = 1,
    /// An operator, type, size, lane, bit or shift number without a row, or a memory operand without a form.
    BadOperator = 2,
    /// A register that isn't real, of the wrong class, or not allowed in its place.
    BadRegister = 3,
    /// `%r1` would be read after a helper of the same instruction overwrote it.
    ScratchConflict = 4,
    /// An offset outside signed 32 bits.
    OffsetOutOfRange = 5,
    /// A `CondBreak` outside every `Loop`.
    BreakOutsideLoop = 6,
    /// Stack sizes that don't fit the instruction.
    BadStackState = 7,
    /// A label or a constant that isn't declared.
    UnboundLabel = 8,
    /// A declared alignment that isn't allowed, or an operand below its access's alignment.
    BadAlignment = 9,
    /// Code or labels past their limits.
    LabelOutOfRange = 10,
    /// An earlier call on the buffer was refused.
    Failed = 11,
    /// No memory.
    NoMemory = 12,
}

impl EmitError {
    /// The number of the error, 1 to 12.
    pub fn number(self) -> u8
        ensures { result ≡ number_of_error self }
    {
        self as u8
    }
}

/// The error of a call that refuses where there is no memory, and for nothing else.
#[derive(Clone, Copy, Debug)]
pub struct NoMemory;
