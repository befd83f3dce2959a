//! The names of what refuses emission, linking and operands, and the lines that tell them: each name stands here once.
ghost use Rattle.std.specs.Prelude.{◌≡◌, ◌++◌, codes};
ghost use Rattle.s390x_tool.specs.Lines.{error_name, line, link_error_name, operand_error_name};

use s390x_base::EmitError;
use s390x_image::LinkError;
use s390x_operands::OperandError;

// The name of a refusal of emission between two texts.
macro_rules! emit_error_text {
    ($error:expr, $before:literal, $behind:literal) => {
        match $error {
            EmitError::MissingFacility => concat!($before, "MissingFacility", $behind),
            EmitError::BadOperator => concat!($before, "BadOperator", $behind),
            EmitError::BadRegister => concat!($before, "BadRegister", $behind),
            EmitError::ScratchConflict => concat!($before, "ScratchConflict", $behind),
            EmitError::OffsetOutOfRange => concat!($before, "OffsetOutOfRange", $behind),
            EmitError::BreakOutsideLoop => concat!($before, "BreakOutsideLoop", $behind),
            EmitError::BadStackState => concat!($before, "BadStackState", $behind),
            EmitError::UnboundLabel => concat!($before, "UnboundLabel", $behind),
            EmitError::BadAlignment => concat!($before, "BadAlignment", $behind),
            EmitError::LabelOutOfRange => concat!($before, "LabelOutOfRange", $behind),
            EmitError::Failed => concat!($before, "Failed", $behind),
            EmitError::NoMemory => concat!($before, "NoMemory", $behind),
        }
    };
}

// The name of a refusal of linking between two texts.
macro_rules! link_error_text {
    ($error:expr, $before:literal, $behind:literal) => {
        match $error {
            LinkError::MisalignedBase => concat!($before, "MisalignedBase", $behind),
            LinkError::ImageTooHigh => concat!($before, "ImageTooHigh", $behind),
            LinkError::UndefinedSymbol => concat!($before, "UndefinedSymbol", $behind),
            LinkError::AddressOverflow => concat!($before, "AddressOverflow", $behind),
            LinkError::OddSymbol => concat!($before, "OddSymbol", $behind),
            LinkError::TooFar => concat!($before, "TooFar", $behind),
            LinkError::NoMemory => concat!($before, "NoMemory", $behind),
        }
    };
}

// The name of a refusal of operands between two texts.
macro_rules! operand_error_text {
    ($error:expr, $before:literal, $behind:literal) => {
        match $error {
            OperandError::ReuseInLoop => concat!($before, "ReuseInLoop", $behind),
            OperandError::NotReal => concat!($before, "NotReal", $behind),
            OperandError::NoMemory => concat!($before, "NoMemory", $behind),
        }
    };
}

/// The name of a refusal of emission.
pub fn emit_error_name(error: EmitError) -> &'static str
    ensures { result.now ≡ error_name error }
{
    emit_error_text!(error, "", "")
}

/// The line for a refusal of emission.
pub fn emit_error_line(error: EmitError) -> &'static str
    ensures { result.now ≡ line (codes "refused " ++ error_name error) }
{
    emit_error_text!(error, "refused ", "\n")
}

/// The name of a refusal of linking.
pub fn link_error_name(error: LinkError) -> &'static str
    ensures { result.now ≡ link_error_name error }
{
    link_error_text!(error, "", "")
}

/// The line for a refusal of linking.
pub fn link_error_line(error: LinkError) -> &'static str
    ensures { result.now ≡ line (codes "link " ++ link_error_name error) }
{
    link_error_text!(error, "link ", "\n")
}

/// The name of a refusal of operands.
pub fn operand_error_name(error: OperandError) -> &'static str
    ensures { result.now ≡ operand_error_name error }
{
    operand_error_text!(error, "", "")
}

/// The line for a refusal of operands.
pub fn operand_error_line(error: OperandError) -> &'static str
    ensures { result.now ≡ line (codes "refused " ++ operand_error_name error) }
{
    operand_error_text!(error, "refused ", "\n")
}
