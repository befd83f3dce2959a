//! The numbers of errors.
ghost use Rattle.std.specs.Prelude.{◌≡◌};
ghost use Rattle.s390x_c_allocation.specs.Plans.{number_of_operand_error};

use s390x_operands::OperandError;

/// Why the operands of an instruction can't be reported: 1 or 2, and 3 for want of memory.
pub fn operand_error_number(error: OperandError) -> u8
    ensures { result ≡ number_of_operand_error error }
{
    match error {
        OperandError::ReuseInLoop => 1,
        OperandError::NotReal => 2,
        OperandError::NoMemory => 3,
    }
}
