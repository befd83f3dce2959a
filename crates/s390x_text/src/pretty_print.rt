//! The texts of operands by themselves.
ghost use Rattle.std.specs.Prelude.{◌≡◌, ◌++◌, None, MatchResult, string_bytes};
ghost use Rattle.std.specs.Fmt.{decimal, signed_decimal};
ghost use Rattle.s390x_text_rows.specs.Texts.{Text, RefusedBy, fixed_text};
ghost use Rattle.s390x_text_rows.specs.Operands.{cond_text};
ghost use Rattle.s390x_text_rows.specs.Storage.{operand_alone};

use s390x_base::{Cond, SImm20, UImm12, UImm16Shifted, UImm32Shifted};
use s390x_inst::MemArg;
use s390x_text_rows::{TextError, alone, cond_name, is_virtual};
use std::alloc::Global;

/// A value that has a text.
pub trait PrettyPrint {
    ghost text: { Self → Text };

    /// The text, or its cause of refusal (cranelift-codegen, `args.rs` and `imms.rs`).
    fn pretty_print(&self, alloc: Global) -> Result<String, TextError>
        ensures { MatchResult result
            (λ s. ((text self.now).cause ≡ None) × (string_bytes s ≡ (text self.now).bytes))
            (λ e. RefusedBy (text self.now).cause e) };
}

/// `D(X,B)`, without a register that is `%r0`; `labelN`, `[const(N)]` or `uN + OFFSET`. `Virtual` exactly where the operand is an offset from a register or
/// in the frame.
impl PrettyPrint for MemArg {
    ghost text = { operand_alone };

    fn pretty_print(&self, alloc: Global) -> Result<String, TextError> {
        if is_virtual(self) {
            return Err(TextError::Virtual);
        }
        Ok(alone(alloc, self)?)
    }
}

/// The name of the condition.
impl PrettyPrint for Cond {
    ghost text = { λ mask. fixed_text (cond_text mask) };

    fn pretty_print(&self, alloc: Global) -> Result<String, TextError> {
        Ok(String::from_str(alloc, cond_name(*self))?)
    }
}

/// The value in decimal.
impl PrettyPrint for UImm12 {
    ghost text = { λ i. fixed_text (decimal i) };

    fn pretty_print(&self, alloc: Global) -> Result<String, TextError> {
        Ok(alone(alloc, &self.bits())?)
    }
}

/// The value in decimal.
impl PrettyPrint for SImm20 {
    ghost text = { λ i. fixed_text (signed_decimal i) };

    fn pretty_print(&self, alloc: Global) -> Result<String, TextError> {
        Ok(alone(alloc, &self.value())?)
    }
}

/// The bits in decimal.
impl PrettyPrint for UImm16Shifted {
    ghost text = { λ i. fixed_text (decimal i.bits) };

    fn pretty_print(&self, alloc: Global) -> Result<String, TextError> {
        Ok(alone(alloc, self)?)
    }
}

/// The bits in decimal.
impl PrettyPrint for UImm32Shifted {
    ghost text = { λ i. fixed_text (decimal i.bits) };

    fn pretty_print(&self, alloc: Global) -> Result<String, TextError> {
        Ok(alone(alloc, self)?)
    }
}
