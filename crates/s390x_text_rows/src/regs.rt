//! The texts of registers and pairs.
ghost use Rattle.std.specs.Prelude.{◌≡◌, MatchResult, IfOk, None, Some, string_bytes};
ghost use Rattle.s390x_job_fields.specs.Atoms.{reg_text};
ghost use Rattle.std.specs.Option.{option_map};
ghost use Rattle.s390x_text_rows.specs.Texts.{RefusedBy};
ghost use Rattle.s390x_text_rows.specs.Operands.{float_of, is_float, pair_text, pair_cause, reused_text, reused_pair_text, reused_low_text};

use crate::error::TextError;
use crate::operand::{Float, Operand, Reused, ReusedLow, ReusedPair};
use s390x_base::{Reg, RegPair, Writable, WritableRegPair};
use std::alloc::{AllocError, Global};

/// An operand as a text of its own.
pub fn alone<T: Operand>(alloc: Global, operand: &T) -> Result<String, AllocError>
    ensures { IfOk result (λ s. string_bytes s ≡ T.shown operand.now) }
{
    let mut out = String::new(alloc);
    operand.put(&mut out)?;
    Ok(out)
}

/// The text of a register: `%rN` and `%vN` of a real one, `%iN` and `%xN` of a virtual one (cranelift-codegen, `regs.rs`).
pub fn show_reg(alloc: Global, reg: Reg) -> Result<String, TextError>
    ensures { MatchResult result (λ s. string_bytes s ≡ reg_text reg)
        (λ e. e ≡ TextError.NoMemory) }
{
    Ok(alone(alloc, &reg)?)
}

/// Whether a register is also a float register: a real one below 16.
pub fn is_float(reg: &Reg) -> bool
    ensures { result ≡ is_float reg.now }
{
    match reg {
        Reg::Real(real) => real.hw_enc() < 16,
        Reg::Virtual { .. } => false,
    }
}

// The text of a float register, where it is one.
fn show_float(alloc: Global, reg: &Reg) -> Result<Option<String>, TextError>
    ensures { MatchResult result (λ s. option_map string_bytes s ≡ float_of reg.now)
        (λ e. e ≡ TextError.NoMemory) }
{
    if is_float(reg) {
        Ok(Some(alone(alloc, &Float(*reg))?))
    } else {
        Ok(None)
    }
}

/// The text of a float register, `%fN`; None exactly where the register isn't real or isn't below 16. It is asked of registers of class
/// Float, and looks at the number alone (cranelift-codegen, `regs.rs`).
pub fn maybe_show_fpr(alloc: Global, reg: Reg) -> Result<Option<String>, TextError>
    ensures { MatchResult result (λ s. option_map string_bytes s ≡ float_of reg)
        (λ e. e ≡ TextError.NoMemory) }
{
    show_float(alloc, &reg)
}

/// The text of a register, as `show_reg` (cranelift-codegen, `regs.rs`).
pub fn pretty_print_reg(alloc: Global, reg: Reg) -> Result<String, TextError>
    ensures { MatchResult result (λ s. string_bytes s ≡ reg_text reg)
        (λ e. e ≡ TextError.NoMemory) }
{
    show_reg(alloc, reg)
}

/// No cause where a pair has a text; `BadPair` where both registers are real and the second isn't the next one.
pub fn pair_refusal(pair: RegPair) -> Option<TextError>
    ensures { result ≡ pair_cause pair.hi pair.lo }
{
    match (pair.hi.to_real_reg(), pair.lo.to_real_reg()) {
        (Some(high), Some(low)) => {
            if low.hw_enc() == high.hw_enc() + 1 {
                None
            } else {
                Some(TextError::BadPair)
            }
        }
        _ => None,
    }
}

/// The text of a pair: its first register, and where one is virtual both, as `%i0/%i1`. `BadPair` exactly where both are real and the number
/// of the second isn't that of the first plus 1 (cranelift-codegen, `regs.rs`).
pub fn pretty_print_regpair(alloc: Global, pair: RegPair) -> Result<String, TextError>
    ensures { MatchResult result
        (λ s. (pair_cause pair.hi pair.lo ≡ None) × (string_bytes s ≡ pair_text pair.hi pair.lo))
        (λ e. RefusedBy (pair_cause pair.hi pair.lo) e) }
{
    match pair_refusal(pair) {
        Some(error) => Err(error),
        None => Ok(alone(alloc, &pair)?),
    }
}

/// The text of an output that is also an input: the register, or `RD<-RI` where they differ (cranelift-codegen, `regs.rs`).
pub fn pretty_print_reg_mod(alloc: Global, rd: Writable<Reg>, ri: Reg) -> Result<String, TextError>
    ensures { MatchResult result (λ s. string_bytes s ≡ reused_text rd ri)
        (λ e. e ≡ TextError.NoMemory) }
{
    Ok(alone(
        alloc,
        &Reused {
            rd: rd.to_reg(),
            ri,
        },
    )?)
}

/// The text of a pair that is also an input: its first register, or `HI/LO<-HI/LO` where the first ones differ (cranelift-codegen,
/// `regs.rs`).
pub fn pretty_print_regpair_mod(
    alloc: Global,
    rd: WritableRegPair,
    ri: RegPair,
) -> Result<String, TextError>
    ensures { MatchResult result (λ s. string_bytes s ≡ reused_pair_text rd.hi rd.lo ri.hi ri.lo)
        (λ e. e ≡ TextError.NoMemory) }
{
    Ok(alone(
        alloc,
        &ReusedPair {
            rd: rd.to_regpair(),
            ri,
        },
    )?)
}

/// The text of a pair whose second register is also an input: its first register, or `HI/LO<-_/RI` where the second differs from the input
/// (cranelift-codegen, `regs.rs`).
pub fn pretty_print_regpair_mod_lo(
    alloc: Global,
    rd: WritableRegPair,
    ri: Reg,
) -> Result<String, TextError>
    ensures { MatchResult result (λ s. string_bytes s ≡ reused_low_text rd.hi rd.lo ri)
        (λ e. e ≡ TextError.NoMemory) }
{
    Ok(alone(
        alloc,
        &ReusedLow {
            rd: rd.to_regpair(),
            ri,
        },
    )?)
}

/// The text of a register, and its text as a float register where it is one, as of `maybe_show_fpr` (cranelift-codegen, `regs.rs`).
pub fn pretty_print_fpr(alloc: Global, reg: Reg) -> Result<(String, Option<String>), TextError>
    ensures { MatchResult result
        (λ r. (string_bytes r.0 ≡ reg_text reg) × (option_map string_bytes r.1 ≡ float_of reg))
        (λ e. e ≡ TextError.NoMemory) }
{
    let text = alone(alloc, &reg)?;
    let float = show_float(alloc, &reg)?;
    Ok((text, float))
}
