//! How a row is put together: a mnemonic and its operands.
ghost use Rattle.std.specs.Prelude.{◌≡◌, ◌++◌, ◌∷◌, [], OnOk, string_bytes};
ghost use Rattle.std.specs.Option.{option_map};
ghost use Rattle.s390x_format.specs.Stems.{stem_of};
ghost use Rattle.s390x_text_rows.specs.Texts.{Prints, answer_of, row, operands, instruction_text, fixed_text};
ghost use Rattle.s390x_text_rows.specs.Operands.{cond_text};
ghost use Rattle.s390x_text_rows.specs.Integer.{three_text, conditional_row};
ghost use Rattle.s390x_text_rows.specs.VectorMnemonics.{mnemonic_text};

use crate::error::TextError;
use crate::operand::{Operand, cond_name};
use crate::piece::put;
use crate::vector_mnemonics::{Mnemonic, put_letters};
use s390x_base::{Cond, Reg, Writable};
use s390x_format::stem;
use std::alloc::AllocError;

/// A writer's answer as that of a text.
#[inline(always)]
pub fn text_result(written: Result<(), AllocError>) -> Result<(), TextError>
    ensures { result ≡ answer_of written }
{
    match written {
        Ok(()) => Ok(()),
        Err(error) => Err(TextError::from(error)),
    }
}

// Appends 2 operands behind a space.
#[inline(always)]
fn put_operands2<A: Operand, B: Operand>(out: &mut String, a: &A, b: &B) -> Result<(), AllocError>
    ensures { OnOk result
        (string_bytes out.new
        ≡ string_bytes out.old ++ operands (A.shown a.now ∷ B.shown b.now ∷ [])) }
{
    put(out, " ")?;
    a.put(out)?;
    put(out, ", ")?;
    b.put(out)
}

/// Appends a row with one operand.
#[inline(always)]
pub fn spelled1<A: Operand>(out: &mut String, mnemonic: &str, a: &A) -> Result<(), AllocError>
    ensures { OnOk result
        (string_bytes out.new
        ≡ string_bytes out.old ++ instruction_text mnemonic.now (A.shown a.now ∷ [])) }
{
    put(out, mnemonic)?;
    put(out, " ")?;
    a.put(out)
}

/// Appends a row with 2 operands.
#[inline(always)]
pub fn spelled2<A: Operand, B: Operand>(
    out: &mut String,
    mnemonic: &str,
    a: &A,
    b: &B,
) -> Result<(), AllocError>
    ensures { OnOk result
        (string_bytes out.new
        ≡ string_bytes out.old
        ++ instruction_text mnemonic.now (A.shown a.now ∷ B.shown b.now ∷ [])) }
{
    spelled1(out, mnemonic, a)?;
    put(out, ", ")?;
    b.put(out)
}

/// Appends a row with 3 operands.
pub fn spelled3<A: Operand, B: Operand, C: Operand>(
    out: &mut String,
    mnemonic: &str,
    a: &A,
    b: &B,
    c: &C,
) -> Result<(), AllocError>
    ensures { OnOk result
        (string_bytes out.new
        ≡ string_bytes out.old
        ++ instruction_text mnemonic.now (A.shown a.now ∷ B.shown b.now ∷ C.shown c.now ∷ [])) }
{
    spelled2(out, mnemonic, a, b)?;
    put(out, ", ")?;
    c.put(out)
}

/// Appends a row with 4 operands.
pub fn spelled4<A: Operand, B: Operand, C: Operand, D: Operand>(
    out: &mut String,
    mnemonic: &str,
    a: &A,
    b: &B,
    c: &C,
    d: &D,
) -> Result<(), AllocError>
    ensures { OnOk result
        (string_bytes out.new
        ≡ string_bytes out.old
        ++ instruction_text mnemonic.now
        (A.shown a.now ∷ B.shown b.now ∷ C.shown c.now ∷ D.shown d.now ∷ [])) }
{
    spelled3(out, mnemonic, a, b, c)?;
    put(out, ", ")?;
    d.put(out)
}

// Appends a mnemonic of two parts. That of a row which is known where it is called is a literal, which is copied without a call.
#[inline(always)]
fn put_mnemonic(out: &mut String, mnemonic: Mnemonic) -> Result<(), AllocError>
    ensures { OnOk result
        (string_bytes out.new ≡ string_bytes out.old ++ mnemonic_text mnemonic) }
{
    put(out, stem(mnemonic.opcode))?;
    put_letters(out, mnemonic.letters)
}

/// Appends a row whose mnemonic has two parts, with 2 operands.
#[inline(always)]
pub fn lettered2<A: Operand, B: Operand>(
    out: &mut String,
    mnemonic: Mnemonic,
    a: &A,
    b: &B,
) -> Result<(), AllocError>
    ensures { OnOk result
        (string_bytes out.new
        ≡ string_bytes out.old
        ++ instruction_text (mnemonic_text mnemonic) (A.shown a.now ∷ B.shown b.now ∷ [])) }
{
    put_mnemonic(out, mnemonic)?;
    put_operands2(out, a, b)
}

/// Appends such a row, as an answer of a text. An error comes for want of memory alone.
#[inline(always)]
pub fn fixed_lettered2<A: Operand, B: Operand>(
    out: &mut String,
    mnemonic: Mnemonic,
    a: &A,
    b: &B,
) -> Result<(), TextError>
    ensures { Prints result (string_bytes out.old) (string_bytes out.new)
        (fixed_text
        (instruction_text (mnemonic_text mnemonic) (A.shown a.now ∷ B.shown b.now ∷ []))) }
{
    Ok(lettered2(out, mnemonic, a, b)?)
}

/// With 3 operands.
pub fn lettered3<A: Operand, B: Operand, C: Operand>(
    out: &mut String,
    mnemonic: Mnemonic,
    a: &A,
    b: &B,
    c: &C,
) -> Result<(), AllocError>
    ensures { OnOk result
        (string_bytes out.new
        ≡ string_bytes out.old
        ++ instruction_text (mnemonic_text mnemonic)
        (A.shown a.now ∷ B.shown b.now ∷ C.shown c.now ∷ [])) }
{
    lettered2(out, mnemonic, a, b)?;
    put(out, ", ")?;
    c.put(out)
}

/// With 4 operands.
pub fn lettered4<A: Operand, B: Operand, C: Operand, D: Operand>(
    out: &mut String,
    mnemonic: Mnemonic,
    a: &A,
    b: &B,
    c: &C,
    d: &D,
) -> Result<(), AllocError>
    ensures { OnOk result
        (string_bytes out.new
        ≡ string_bytes out.old
        ++ instruction_text (mnemonic_text mnemonic)
        (A.shown a.now ∷ B.shown b.now ∷ C.shown c.now ∷ D.shown d.now ∷ [])) }
{
    lettered3(out, mnemonic, a, b, c)?;
    put(out, ", ")?;
    d.put(out)
}

/// Appends a mnemonic with one operand, as an answer of a text. An error comes for want of memory alone.
pub fn fixed1<A: Operand>(out: &mut String, mnemonic: &str, a: &A) -> Result<(), TextError>
    ensures { Prints result (string_bytes out.old) (string_bytes out.new)
        (fixed_text (instruction_text mnemonic.now (A.shown a.now ∷ []))) }
{
    Ok(spelled1(out, mnemonic, a)?)
}

/// With 2 operands.
pub fn fixed2<A: Operand, B: Operand>(
    out: &mut String,
    mnemonic: &str,
    a: &A,
    b: &B,
) -> Result<(), TextError>
    ensures { Prints result (string_bytes out.old) (string_bytes out.new)
        (fixed_text (instruction_text mnemonic.now (A.shown a.now ∷ B.shown b.now ∷ []))) }
{
    Ok(spelled2(out, mnemonic, a, b)?)
}

/// With 3 operands.
pub fn fixed3<A: Operand, B: Operand, C: Operand>(
    out: &mut String,
    mnemonic: &str,
    a: &A,
    b: &B,
    c: &C,
) -> Result<(), TextError>
    ensures { Prints result (string_bytes out.old) (string_bytes out.new)
        (fixed_text
        (instruction_text mnemonic.now (A.shown a.now ∷ B.shown b.now ∷ C.shown c.now ∷ []))) }
{
    Ok(spelled3(out, mnemonic, a, b, c)?)
}

/// Appends a row with 2 operands; `NoRow` where it has no mnemonic.
pub fn row2<A: Operand, B: Operand>(
    out: &mut String,
    mnemonic: Option<&'static str>,
    a: &A,
    b: &B,
) -> Result<(), TextError>
    ensures { Prints result (string_bytes out.old) (string_bytes out.new)
        (row (option_map (λ s. s.now) mnemonic.entry) (A.shown a.now ∷ B.shown b.now ∷ [])) }
{
    match mnemonic {
        Some(name) => fixed2(out, name, a, b),
        None => Err(TextError::NoRow),
    }
}

/// Appends a row with 3 operands; `NoRow` where it has no mnemonic.
pub fn row3<A: Operand, B: Operand, C: Operand>(
    out: &mut String,
    mnemonic: Option<&'static str>,
    a: &A,
    b: &B,
    c: &C,
) -> Result<(), TextError>
    ensures { Prints result (string_bytes out.old) (string_bytes out.new)
        (row (option_map (λ s. s.now) mnemonic.entry)
        (A.shown a.now ∷ B.shown b.now ∷ C.shown c.now ∷ [])) }
{
    match mnemonic {
        Some(name) => fixed3(out, name, a, b, c),
        None => Err(TextError::NoRow),
    }
}

/// Appends a row of three operands, or where the output is the first input and there is such a row, of two; both by their opcodes.
pub fn three<T: Operand>(
    out: &mut String,
    three: Option<u16>,
    two: Option<u16>,
    rd: &Writable<Reg>,
    rn: &Reg,
    last: &T,
) -> Result<(), TextError>
    ensures { Prints result (string_bytes out.old) (string_bytes out.new)
        (three_text (option_map stem_of three) (option_map stem_of two) rd.now rn.now
        (T.shown last.now)) }
{
    match (three, two) {
        (None, _) => Err(TextError::NoRow),
        (Some(opcode), None) => fixed3(out, stem(opcode), rd, rn, last),
        (Some(opcode), Some(short)) => {
            if rd.to_reg() == *rn {
                fixed2(out, stem(short), rd, last)
            } else {
                fixed3(out, stem(opcode), rd, rn, last)
            }
        }
    }
}

// A mnemonic, a condition and 2 operands.
fn spelled_cond2<A: Operand, B: Operand>(
    out: &mut String,
    mnemonic: &str,
    cond: Cond,
    a: &A,
    b: &B,
) -> Result<(), AllocError>
    ensures { OnOk result
        (string_bytes out.new
        ≡ string_bytes out.old
        ++ instruction_text (mnemonic.now ++ cond_text cond) (A.shown a.now ∷ B.shown b.now ∷ [])) }
{
    put(out, mnemonic)?;
    spelled2(out, cond_name(cond), a, b)
}

/// Appends a row whose mnemonic ends with a condition.
pub fn conditional2<A: Operand, B: Operand>(
    out: &mut String,
    mnemonic: &str,
    cond: Cond,
    a: &A,
    b: &B,
) -> Result<(), TextError>
    ensures { Prints result (string_bytes out.old) (string_bytes out.new)
        (fixed_text
        (instruction_text (mnemonic.now ++ cond_text cond)
        (A.shown a.now ∷ B.shown b.now ∷ []))) }
{
    Ok(spelled_cond2(out, mnemonic, cond, a, b)?)
}

/// Appends a row whose mnemonic ends with a condition; `NoRow` where it has none.
pub fn conditional_row2<A: Operand, B: Operand>(
    out: &mut String,
    mnemonic: Option<&'static str>,
    cond: Cond,
    a: &A,
    b: &B,
) -> Result<(), TextError>
    ensures { Prints result (string_bytes out.old) (string_bytes out.new)
        (conditional_row (option_map (λ s. s.now) mnemonic.entry) cond
        (A.shown a.now ∷ B.shown b.now ∷ [])) }
{
    match mnemonic {
        Some(name) => conditional2(out, name, cond, a, b),
        None => Err(TextError::NoRow),
    }
}
