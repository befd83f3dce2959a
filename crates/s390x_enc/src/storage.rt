//! The encoding calls for instructions on storage. The opcode is written in hex as `ab`, `abc` or `abcd`;
//! registers stand by their numbers modulo 16, and x is the sum of 8, 4, 2, 1 for a vector register
//! of 16 and above in the left half of byte 1, the right half of byte 1, byte 2, byte 4. h is half
//! of a distance; dl and dh are the low 12 and the high 8 bits of a displacement of 20 bits.
//!
//! Each answers `BadRegister` exactly where a register operand isn't real, has another class than
//! the instruction's, or is 16 or above where the instruction takes a float register.
ghost use Rattle.std.specs.Prelude.{◌≡◌, ◌^◌, ◌<◌, List, [], ◌∷◌, true, false, ◌&&◌, MatchResult};
ghost use Rattle.std.specs.Int.{cast_unsigned};
ghost use mir.Syntax.{w16};
ghost use Rattle.s390x_base.specs.declared.error.EmitError.{EmitError};
ghost use Rattle.s390x_base.specs.Regs.{number_of};
ghost use Rattle.s390x_format.specs.declared.kind.FormatKind.{FormatKind};
ghost use Rattle.s390x_format.specs.Encoded.{slots, IsCode};
ghost use Rattle.s390x_enc.specs.Operands.{is_general_class, may_stand_first};

use crate::bytes::{four, high_byte, low_byte, nibbles, six};
use crate::operands::{first, general};
use s390x_base::{Code, EmitError, Reg};

/// The code of an instruction of format RS. `BadRegister` comes where a register is not of its operand's class.
///
/// ```text
/// 0       8   12  16  20    32
/// opcode  r1  r3  b2  d2
/// ```
pub fn enc_rs(opcode: u16, r1: Reg, r3: Reg, b2: Reg, d2: u32) -> Result<Code, EmitError>
    requires opcode { opcode < 2 ^ 8 }
    requires d2 { d2 < 4096 }
    ensures { let ok = is_general_class r1 && is_general_class r3 && is_general_class b2 in
        MatchResult result
        (λ code. (ok ≡ true)
        × IsCode FormatKind.Rs
        (slots opcode (number_of r1 ∷ number_of r3 ∷ number_of b2 ∷ []) [] 0 d2) code)
        (λ e. (e ≡ EmitError.BadRegister) × (ok ≡ false)) }
{
    let n1 = general(r1)?;
    let n3 = general(r3)?;
    let base = general(b2)?;
    Ok(four(
        low_byte(opcode),
        nibbles(n1, n3),
        nibbles(base, (d2 / 256) as u8),
        (d2 % 256) as u8,
    ))
}

/// The code of an instruction of format RSY. `BadRegister` comes where a register is not of its operand's class.
///
/// ```text
/// 0       8   12  16  20    32   40      48
/// opcode  r1  r3  b2  dl2   dh2  opcode
/// ```
pub fn enc_rsy(opcode: u16, r1: Reg, r3: Reg, b2: Reg, d2: u32) -> Result<Code, EmitError>
    requires { d2 < 1048576 }
    ensures { let ok = is_general_class r1 && is_general_class r3 && is_general_class b2 in
        MatchResult result
        (λ code. (ok ≡ true)
        × IsCode FormatKind.Rsy
        (slots opcode (number_of r1 ∷ number_of r3 ∷ number_of b2 ∷ []) [] 0 d2) code)
        (λ e. (e ≡ EmitError.BadRegister) × (ok ≡ false)) }
{
    let n1 = general(r1)?;
    let n3 = general(r3)?;
    let base = general(b2)?;
    Ok(six([
        high_byte(opcode),
        nibbles(n1, n3),
        nibbles(base, (d2 % 4096 / 256) as u8),
        (d2 % 256) as u8,
        (d2 / 4096) as u8,
        low_byte(opcode),
    ]))
}

/// The code of an instruction of format RX. `BadRegister` comes where a register is not of its operand's class.
///
/// ```text
/// 0       8   12  16  20    32
/// opcode  r1  x2  b2  d2
/// ```
#[inline(always)]
pub fn enc_rx(opcode: u16, r1: Reg, b2: Reg, x2: Reg, d2: u32) -> Result<Code, EmitError>
    requires opcode { opcode < 2 ^ 8 }
    requires d2 { d2 < 4096 }
    ensures { let ok = may_stand_first opcode r1 && is_general_class b2 && is_general_class x2 in
        MatchResult result
        (λ code. (ok ≡ true)
        × IsCode FormatKind.Rx
        (slots opcode (number_of r1 ∷ number_of b2 ∷ number_of x2 ∷ []) [] 0 d2) code)
        (λ e. (e ≡ EmitError.BadRegister) × (ok ≡ false)) }
{
    let n1 = first(opcode, r1)?;
    let base = general(b2)?;
    let index = general(x2)?;
    Ok(four(
        low_byte(opcode),
        nibbles(n1, index),
        nibbles(base, (d2 / 256) as u8),
        (d2 % 256) as u8,
    ))
}

/// The code of an instruction of format RXY. `BadRegister` comes where a register is not of its operand's class.
///
/// ```text
/// 0       8   12  16  20    32   40      48
/// opcode  r1  x2  b2  dl2   dh2  opcode
/// ```
#[inline(always)]
pub fn enc_rxy(opcode: u16, r1: Reg, b2: Reg, x2: Reg, d2: u32) -> Result<Code, EmitError>
    requires { d2 < 1048576 }
    ensures { let ok = may_stand_first opcode r1 && is_general_class b2 && is_general_class x2 in
        MatchResult result
        (λ code. (ok ≡ true)
        × IsCode FormatKind.Rxy
        (slots opcode (number_of r1 ∷ number_of b2 ∷ number_of x2 ∷ []) [] 0 d2) code)
        (λ e. (e ≡ EmitError.BadRegister) × (ok ≡ false)) }
{
    let n1 = first(opcode, r1)?;
    let base = general(b2)?;
    let index = general(x2)?;
    Ok(six([
        high_byte(opcode),
        nibbles(n1, index),
        nibbles(base, (d2 % 4096 / 256) as u8),
        (d2 % 256) as u8,
        (d2 / 4096) as u8,
        low_byte(opcode),
    ]))
}

/// The code of an instruction of format SI. `BadRegister` comes where a register is not of its operand's class.
///
/// ```text
/// 0       8   16  20    32
/// opcode  i2  b1  d1
/// ```
pub fn enc_si(opcode: u16, b1: Reg, d1: u32, i2: u8) -> Result<Code, EmitError>
    requires opcode { opcode < 2 ^ 8 }
    requires d1 { d1 < 4096 }
    ensures { let ok = is_general_class b1 in
        MatchResult result
        (λ code. (ok ≡ true)
        × IsCode FormatKind.Si (slots opcode (number_of b1 ∷ []) (i2 ∷ []) 0 d1) code)
        (λ e. (e ≡ EmitError.BadRegister) × (ok ≡ false)) }
{
    let base = general(b1)?;
    Ok(four(
        low_byte(opcode),
        i2,
        nibbles(base, (d1 / 256) as u8),
        (d1 % 256) as u8,
    ))
}

/// The code of an instruction of format SIL. `BadRegister` comes where a register is not of its operand's class.
///
/// ```text
/// 0       16  20    32      48
/// opcode  b1  d1    i2
/// ```
pub fn enc_sil(opcode: u16, b1: Reg, d1: u32, i2: i16) -> Result<Code, EmitError>
    requires { d1 < 4096 }
    ensures { let ok = is_general_class b1 in
        MatchResult result
        (λ code. (ok ≡ true)
        × IsCode FormatKind.Sil (slots opcode (number_of b1 ∷ []) [] (cast_unsigned w16 i2) d1)
        code) (λ e. (e ≡ EmitError.BadRegister) × (ok ≡ false)) }
{
    let base = general(b1)?;
    let bits = i2.cast_unsigned();
    Ok(six([
        high_byte(opcode),
        low_byte(opcode),
        nibbles(base, (d1 / 256) as u8),
        (d1 % 256) as u8,
        high_byte(bits),
        low_byte(bits),
    ]))
}

/// The code of an instruction of format SIY. `BadRegister` comes where a register is not of its operand's class.
///
/// ```text
/// 0       8   16  20    32   40      48
/// opcode  i2  b1  dl1   dh1  opcode
/// ```
pub fn enc_siy(opcode: u16, b1: Reg, d1: u32, i2: u8) -> Result<Code, EmitError>
    requires { d1 < 1048576 }
    ensures { let ok = is_general_class b1 in
        MatchResult result
        (λ code. (ok ≡ true)
        × IsCode FormatKind.Siy (slots opcode (number_of b1 ∷ []) (i2 ∷ []) 0 d1) code)
        (λ e. (e ≡ EmitError.BadRegister) × (ok ≡ false)) }
{
    let base = general(b1)?;
    Ok(six([
        high_byte(opcode),
        i2,
        nibbles(base, (d1 % 4096 / 256) as u8),
        (d1 % 256) as u8,
        (d1 / 4096) as u8,
        low_byte(opcode),
    ]))
}
