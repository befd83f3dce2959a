//! The encoding calls for instructions on registers and immediates. The opcode is written in hex as `ab`, `abc` or `abcd`;
//! registers stand by their numbers modulo 16, and x is the sum of 8, 4, 2, 1 for a vector register
//! of 16 and above in the left half of byte 1, the right half of byte 1, byte 2, byte 4. h is half
//! of a distance; dl and dh are the low 12 and the high 8 bits of a displacement of 20 bits.
//!
//! Each answers `BadRegister` exactly where a register operand isn't real, has another class than
//! the instruction's, or is 16 or above where the instruction takes a float register.
ghost use Rattle.std.specs.Prelude.{◌≡◌, ◌/◌, ◌%◌, ◌^◌, ◌<◌, List, [], ◌∷◌, true, false, ◌&&◌, MatchResult, pos, negsuc, ◌≤ℤ◌};
ghost use Rattle.std.specs.Int.RustNames.{int_rem};
ghost use mir.Syntax.{w16};
ghost use Rattle.s390x_format.specs.Distances.{half_of};
ghost use Rattle.s390x_base.specs.declared.error.EmitError.{EmitError};
ghost use Rattle.s390x_base.specs.Regs.{number_of};
ghost use Rattle.s390x_format.specs.declared.kind.FormatKind.{FormatKind};
ghost use Rattle.s390x_format.specs.Encoded.{slots, IsCode};
ghost use Rattle.s390x_enc.specs.Operands.{is_general_class, may_stand_first, may_stand_second};

use crate::bytes::{
    four, half16, half32, high_byte, high_half, low_byte, low_half, nibbles, six, two,
};
use crate::operands::{first, general, second};
use s390x_base::{Code, EmitError, Reg};

/// The code of an instruction of format E. There is never an error.
///
/// ```text
/// 0       16
/// opcode
/// ```
pub fn enc_e(opcode: u16) -> Result<Code, EmitError>
    ensures { MatchResult result (λ code. IsCode FormatKind.E (slots opcode [] [] 0 0) code)
        (λ _. ⊥) }
{
    Ok(two(high_byte(opcode), low_byte(opcode)))
}

/// The code of an instruction of format RI-A. `BadRegister` comes where a register is not of its operand's class.
///
/// ```text
/// 0       8   12      16      32
/// opcode  r1  opcode  i2
/// ```
pub fn enc_ri_a(opcode: u16, r1: Reg, i2: u16) -> Result<Code, EmitError>
    requires { opcode < 2 ^ 12 }
    ensures { let ok = is_general_class r1 in
        MatchResult result
        (λ code. (ok ≡ true)
        × IsCode FormatKind.RiA (slots opcode (number_of r1 ∷ []) [] i2 0) code)
        (λ e. (e ≡ EmitError.BadRegister) × (ok ≡ false)) }
{
    let n1 = general(r1)?;
    Ok(four(
        (opcode / 16) as u8,
        nibbles(n1, (opcode % 16) as u8),
        high_byte(i2),
        low_byte(i2),
    ))
}

/// The code of an instruction of format RI-B. `BadRegister` comes where a register is not of its operand's class.
///
/// ```text
/// 0       8   12      16      32
/// opcode  r1  opcode  ri2
/// ```
pub fn enc_ri_b(opcode: u16, r1: Reg, ri2: i32) -> Result<Code, EmitError>
    requires opcode { opcode < 2 ^ 12 }
    requires low { negsuc 65535 ≤ℤ ri2 }
    requires high { ri2 ≤ℤ pos 65534 }
    requires even { int_rem ri2 (pos 2) ≡ pos 0 }
    ensures { let ok = is_general_class r1 in
        MatchResult result
        (λ code. (ok ≡ true)
        × IsCode FormatKind.RiB (slots opcode (number_of r1 ∷ []) [] (half_of w16 ri2) 0) code)
        (λ e. (e ≡ EmitError.BadRegister) × (ok ≡ false)) }
{
    let n1 = general(r1)?;
    let half = half16(ri2);
    Ok(four(
        (opcode / 16) as u8,
        nibbles(n1, (opcode % 16) as u8),
        high_byte(half),
        low_byte(half),
    ))
}

/// The code of an instruction of format RI-C. There is never an error.
///
/// ```text
/// 0       8   12      16      32
/// opcode  m1  opcode  ri2
/// ```
pub fn enc_ri_c(opcode: u16, m1: u8, ri2: i32) -> Result<Code, EmitError>
    requires opcode { opcode < 2 ^ 12 }
    requires m1 { m1 < 16 }
    requires low { negsuc 65535 ≤ℤ ri2 }
    requires high { ri2 ≤ℤ pos 65534 }
    requires even { int_rem ri2 (pos 2) ≡ pos 0 }
    ensures { MatchResult result
        (λ code. IsCode FormatKind.RiC (slots opcode [] (m1 ∷ []) (half_of w16 ri2) 0) code)
        (λ _. ⊥) }
{
    let half = half16(ri2);
    Ok(four(
        (opcode / 16) as u8,
        nibbles(m1, (opcode % 16) as u8),
        high_byte(half),
        low_byte(half),
    ))
}

/// The code of an instruction of format RIE-A. `BadRegister` comes where a register is not of its operand's class.
///
/// ```text
/// 0       8   12  16      32  36  40      48
/// opcode  r1  0   i2      m3  0   opcode
/// ```
pub fn enc_rie_a(opcode: u16, r1: Reg, i2: u16, m3: u8) -> Result<Code, EmitError>
    requires { m3 < 16 }
    ensures { let ok = is_general_class r1 in
        MatchResult result
        (λ code. (ok ≡ true)
        × IsCode FormatKind.RieA (slots opcode (number_of r1 ∷ []) (m3 ∷ []) i2 0) code)
        (λ e. (e ≡ EmitError.BadRegister) × (ok ≡ false)) }
{
    let n1 = general(r1)?;
    Ok(six([
        high_byte(opcode),
        nibbles(n1, 0),
        high_byte(i2),
        low_byte(i2),
        nibbles(m3, 0),
        low_byte(opcode),
    ]))
}

/// The code of an instruction of format RIE-D. `BadRegister` comes where a register is not of its operand's class.
///
/// ```text
/// 0       8   12  16      32  40      48
/// opcode  r1  r3  i2      0   opcode
/// ```
pub fn enc_rie_d(opcode: u16, r1: Reg, r3: Reg, i2: u16) -> Result<Code, EmitError>
    ensures { let ok = is_general_class r1 && is_general_class r3 in
        MatchResult result
        (λ code. (ok ≡ true)
        × IsCode FormatKind.RieD (slots opcode (number_of r1 ∷ number_of r3 ∷ []) [] i2 0) code)
        (λ e. (e ≡ EmitError.BadRegister) × (ok ≡ false)) }
{
    let n1 = general(r1)?;
    let n3 = general(r3)?;
    Ok(six([
        high_byte(opcode),
        nibbles(n1, n3),
        high_byte(i2),
        low_byte(i2),
        0,
        low_byte(opcode),
    ]))
}

/// The code of an instruction of format RIE-F. `BadRegister` comes where a register is not of its operand's class.
///
/// ```text
/// 0       8   12  16  24  32  40      48
/// opcode  r1  r2  i3  i4  i5  opcode
/// ```
pub fn enc_rie_f(opcode: u16, r1: Reg, r2: Reg, i3: u8, i4: u8, i5: u8) -> Result<Code, EmitError>
    ensures { let ok = is_general_class r1 && is_general_class r2 in
        MatchResult result
        (λ code. (ok ≡ true)
        × IsCode FormatKind.RieF
        (slots opcode (number_of r1 ∷ number_of r2 ∷ []) (i3 ∷ i4 ∷ i5 ∷ []) 0 0) code)
        (λ e. (e ≡ EmitError.BadRegister) × (ok ≡ false)) }
{
    let n1 = general(r1)?;
    let n2 = general(r2)?;
    Ok(six([
        high_byte(opcode),
        nibbles(n1, n2),
        i3,
        i4,
        i5,
        low_byte(opcode),
    ]))
}

/// The code of an instruction of format RIE-G. `BadRegister` comes where a register is not of its operand's class.
///
/// ```text
/// 0       8   12  16      32  40      48
/// opcode  r1  m3  i2      0   opcode
/// ```
pub fn enc_rie_g(opcode: u16, r1: Reg, i2: u16, m3: u8) -> Result<Code, EmitError>
    requires { m3 < 16 }
    ensures { let ok = is_general_class r1 in
        MatchResult result
        (λ code. (ok ≡ true)
        × IsCode FormatKind.RieG (slots opcode (number_of r1 ∷ []) (m3 ∷ []) i2 0) code)
        (λ e. (e ≡ EmitError.BadRegister) × (ok ≡ false)) }
{
    let n1 = general(r1)?;
    Ok(six([
        high_byte(opcode),
        nibbles(n1, m3),
        high_byte(i2),
        low_byte(i2),
        0,
        low_byte(opcode),
    ]))
}

/// The code of an instruction of format RIL-A. `BadRegister` comes where a register is not of its operand's class.
///
/// ```text
/// 0       8   12      16              48
/// opcode  r1  opcode  i2
/// ```
pub fn enc_ril_a(opcode: u16, r1: Reg, i2: u32) -> Result<Code, EmitError>
    requires { opcode < 2 ^ 12 }
    ensures { let ok = is_general_class r1 in
        MatchResult result
        (λ code. (ok ≡ true)
        × IsCode FormatKind.RilA (slots opcode (number_of r1 ∷ []) [] i2 0) code)
        (λ e. (e ≡ EmitError.BadRegister) × (ok ≡ false)) }
{
    let n1 = general(r1)?;
    Ok(six([
        (opcode / 16) as u8,
        nibbles(n1, (opcode % 16) as u8),
        high_byte(high_half(i2)),
        low_byte(high_half(i2)),
        high_byte(low_half(i2)),
        low_byte(low_half(i2)),
    ]))
}

/// The code of an instruction of format RIL-B. `BadRegister` comes where a register is not of its operand's class.
///
/// ```text
/// 0       8   12      16              48
/// opcode  r1  opcode  ri2
/// ```
pub fn enc_ril_b(opcode: u16, r1: Reg, ri2: u32) -> Result<Code, EmitError>
    requires opcode { opcode < 2 ^ 12 }
    requires even { ri2 % 2 ≡ 0 }
    ensures { let ok = is_general_class r1 in
        MatchResult result
        (λ code. (ok ≡ true)
        × IsCode FormatKind.RilB (slots opcode (number_of r1 ∷ []) [] (ri2 / 2) 0) code)
        (λ e. (e ≡ EmitError.BadRegister) × (ok ≡ false)) }
{
    let n1 = general(r1)?;
    let half = half32(ri2);
    Ok(six([
        (opcode / 16) as u8,
        nibbles(n1, (opcode % 16) as u8),
        high_byte(high_half(half)),
        low_byte(high_half(half)),
        high_byte(low_half(half)),
        low_byte(low_half(half)),
    ]))
}

/// The code of an instruction of format RIL-C. There is never an error.
///
/// ```text
/// 0       8   12      16              48
/// opcode  m1  opcode  ri2
/// ```
pub fn enc_ril_c(opcode: u16, m1: u8, ri2: u32) -> Result<Code, EmitError>
    requires opcode { opcode < 2 ^ 12 }
    requires m1 { m1 < 16 }
    requires even { ri2 % 2 ≡ 0 }
    ensures { MatchResult result
        (λ code. IsCode FormatKind.RilC (slots opcode [] (m1 ∷ []) (ri2 / 2) 0) code) (λ _. ⊥) }
{
    let half = half32(ri2);
    Ok(six([
        (opcode / 16) as u8,
        nibbles(m1, (opcode % 16) as u8),
        high_byte(high_half(half)),
        low_byte(high_half(half)),
        high_byte(low_half(half)),
        low_byte(low_half(half)),
    ]))
}

/// The code of an instruction of format RR. `BadRegister` comes where a register is not of its operand's class.
///
/// ```text
/// 0       8   12  16
/// opcode  r1  r2
/// ```
pub fn enc_rr(opcode: u16, r1: Reg, r2: Reg) -> Result<Code, EmitError>
    requires { opcode < 2 ^ 8 }
    ensures { let ok = may_stand_first opcode r1 && may_stand_second opcode r2 in
        MatchResult result
        (λ code. (ok ≡ true)
        × IsCode FormatKind.Rr (slots opcode (number_of r1 ∷ number_of r2 ∷ []) [] 0 0) code)
        (λ e. (e ≡ EmitError.BadRegister) × (ok ≡ false)) }
{
    let n1 = first(opcode, r1)?;
    let n2 = second(opcode, r2)?;
    Ok(two(low_byte(opcode), nibbles(n1, n2)))
}

/// The code of an instruction of format RRE. `BadRegister` comes where a register is not of its operand's class.
///
/// ```text
/// 0       16  24  28  32
/// opcode  0   r1  r2
/// ```
pub fn enc_rre(opcode: u16, r1: Reg, r2: Reg) -> Result<Code, EmitError>
    ensures { let ok = may_stand_first opcode r1 && may_stand_second opcode r2 in
        MatchResult result
        (λ code. (ok ≡ true)
        × IsCode FormatKind.Rre (slots opcode (number_of r1 ∷ number_of r2 ∷ []) [] 0 0) code)
        (λ e. (e ≡ EmitError.BadRegister) × (ok ≡ false)) }
{
    let n1 = first(opcode, r1)?;
    let n2 = second(opcode, r2)?;
    Ok(four(high_byte(opcode), low_byte(opcode), 0, nibbles(n1, n2)))
}

/// The code of an instruction of format RRF-AB. `BadRegister` comes where a register is not of its operand's class.
///
/// ```text
/// 0       16  20  24  28  32
/// opcode  r3  m4  r1  r2
/// ```
pub fn enc_rrf_ab(opcode: u16, r1: Reg, r2: Reg, r3: Reg, m4: u8) -> Result<Code, EmitError>
    requires { m4 < 16 }
    ensures { let ok = is_general_class r1 && is_general_class r2 && is_general_class r3 in
        MatchResult result
        (λ code. (ok ≡ true)
        × IsCode FormatKind.RrfAb
        (slots opcode (number_of r1 ∷ number_of r2 ∷ number_of r3 ∷ []) (m4 ∷ []) 0 0) code)
        (λ e. (e ≡ EmitError.BadRegister) × (ok ≡ false)) }
{
    let n1 = general(r1)?;
    let n2 = general(r2)?;
    let n3 = general(r3)?;
    Ok(four(
        high_byte(opcode),
        low_byte(opcode),
        nibbles(n3, m4),
        nibbles(n1, n2),
    ))
}

/// The code of an instruction of format RRF-CDE. `BadRegister` comes where a register is not of its operand's class.
///
/// ```text
/// 0       16  20  24  28  32
/// opcode  m3  m4  r1  r2
/// ```
pub fn enc_rrf_cde(opcode: u16, r1: Reg, r2: Reg, m3: u8, m4: u8) -> Result<Code, EmitError>
    requires m3 { m3 < 16 }
    requires m4 { m4 < 16 }
    ensures { let ok = is_general_class r1 && is_general_class r2 in
        MatchResult result
        (λ code. (ok ≡ true)
        × IsCode FormatKind.RrfCde
        (slots opcode (number_of r1 ∷ number_of r2 ∷ []) (m3 ∷ m4 ∷ []) 0 0) code)
        (λ e. (e ≡ EmitError.BadRegister) × (ok ≡ false)) }
{
    let n1 = general(r1)?;
    let n2 = general(r2)?;
    Ok(four(
        high_byte(opcode),
        low_byte(opcode),
        nibbles(m3, m4),
        nibbles(n1, n2),
    ))
}
