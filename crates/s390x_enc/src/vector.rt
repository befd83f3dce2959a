//! The encoding calls for vector instructions. The opcode is written in hex as `ab`, `abc` or `abcd`;
//! registers stand by their numbers modulo 16, and x is the sum of 8, 4, 2, 1 for a vector register
//! of 16 and above in the left half of byte 1, the right half of byte 1, byte 2, byte 4. h is half
//! of a distance; dl and dh are the low 12 and the high 8 bits of a displacement of 20 bits.
//!
//! Each answers `BadRegister` exactly where a register operand isn't real, has another class than
//! the instruction's, or is 16 or above where the instruction takes a float register.
ghost use Rattle.std.specs.Prelude.{◌≡◌, ◌<◌, List, [], ◌∷◌, true, false, ◌&&◌, MatchResult};
ghost use Rattle.s390x_base.specs.declared.error.EmitError.{EmitError};
ghost use Rattle.s390x_base.specs.Regs.{number_of};
ghost use Rattle.s390x_format.specs.declared.kind.FormatKind.{FormatKind};
ghost use Rattle.s390x_format.specs.Encoded.{slots, IsCode};
ghost use Rattle.s390x_enc.specs.Operands.{is_general_class, is_vector};

use crate::bytes::{high_byte, low_byte, nibbles, six};
use crate::operands::{general, high_bits, vector};
use s390x_base::{Code, EmitError, Reg};

/// The code of an instruction of format VRI-A. `BadRegister` comes where a register is not of its operand's class.
///
/// ```text
/// 0       8   12  16      32  36   40      48
/// opcode  v1  0   i2      m3  rxb  opcode
/// ```
pub fn enc_vri_a(opcode: u16, v1: Reg, i2: u16, m3: u8) -> Result<Code, EmitError>
    requires { m3 < 16 }
    ensures { let ok = is_vector v1 in
        MatchResult result
        (λ code. (ok ≡ true)
        × IsCode FormatKind.VriA (slots opcode (number_of v1 ∷ []) (m3 ∷ []) i2 0) code)
        (λ e. (e ≡ EmitError.BadRegister) × (ok ≡ false)) }
{
    let n1 = vector(v1)?;
    let x = high_bits(n1, 0, 0, 0);
    Ok(six([
        high_byte(opcode),
        nibbles(n1 % 16, 0),
        high_byte(i2),
        low_byte(i2),
        nibbles(m3, x),
        low_byte(opcode),
    ]))
}

/// The code of an instruction of format VRI-B. `BadRegister` comes where a register is not of its operand's class.
///
/// ```text
/// 0       8   12  16  24  32  36   40      48
/// opcode  v1  0   i2  i3  m4  rxb  opcode
/// ```
pub fn enc_vri_b(opcode: u16, v1: Reg, i2: u8, i3: u8, m4: u8) -> Result<Code, EmitError>
    requires { m4 < 16 }
    ensures { let ok = is_vector v1 in
        MatchResult result
        (λ code. (ok ≡ true)
        × IsCode FormatKind.VriB (slots opcode (number_of v1 ∷ []) (i2 ∷ i3 ∷ m4 ∷ []) 0 0)
        code) (λ e. (e ≡ EmitError.BadRegister) × (ok ≡ false)) }
{
    let n1 = vector(v1)?;
    let x = high_bits(n1, 0, 0, 0);
    Ok(six([
        high_byte(opcode),
        nibbles(n1 % 16, 0),
        i2,
        i3,
        nibbles(m4, x),
        low_byte(opcode),
    ]))
}

/// The code of an instruction of format VRI-C. `BadRegister` comes where a register is not of its operand's class.
///
/// ```text
/// 0       8   12  16      32  36   40      48
/// opcode  v1  v3  i2      m4  rxb  opcode
/// ```
pub fn enc_vri_c(opcode: u16, v1: Reg, i2: u16, v3: Reg, m4: u8) -> Result<Code, EmitError>
    requires { m4 < 16 }
    ensures { let ok = is_vector v1 && is_vector v3 in
        MatchResult result
        (λ code. (ok ≡ true)
        × IsCode FormatKind.VriC
        (slots opcode (number_of v1 ∷ number_of v3 ∷ []) (m4 ∷ []) i2 0) code)
        (λ e. (e ≡ EmitError.BadRegister) × (ok ≡ false)) }
{
    let n1 = vector(v1)?;
    let n3 = vector(v3)?;
    let x = high_bits(n1, n3, 0, 0);
    Ok(six([
        high_byte(opcode),
        nibbles(n1 % 16, n3 % 16),
        high_byte(i2),
        low_byte(i2),
        nibbles(m4, x),
        low_byte(opcode),
    ]))
}

/// The code of an instruction of format VRI-K. `BadRegister` comes where a register is not of its operand's class.
///
/// ```text
/// 0       8   12  16  20  24  32  36   40      48
/// opcode  v1  v2  v3  0   i5  v4  rxb  opcode
/// ```
pub fn enc_vri_k(opcode: u16, i5: u8, v1: Reg, v2: Reg, v3: Reg, v4: Reg) -> Result<Code, EmitError>
    ensures { let ok = is_vector v1 && is_vector v2 && is_vector v3 && is_vector v4 in
        MatchResult result
        (λ code. (ok ≡ true)
        × IsCode FormatKind.VriK
        (slots opcode (number_of v1 ∷ number_of v2 ∷ number_of v3 ∷ number_of v4 ∷ [])
        (i5 ∷ []) 0 0) code) (λ e. (e ≡ EmitError.BadRegister) × (ok ≡ false)) }
{
    let n1 = vector(v1)?;
    let n2 = vector(v2)?;
    let n3 = vector(v3)?;
    let n4 = vector(v4)?;
    let x = high_bits(n1, n2, n3, n4);
    Ok(six([
        high_byte(opcode),
        nibbles(n1 % 16, n2 % 16),
        nibbles(n3 % 16, 0),
        i5,
        nibbles(n4 % 16, x),
        low_byte(opcode),
    ]))
}

/// The code of an instruction of format VRR-A. `BadRegister` comes where a register is not of its operand's class.
///
/// ```text
/// 0       8   12  16  24  28  32  36   40      48
/// opcode  v1  v2  0   m5  m4  m3  rxb  opcode
/// ```
pub fn enc_vrr_a(opcode: u16, v1: Reg, v2: Reg, m3: u8, m4: u8, m5: u8) -> Result<Code, EmitError>
    requires m3 { m3 < 16 }
    requires m4 { m4 < 16 }
    requires m5 { m5 < 16 }
    ensures { let ok = is_vector v1 && is_vector v2 in
        MatchResult result
        (λ code. (ok ≡ true)
        × IsCode FormatKind.VrrA
        (slots opcode (number_of v1 ∷ number_of v2 ∷ []) (m3 ∷ m4 ∷ m5 ∷ []) 0 0) code)
        (λ e. (e ≡ EmitError.BadRegister) × (ok ≡ false)) }
{
    let n1 = vector(v1)?;
    let n2 = vector(v2)?;
    let x = high_bits(n1, n2, 0, 0);
    Ok(six([
        high_byte(opcode),
        nibbles(n1 % 16, n2 % 16),
        0,
        nibbles(m5, m4),
        nibbles(m3, x),
        low_byte(opcode),
    ]))
}

/// The code of an instruction of format VRR-B. `BadRegister` comes where a register is not of its operand's class.
///
/// ```text
/// 0       8   12  16  20  24  28  32  36   40      48
/// opcode  v1  v2  v3  0   m5  0   m4  rxb  opcode
/// ```
pub fn enc_vrr_b(opcode: u16, v1: Reg, v2: Reg, v3: Reg, m4: u8, m5: u8) -> Result<Code, EmitError>
    requires m4 { m4 < 16 }
    requires m5 { m5 < 16 }
    ensures { let ok = is_vector v1 && is_vector v2 && is_vector v3 in
        MatchResult result
        (λ code. (ok ≡ true)
        × IsCode FormatKind.VrrB
        (slots opcode (number_of v1 ∷ number_of v2 ∷ number_of v3 ∷ []) (m4 ∷ m5 ∷ []) 0 0)
        code) (λ e. (e ≡ EmitError.BadRegister) × (ok ≡ false)) }
{
    let n1 = vector(v1)?;
    let n2 = vector(v2)?;
    let n3 = vector(v3)?;
    let x = high_bits(n1, n2, n3, 0);
    Ok(six([
        high_byte(opcode),
        nibbles(n1 % 16, n2 % 16),
        nibbles(n3 % 16, 0),
        nibbles(m5, 0),
        nibbles(m4, x),
        low_byte(opcode),
    ]))
}

/// The code of an instruction of format VRR-C. `BadRegister` comes where a register is not of its operand's class.
///
/// ```text
/// 0       8   12  16  20  24  28  32  36   40      48
/// opcode  v1  v2  v3  0   m6  m5  m4  rxb  opcode
/// ```
pub fn enc_vrr_c(
    opcode: u16,
    v1: Reg,
    v2: Reg,
    v3: Reg,
    m4: u8,
    m5: u8,
    m6: u8,
) -> Result<Code, EmitError>
    requires m4 { m4 < 16 }
    requires m5 { m5 < 16 }
    requires m6 { m6 < 16 }
    ensures { let ok = is_vector v1 && is_vector v2 && is_vector v3 in
        MatchResult result
        (λ code. (ok ≡ true)
        × IsCode FormatKind.VrrC
        (slots opcode (number_of v1 ∷ number_of v2 ∷ number_of v3 ∷ []) (m4 ∷ m5 ∷ m6 ∷ [])
        0 0) code) (λ e. (e ≡ EmitError.BadRegister) × (ok ≡ false)) }
{
    let n1 = vector(v1)?;
    let n2 = vector(v2)?;
    let n3 = vector(v3)?;
    let x = high_bits(n1, n2, n3, 0);
    Ok(six([
        high_byte(opcode),
        nibbles(n1 % 16, n2 % 16),
        nibbles(n3 % 16, 0),
        nibbles(m6, m5),
        nibbles(m4, x),
        low_byte(opcode),
    ]))
}

/// The code of an instruction of format VRR-D. `BadRegister` comes where a register is not of its operand's class.
///
/// ```text
/// 0       8   12  16  20  24  28  32  36   40      48
/// opcode  v1  v2  v3  m5  m6  0   v4  rxb  opcode
/// ```
pub fn enc_vrr_d(
    opcode: u16,
    v1: Reg,
    v2: Reg,
    v3: Reg,
    v4: Reg,
    m5: u8,
    m6: u8,
) -> Result<Code, EmitError>
    requires m5 { m5 < 16 }
    requires m6 { m6 < 16 }
    ensures { let ok = is_vector v1 && is_vector v2 && is_vector v3 && is_vector v4 in
        MatchResult result
        (λ code. (ok ≡ true)
        × IsCode FormatKind.VrrD
        (slots opcode (number_of v1 ∷ number_of v2 ∷ number_of v3 ∷ number_of v4 ∷ [])
        (m5 ∷ m6 ∷ []) 0 0) code) (λ e. (e ≡ EmitError.BadRegister) × (ok ≡ false)) }
{
    let n1 = vector(v1)?;
    let n2 = vector(v2)?;
    let n3 = vector(v3)?;
    let n4 = vector(v4)?;
    let x = high_bits(n1, n2, n3, n4);
    Ok(six([
        high_byte(opcode),
        nibbles(n1 % 16, n2 % 16),
        nibbles(n3 % 16, m5),
        nibbles(m6, 0),
        nibbles(n4 % 16, x),
        low_byte(opcode),
    ]))
}

/// The code of an instruction of format VRR-E. `BadRegister` comes where a register is not of its operand's class.
///
/// ```text
/// 0       8   12  16  20  24  28  32  36   40      48
/// opcode  v1  v2  v3  m6  0   m5  v4  rxb  opcode
/// ```
pub fn enc_vrr_e(
    opcode: u16,
    v1: Reg,
    v2: Reg,
    v3: Reg,
    v4: Reg,
    m5: u8,
    m6: u8,
) -> Result<Code, EmitError>
    requires m5 { m5 < 16 }
    requires m6 { m6 < 16 }
    ensures { let ok = is_vector v1 && is_vector v2 && is_vector v3 && is_vector v4 in
        MatchResult result
        (λ code. (ok ≡ true)
        × IsCode FormatKind.VrrE
        (slots opcode (number_of v1 ∷ number_of v2 ∷ number_of v3 ∷ number_of v4 ∷ [])
        (m5 ∷ m6 ∷ []) 0 0) code) (λ e. (e ≡ EmitError.BadRegister) × (ok ≡ false)) }
{
    let n1 = vector(v1)?;
    let n2 = vector(v2)?;
    let n3 = vector(v3)?;
    let n4 = vector(v4)?;
    let x = high_bits(n1, n2, n3, n4);
    Ok(six([
        high_byte(opcode),
        nibbles(n1 % 16, n2 % 16),
        nibbles(n3 % 16, m6),
        nibbles(0, m5),
        nibbles(n4 % 16, x),
        low_byte(opcode),
    ]))
}

/// The code of an instruction of format VRR-F. `BadRegister` comes where a register is not of its operand's class.
///
/// ```text
/// 0       8   12  16  20  24  32  36   40      48
/// opcode  v1  r2  r3  0   0   0   rxb  opcode
/// ```
pub fn enc_vrr_f(opcode: u16, v1: Reg, r2: Reg, r3: Reg) -> Result<Code, EmitError>
    ensures { let ok = is_vector v1 && is_general_class r2 && is_general_class r3 in
        MatchResult result
        (λ code. (ok ≡ true)
        × IsCode FormatKind.VrrF
        (slots opcode (number_of v1 ∷ number_of r2 ∷ number_of r3 ∷ []) [] 0 0) code)
        (λ e. (e ≡ EmitError.BadRegister) × (ok ≡ false)) }
{
    let n1 = vector(v1)?;
    let n2 = general(r2)?;
    let n3 = general(r3)?;
    let x = high_bits(n1, 0, 0, 0);
    Ok(six([
        high_byte(opcode),
        nibbles(n1 % 16, n2),
        nibbles(n3, 0),
        0,
        nibbles(0, x),
        low_byte(opcode),
    ]))
}

/// The code of an instruction of format VRS-A. `BadRegister` comes where a register is not of its operand's class.
///
/// ```text
/// 0       8   12  16  20    32  36   40      48
/// opcode  v1  v3  b2  d2    m4  rxb  opcode
/// ```
pub fn enc_vrs_a(opcode: u16, v1: Reg, b2: Reg, d2: u32, v3: Reg, m4: u8) -> Result<Code, EmitError>
    requires d2 { d2 < 4096 }
    requires m4 { m4 < 16 }
    ensures { let ok = is_vector v1 && is_general_class b2 && is_vector v3 in
        MatchResult result
        (λ code. (ok ≡ true)
        × IsCode FormatKind.VrsA
        (slots opcode (number_of v1 ∷ number_of b2 ∷ number_of v3 ∷ []) (m4 ∷ []) 0 d2)
        code) (λ e. (e ≡ EmitError.BadRegister) × (ok ≡ false)) }
{
    let n1 = vector(v1)?;
    let base = general(b2)?;
    let n3 = vector(v3)?;
    let x = high_bits(n1, n3, 0, 0);
    Ok(six([
        high_byte(opcode),
        nibbles(n1 % 16, n3 % 16),
        nibbles(base, (d2 / 256) as u8),
        (d2 % 256) as u8,
        nibbles(m4, x),
        low_byte(opcode),
    ]))
}

/// The code of an instruction of format VRS-B. `BadRegister` comes where a register is not of its operand's class.
///
/// ```text
/// 0       8   12  16  20    32  36   40      48
/// opcode  v1  r3  b2  d2    m4  rxb  opcode
/// ```
pub fn enc_vrs_b(opcode: u16, v1: Reg, b2: Reg, d2: u32, r3: Reg, m4: u8) -> Result<Code, EmitError>
    requires d2 { d2 < 4096 }
    requires m4 { m4 < 16 }
    ensures { let ok = is_vector v1 && is_general_class b2 && is_general_class r3 in
        MatchResult result
        (λ code. (ok ≡ true)
        × IsCode FormatKind.VrsB
        (slots opcode (number_of v1 ∷ number_of b2 ∷ number_of r3 ∷ []) (m4 ∷ []) 0 d2)
        code) (λ e. (e ≡ EmitError.BadRegister) × (ok ≡ false)) }
{
    let n1 = vector(v1)?;
    let base = general(b2)?;
    let n3 = general(r3)?;
    let x = high_bits(n1, 0, 0, 0);
    Ok(six([
        high_byte(opcode),
        nibbles(n1 % 16, n3),
        nibbles(base, (d2 / 256) as u8),
        (d2 % 256) as u8,
        nibbles(m4, x),
        low_byte(opcode),
    ]))
}

/// The code of an instruction of format VRS-C. `BadRegister` comes where a register is not of its operand's class.
///
/// ```text
/// 0       8   12  16  20    32  36   40      48
/// opcode  r1  v3  b2  d2    m4  rxb  opcode
/// ```
pub fn enc_vrs_c(opcode: u16, r1: Reg, b2: Reg, d2: u32, v3: Reg, m4: u8) -> Result<Code, EmitError>
    requires d2 { d2 < 4096 }
    requires m4 { m4 < 16 }
    ensures { let ok = is_general_class r1 && is_general_class b2 && is_vector v3 in
        MatchResult result
        (λ code. (ok ≡ true)
        × IsCode FormatKind.VrsC
        (slots opcode (number_of r1 ∷ number_of b2 ∷ number_of v3 ∷ []) (m4 ∷ []) 0 d2)
        code) (λ e. (e ≡ EmitError.BadRegister) × (ok ≡ false)) }
{
    let n1 = general(r1)?;
    let base = general(b2)?;
    let n3 = vector(v3)?;
    let x = high_bits(0, n3, 0, 0);
    Ok(six([
        high_byte(opcode),
        nibbles(n1, n3 % 16),
        nibbles(base, (d2 / 256) as u8),
        (d2 % 256) as u8,
        nibbles(m4, x),
        low_byte(opcode),
    ]))
}

/// The code of an instruction of format VRX. `BadRegister` comes where a register is not of its operand's class.
///
/// ```text
/// 0       8   12  16  20    32  36   40      48
/// opcode  v1  x2  b2  d2    m3  rxb  opcode
/// ```
#[inline(always)]
pub fn enc_vrx(opcode: u16, v1: Reg, b2: Reg, x2: Reg, d2: u32, m3: u8) -> Result<Code, EmitError>
    requires d2 { d2 < 4096 }
    requires m3 { m3 < 16 }
    ensures { let ok = is_vector v1 && is_general_class b2 && is_general_class x2 in
        MatchResult result
        (λ code. (ok ≡ true)
        × IsCode FormatKind.Vrx
        (slots opcode (number_of v1 ∷ number_of b2 ∷ number_of x2 ∷ []) (m3 ∷ []) 0 d2)
        code) (λ e. (e ≡ EmitError.BadRegister) × (ok ≡ false)) }
{
    let n1 = vector(v1)?;
    let base = general(b2)?;
    let index = general(x2)?;
    let x = high_bits(n1, 0, 0, 0);
    Ok(six([
        high_byte(opcode),
        nibbles(n1 % 16, index),
        nibbles(base, (d2 / 256) as u8),
        (d2 % 256) as u8,
        nibbles(m3, x),
        low_byte(opcode),
    ]))
}
