//! The codes of machine instructions on vectors, by their formats: each where its registers may stand there.
#![tactic(auto, unfolding(s390x_typed_steps::specs::SingleCode::code_where))]

ghost use Rattle.std.specs.Prelude.{◌≡◌, ◌<◌, ◌&&◌, true, nat_lt};
ghost use Rattle.s390x_base.specs.Regs.{number_of};
ghost use Rattle.s390x_enc.specs.Operands.{is_first_float, is_second_float};
ghost use Rattle.s390x_rows.specs.declared.opcodes.TheConstants as opcodes;
ghost use Rattle.s390x_typed_steps.specs.MachineInstruction.{rr, rre, vri_a, vri_b, vri_c, vri_k, vrr_a, vrr_b, vrr_c, vrr_d, vrr_e, vrr_f, vrs_a, vrs_b, vrs_c};
ghost use Rattle.s390x_typed_steps.specs.SingleCode.{code_where};
ghost use Rattle.s390x_typed_steps.specs.General.{is_general};
ghost use Rattle.s390x_typed_steps.specs.VectorInstruction.{is_float_doubleword, is_vector, move_left_row, reuses_vector};

use s390x_base::{Code, EmitError, Reg, RegClass};
use s390x_enc::{
    enc_rr, enc_rre, enc_vri_a, enc_vri_b, enc_vri_c, enc_vri_k, enc_vrr_a, enc_vrr_b, enc_vrr_c,
    enc_vrr_d, enc_vrr_e, enc_vrr_f, enc_vrs_a, enc_vrs_b, enc_vrs_c,
};
use s390x_rows::opcodes;
use s390x_typed_steps::VectorOpcode;

/// A real vector register.
pub fn vector(r: &Reg) -> bool
    ensures { result ≡ is_vector r.now }
{
    match r {
        Reg::Real(preg) => preg.class() == RegClass::Float && preg.hw_enc() < 32,
        Reg::Virtual { .. } => false,
    }
}

/// The number, of a virtual register too.
pub fn number(r: &Reg) -> u32
    ensures { result ≡ number_of r.now }
{
    match r {
        Reg::Real(preg) => u32::from(preg.hw_enc()),
        Reg::Virtual { num, .. } => *num,
    }
}

// A real general register.
fn general(r: &Reg) -> bool
    ensures { result ≡ is_general r.now }
{
    match r {
        Reg::Real(preg) => preg.class() == RegClass::Int && preg.hw_enc() < 16,
        Reg::Virtual { .. } => false,
    }
}

fn two_valid(a: &Reg, b: &Reg) -> bool
    ensures { result ≡ is_vector a.now && is_vector b.now }
{
    vector(a) && vector(b)
}

fn three_valid(a: &Reg, b: &Reg, c: &Reg) -> bool
    ensures { result ≡ is_vector a.now && is_vector b.now && is_vector c.now }
{
    vector(a) && vector(b) && vector(c)
}

fn four_valid(a: &Reg, b: &Reg, c: &Reg, d: &Reg) -> bool
    ensures { result ≡ is_vector a.now && is_vector b.now && is_vector c.now && is_vector d.now }
{
    vector(a) && vector(b) && vector(c) && vector(d)
}

fn shift_valid(a: &Reg, b: &Reg, register: &Reg) -> bool
    ensures { result ≡ is_vector a.now && is_vector b.now && is_general register.now }
{
    vector(a) && vector(b) && general(register)
}

/// An input that has to be the output is it.
pub fn reuses(output: &Reg, input: &Reg) -> bool
    ensures { result ≡ reuses_vector output.now input.now }
{
    vector(output) && vector(input) && number(output) == number(input)
}

/// Those of an element that is inserted into a register that is also an input.
pub fn reuse_insert_valid(output: &Reg, input: &Reg, r3: &Reg, base: &Reg) -> bool
    ensures { result
        ≡ reuses_vector output.now input.now && is_general r3.now && is_general base.now }
{
    reuses(output, input) && general(r3) && general(base)
}

/// Those of an element that is inserted.
pub fn insert_valid(v1: &Reg, r3: &Reg, base: &Reg) -> bool
    ensures { result ≡ is_vector v1.now && is_general r3.now && is_general base.now }
{
    vector(v1) && general(r3) && general(base)
}

/// Those of an element that is extracted.
pub fn extract_valid(r1: &Reg, v3: &Reg, base: &Reg) -> bool
    ensures { result ≡ is_general r1.now && is_vector v3.now && is_general base.now }
{
    general(r1) && vector(v3) && general(base)
}

fn join_valid(a: &Reg, b: &Reg, c: &Reg) -> bool
    ensures { result ≡ is_vector a.now && is_general b.now && is_general c.now }
{
    vector(a) && general(b) && general(c)
}

/// Two vector registers, and the code of the elements' size. `BadRegister` comes where a register may not stand
/// there.
pub fn two_vectors(row: VectorOpcode, v1: Reg, v2: Reg) -> Result<Code, EmitError>
    requires { row.code < 16 }
    ensures { result
        ≡ code_where (is_vector v1 && is_vector v2)
        (vrr_a row.opcode (number_of v1) (number_of v2) row.code) }
{
    let valid = two_valid(&v1, &v2);
    if valid {
        enc_vrr_a(row.opcode, v1, v2, row.code, 0, 0)
    } else {
        Err(EmitError::BadRegister)
    }
}

/// Three vector registers, and the code of the elements' size. `BadRegister` comes where a register may not stand
/// there.
pub fn three_vectors(row: VectorOpcode, v1: Reg, v2: Reg, v3: Reg) -> Result<Code, EmitError>
    requires { row.code < 16 }
    ensures { result
        ≡ code_where (is_vector v1 && is_vector v2 && is_vector v3)
        (vrr_c row.opcode (number_of v1) (number_of v2) (number_of v3) row.code) }
{
    let valid = three_valid(&v1, &v2, &v3);
    if valid {
        enc_vrr_c(row.opcode, v1, v2, v3, row.code, 0, 0)
    } else {
        Err(EmitError::BadRegister)
    }
}

/// A comparison of three vector registers' elements, and whether it sets the condition code. `BadRegister` comes
/// where a register may not stand there.
pub fn compared_vectors(
    row: VectorOpcode,
    v1: Reg,
    v2: Reg,
    v3: Reg,
    sets_code: u8,
) -> Result<Code, EmitError>
    requires code { row.code < 16 }
    requires sets_code { sets_code < 16 }
    ensures { result
        ≡ code_where (is_vector v1 && is_vector v2 && is_vector v3)
        (vrr_b row.opcode (number_of v1) (number_of v2) (number_of v3) row.code sets_code) }
{
    let valid = three_valid(&v1, &v2, &v3);
    if valid {
        enc_vrr_b(row.opcode, v1, v2, v3, row.code, sets_code)
    } else {
        Err(EmitError::BadRegister)
    }
}

/// Four vector registers, of a selection or a permutation. `BadRegister` comes where a register may not stand there.
pub fn four_vectors(opcode: u16, v1: Reg, v2: Reg, v3: Reg, v4: Reg) -> Result<Code, EmitError>
    ensures { result
        ≡ code_where (is_vector v1 && is_vector v2 && is_vector v3 && is_vector v4)
        (vrr_e opcode (number_of v1) (number_of v2) (number_of v3) (number_of v4)) }
{
    let valid = four_valid(&v1, &v2, &v3, &v4);
    if valid {
        enc_vrr_e(opcode, v1, v2, v3, v4, 0, 0)
    } else {
        Err(EmitError::BadRegister)
    }
}

/// Four vector registers, of bytes that are blended. `BadRegister` comes where a register may not stand there.
pub fn blended_vectors(v1: Reg, v2: Reg, v3: Reg, v4: Reg) -> Result<Code, EmitError>
    ensures { result
        ≡ code_where (is_vector v1 && is_vector v2 && is_vector v3 && is_vector v4)
        (vrr_d opcodes.VBLEND (number_of v1) (number_of v2) (number_of v3) (number_of v4) 0) }
{
    let valid = four_valid(&v1, &v2, &v3, &v4);
    if valid {
        enc_vrr_d(opcodes::VBLEND, v1, v2, v3, v4, 0, 0)
    } else {
        Err(EmitError::BadRegister)
    }
}

/// Four vector registers and a truth table. `BadRegister` comes where a register may not stand there.
pub fn evaluated_vectors(imm: u8, v1: Reg, v2: Reg, v3: Reg, v4: Reg) -> Result<Code, EmitError>
    ensures { result
        ≡ code_where (is_vector v1 && is_vector v2 && is_vector v3 && is_vector v4)
        (vri_k opcodes.VEVAL imm (number_of v1) (number_of v2) (number_of v3) (number_of v4)) }
{
    let valid = four_valid(&v1, &v2, &v3, &v4);
    if valid {
        enc_vri_k(opcodes::VEVAL, imm, v1, v2, v3, v4)
    } else {
        Err(EmitError::BadRegister)
    }
}

/// Two vector registers, and a base with an amount. `BadRegister` comes where a register may not stand there.
pub fn shifted_vector(
    row: VectorOpcode,
    v1: Reg,
    v3: Reg,
    register: Reg,
    amount: u32,
) -> Result<Code, EmitError>
    requires code { row.code < 16 }
    requires amount { amount < 4096 }
    ensures { result
        ≡ code_where (is_vector v1 && is_vector v3 && is_general register)
        (vrs_a row.opcode (number_of v1) (number_of register) (number_of v3) row.code amount) }
{
    let valid = shift_valid(&v1, &v3, &register);
    if valid {
        enc_vrs_a(row.opcode, v1, register, amount, v3, row.code)
    } else {
        Err(EmitError::BadRegister)
    }
}

/// A vector register and two general ones. `BadRegister` comes where a register may not stand there.
pub fn joined_registers(v1: Reg, r2: Reg, r3: Reg) -> Result<Code, EmitError>
    ensures { result
        ≡ code_where (is_vector v1 && is_general r2 && is_general r3)
        (vrr_f opcodes.VLVGP (number_of v1) (number_of r2) (number_of r3)) }
{
    let valid = join_valid(&v1, &r2, &r3);
    if valid {
        enc_vrr_f(opcodes::VLVGP, v1, r2, r3)
    } else {
        Err(EmitError::BadRegister)
    }
}

/// A vector register and the bits of an immediate of 16 bits, and the code of the elements' size or the number of an
/// element, where the registers may stand there. `BadRegister` comes where a register may not stand there.
pub fn immediate_where(
    valid: bool,
    row: VectorOpcode,
    v1: Reg,
    bits: u16,
) -> Result<Code, EmitError>
    requires code { row.code < 16 }
    requires real { valid ≡ true → is_vector v1 ≡ true }
    ensures { result ≡ code_where valid (vri_a row.opcode (number_of v1) bits row.code) }
{
    if valid {
        enc_vri_a(row.opcode, v1, bits, row.code)
    } else {
        Err(EmitError::BadRegister)
    }
}

/// A vector register and the bits of an immediate of 16 bits, and the code of the elements' size. `BadRegister` comes
/// where a register may not stand there.
pub fn immediate_vector(row: VectorOpcode, v1: Reg, bits: u16) -> Result<Code, EmitError>
    requires { row.code < 16 }
    ensures { result ≡ code_where (is_vector v1) (vri_a row.opcode (number_of v1) bits row.code) }
{
    let valid = vector(&v1);
    immediate_where(valid, row, v1, bits)
}

/// A vector register, a general one, and a base with the number of an element. `BadRegister` comes where a register
/// may not stand there.
pub fn inserted_element(
    valid: bool,
    code: u8,
    v1: Reg,
    r3: Reg,
    base: Reg,
    lane: u8,
) -> Result<Code, EmitError>
    requires code { code < 16 }
    requires real { valid ≡ true → (is_vector v1 && is_general r3 && is_general base) ≡ true }
    ensures { result
        ≡ code_where valid
        (vrs_b opcodes.VLVG (number_of v1) (number_of base) (number_of r3) code lane) }
{
    if valid {
        enc_vrs_b(opcodes::VLVG, v1, base, lane as u32, r3, code)
    } else {
        Err(EmitError::BadRegister)
    }
}

/// A general register, a vector one, and a base with the number of an element. `BadRegister` comes where a register
/// may not stand there.
pub fn extracted_element(
    valid: bool,
    code: u8,
    r1: Reg,
    v3: Reg,
    base: Reg,
    lane: u8,
) -> Result<Code, EmitError>
    requires code { code < 16 }
    requires real { valid ≡ true → (is_general r1 && is_vector v3 && is_general base) ≡ true }
    ensures { result
        ≡ code_where valid
        (vrs_c opcodes.VLGV (number_of r1) (number_of base) (number_of v3) code lane) }
{
    if valid {
        enc_vrs_c(opcodes::VLGV, r1, base, lane as u32, v3, code)
    } else {
        Err(EmitError::BadRegister)
    }
}

/// The leftmost doubleword of a register that is a float register too.
pub fn is_float_doubleword(size: u32, register: u32, base: u32, lane: u8) -> bool
    ensures { result ≡ is_float_doubleword size register base lane }
{
    size == 64 && lane == 0 && base == 0 && register < 16
}

/// A float register gets a general one. `BadRegister` comes where a register may not stand there.
pub fn to_float(valid: bool, v1: Reg, r2: Reg) -> Result<Code, EmitError>
    requires real { valid ≡ true → (is_vector v1 && is_general r2) ≡ true }
    requires low { nat_lt (number_of v1) 16 ≡ true }
    ensures { result ≡ code_where valid (rre opcodes.LDGR (number_of v1) (number_of r2)) }
{
    if valid {
        enc_rre(opcodes::LDGR, v1, r2)
    } else {
        Err(EmitError::BadRegister)
    }
}

/// A general register gets a float one. `BadRegister` comes where a register may not stand there.
pub fn from_float(valid: bool, r1: Reg, v2: Reg) -> Result<Code, EmitError>
    requires real { valid ≡ true → (is_general r1 && is_vector v2) ≡ true }
    requires low { nat_lt (number_of v2) 16 ≡ true }
    ensures { result ≡ code_where valid (rre opcodes.LGDR (number_of r1) (number_of v2)) }
{
    if valid {
        enc_rre(opcodes::LGDR, r1, v2)
    } else {
        Err(EmitError::BadRegister)
    }
}

/// Two vector registers, the number of an element, and the code of the elements' size. `BadRegister` comes where a
/// register may not stand there.
pub fn replicated_lane(code: u8, v1: Reg, v3: Reg, lane: u16) -> Result<Code, EmitError>
    requires { code < 16 }
    ensures { result
        ≡ code_where (is_vector v1 && is_vector v3)
        (vri_c opcodes.VREP (number_of v1) (number_of v3) lane code) }
{
    let valid = two_valid(&v1, &v3);
    if valid {
        enc_vri_c(opcodes::VREP, v1, lane, v3, code)
    } else {
        Err(EmitError::BadRegister)
    }
}

/// A vector register, the numbers of two bits, and the code of the elements' size. `BadRegister` comes where a
/// register may not stand there.
pub fn bit_mask(code: u8, v1: Reg, start: u8, end: u8) -> Result<Code, EmitError>
    requires { code < 16 }
    ensures { result ≡ code_where (is_vector v1) (vri_b opcodes.VGM (number_of v1) start end code) }
{
    let valid = vector(&v1);
    if valid {
        enc_vri_b(opcodes::VGM, v1, start, end, code)
    } else {
        Err(EmitError::BadRegister)
    }
}

fn both_low(a: &Reg, b: &Reg) -> bool
    ensures { result ≡ nat_lt (number_of a.now) 16 && nat_lt (number_of b.now) 16 }
{
    number(a) < 16 && number(b) < 16
}

// Two float registers.
fn moved_float(opcode: u16, v1: Reg, v2: Reg) -> Result<Code, EmitError>
    requires short { opcode < 256 }
    requires first { is_first_float opcode ≡ true }
    requires second { is_second_float opcode ≡ true }
    requires low { (nat_lt (number_of v1) 16 && nat_lt (number_of v2) 16) ≡ true }
    ensures { result
        ≡ code_where (is_vector v1 && is_vector v2) (rr opcode (number_of v1) (number_of v2)) }
{
    let valid = two_valid(&v1, &v2);
    if valid {
        enc_rr(opcode, v1, v2)
    } else {
        Err(EmitError::BadRegister)
    }
}

fn reused_valid(output: &Reg, input: &Reg, source: &Reg) -> bool
    ensures { result ≡ reuses_vector output.now input.now && is_vector source.now }
{
    reuses(output, input) && vector(source)
}

/// A move of the leftmost bits into a register that is also an input. `BadRegister` comes where a register may not
/// stand there.
pub fn reused_left(opcode: u16, v1: Reg, input: Reg, v2: Reg) -> Result<Code, EmitError>
    requires short { opcode < 256 }
    requires first { is_first_float opcode ≡ true }
    requires second { is_second_float opcode ≡ true }
    ensures { result
        ≡ code_where (reuses_vector v1 input && is_vector v2)
        (move_left_row opcode (number_of v1) (number_of v2)) }
{
    let valid = reused_valid(&v1, &input, &v2);
    if valid {
        moved_left(opcode, v1, v2)
    } else {
        Err(EmitError::BadRegister)
    }
}

/// A move of a whole register into one that is also an input. `BadRegister` comes where a register may not stand
/// there.
pub fn reused_whole(v1: Reg, input: Reg, v2: Reg) -> Result<Code, EmitError>
    ensures { result
        ≡ code_where (reuses_vector v1 input && is_vector v2)
        (vrr_a opcodes.VLR (number_of v1) (number_of v2) 0) }
{
    let valid = reused_valid(&v1, &input, &v2);
    if valid {
        let row = VectorOpcode {
            opcode: opcodes::VLR,
            code: 0,
        };
        two_vectors(row, v1, v2)
    } else {
        Err(EmitError::BadRegister)
    }
}

/// A move of the leftmost bits: of two float registers where both are such, else of whole vectors. `BadRegister`
/// comes where a register may not stand there.
pub fn moved_left(opcode: u16, v1: Reg, v2: Reg) -> Result<Code, EmitError>
    requires short { opcode < 256 }
    requires first { is_first_float opcode ≡ true }
    requires second { is_second_float opcode ≡ true }
    ensures { result
        ≡ code_where (is_vector v1 && is_vector v2)
        (move_left_row opcode (number_of v1) (number_of v2)) }
{
    let low = both_low(&v1, &v2);
    if low {
        moved_float(opcode, v1, v2)
    } else {
        let row = VectorOpcode {
            opcode: opcodes::VLR,
            code: 0,
        };
        two_vectors(row, v1, v2)
    }
}
