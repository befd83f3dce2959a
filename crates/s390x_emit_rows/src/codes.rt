//! The codes of machine instructions on general registers and immediates, by their formats: each where its registers may stand there.
#![tactic(auto, unfolding(s390x_typed_steps::specs::SingleCode::code_where))]

ghost use Rattle.std.specs.Prelude.{◌≡◌, ◌<◌, ◌&&◌, true, Some};
ghost use Rattle.std.specs.Option.{option_map};
ghost use Rattle.s390x_address.specs.Rows.{has_12_bits};
ghost use Rattle.s390x_base.specs.Regs.{number_of};
ghost use Rattle.s390x_typed_steps.specs.General.{is_general, four_bits, low_displacement};
ghost use Rattle.s390x_typed_steps.specs.MachineInstruction.{rrf_ab, ri_a, rie_a, rie_d, rrf_cde, rie_f, rie_g, ril_a, rsy, rxy};
ghost use Rattle.s390x_typed_steps.specs.SingleCode.{code_where};
ghost use Rattle.s390x_typed_steps.specs.SingleInstruction.{two_operands};
ghost use Rattle.s390x_emit_rows.specs.SingleInstruction.{opcode_of, takes_general, implies};

use crate::opcode::ShortOpcode;
use crate::registers::reveal_number_range;
use s390x_base::{Code, EmitError, Reg, SImm20};
use s390x_enc::{
    enc_ri_a, enc_rie_a, enc_rie_d, enc_rie_f, enc_rie_g, enc_ril_a, enc_rr, enc_rre, enc_rrf_ab,
    enc_rrf_cde, enc_rsy, enc_rxy,
};
use s390x_typed_steps::low_displacement;

/// An opcode of at most three hex digits, as a value that is known to be one.
pub fn short_opcode(value: u16) -> ShortOpcode
    requires { value < 4096 }
    ensures { opcode_of result ≡ value }
{
    ShortOpcode { value }
}

/// An opcode of at most three hex digits, where there is one.
#[tactic(auto, using(crate::proofs::Opcodes::below_12_bits))]
pub fn short_where(value: Option<u16>) -> Option<ShortOpcode>
    requires { has_12_bits value ≡ true }
    ensures { option_map opcode_of result ≡ value }
{
    match value {
        Some(value) => Some(short_opcode(value)),
        None => None,
    }
}

/// The opcode of a row that is there whatever the operator.
pub fn always(value: u16) -> Option<ShortOpcode>
    requires { value < 4096 }
    ensures { option_map opcode_of result ≡ Some value }
{
    Some(short_opcode(value))
}

/// Two registers. Opcodes of two digits are RR, others RRE. `BadRegister` comes where a register may not stand there.
pub fn two_operands(valid: bool, opcode: u16, r1: Reg, r2: Reg) -> Result<Code, EmitError>
    requires general { takes_general (Some opcode) ≡ true }
    requires valid { implies valid (is_general r1 && is_general r2) ≡ true }
    ensures { result ≡ code_where valid (two_operands opcode (number_of r1) (number_of r2)) }
{
    if !valid {
        Err(EmitError::BadRegister)
    } else if opcode < 256 {
        enc_rr(opcode, r1, r2)
    } else {
        enc_rre(opcode, r1, r2)
    }
}

/// Three registers. The encoding call asks itself whether they are general. `BadRegister` comes where a register may
/// not stand there.
pub fn three_operands(opcode: u16, r1: &Reg, r2: &Reg, r3: &Reg) -> Result<Code, EmitError>
    ensures { result
        ≡ code_where (is_general r1.now && is_general r2.now && is_general r3.now)
        (rrf_ab opcode (number_of r1.now) (number_of r2.now) (number_of r3.now) 0) }
{
    reveal_number_range(r1);
    reveal_number_range(r2);
    reveal_number_range(r3);
    enc_rrf_ab(opcode, *r1, *r2, *r3, 0)
}

/// A register and the bits of an immediate of 16 bits. `BadRegister` comes where a register may not stand there.
pub fn halfword(valid: bool, opcode: ShortOpcode, r1: Reg, imm: u16) -> Result<Code, EmitError>
    requires { implies valid (is_general r1) ≡ true }
    ensures { result ≡ code_where valid (ri_a (opcode_of opcode) (number_of r1) imm) }
{
    if valid {
        enc_ri_a(opcode.value, r1, imm)
    } else {
        Err(EmitError::BadRegister)
    }
}

/// Two registers and the bits of an immediate of 16 bits. `BadRegister` comes where a register may not stand there.
pub fn two_and_halfword(
    valid: bool,
    opcode: u16,
    r1: Reg,
    r3: Reg,
    imm: u16,
) -> Result<Code, EmitError>
    requires { implies valid (is_general r1 && is_general r3) ≡ true }
    ensures { result ≡ code_where valid (rie_d opcode (number_of r1) (number_of r3) imm) }
{
    if valid {
        enc_rie_d(opcode, r1, r3, imm)
    } else {
        Err(EmitError::BadRegister)
    }
}

/// A register and the bits of an immediate of 32 bits. `BadRegister` comes where a register may not stand there.
pub fn word(valid: bool, opcode: ShortOpcode, r1: Reg, imm: u32) -> Result<Code, EmitError>
    requires { implies valid (is_general r1) ≡ true }
    ensures { result ≡ code_where valid (ril_a (opcode_of opcode) (number_of r1) imm) }
{
    if valid {
        enc_ril_a(opcode.value, r1, imm)
    } else {
        Err(EmitError::BadRegister)
    }
}

/// Two registers and a mask of 4 bits. `BadRegister` comes where a register may not stand there.
pub fn masked_code(valid: bool, opcode: u16, r1: Reg, r2: Reg, mask: u8) -> Result<Code, EmitError>
    requires { implies valid (is_general r1 && is_general r2) ≡ true }
    ensures { result
        ≡ code_where valid (rrf_cde opcode (number_of r1) (number_of r2) (four_bits mask) 0) }
{
    if valid {
        enc_rrf_cde(opcode, r1, r2, mask % 16, 0)
    } else {
        Err(EmitError::BadRegister)
    }
}

/// A register, the bits of an immediate of 16 bits, and a mask of 4 bits that says when it traps. `BadRegister` comes
/// where a register may not stand there.
pub fn masked_halfword(
    valid: bool,
    opcode: u16,
    r1: Reg,
    imm: u16,
    mask: u8,
) -> Result<Code, EmitError>
    requires { implies valid (is_general r1) ≡ true }
    ensures { result ≡ code_where valid (rie_a opcode (number_of r1) imm (four_bits mask)) }
{
    if valid {
        enc_rie_a(opcode, r1, imm, mask % 16)
    } else {
        Err(EmitError::BadRegister)
    }
}

/// The code of a row (RIE-G) of a register and an immediate of 16 bits, with a mask that says when the register is
/// written. An error comes where the register is not general.
pub fn conditional_halfword(
    valid: bool,
    opcode: u16,
    r1: Reg,
    imm: u16,
    mask: u8,
) -> Result<Code, EmitError>
    requires { implies valid (is_general r1) ≡ true }
    ensures { result ≡ code_where valid (rie_g opcode (number_of r1) imm (four_bits mask)) }
{
    if valid {
        enc_rie_g(opcode, r1, imm, mask % 16)
    } else {
        Err(EmitError::BadRegister)
    }
}

/// The first and the last of the bits that a rotation selects, as a row has them.
#[derive(Clone, Copy)]
pub struct BitRange {
    pub start: u8,
    pub end: u8,
}

/// Two registers, and the bits that are selected of the second one once it is rotated. `BadRegister` comes where a
/// register may not stand there.
pub fn selected_code(
    valid: bool,
    opcode: u16,
    r1: Reg,
    r2: Reg,
    bits: BitRange,
    rotated: u8,
) -> Result<Code, EmitError>
    requires { implies valid (is_general r1 && is_general r2) ≡ true }
    ensures { result
        ≡ code_where valid
        (rie_f opcode (number_of r1) (number_of r2) bits.start bits.end rotated) }
{
    if valid {
        enc_rie_f(opcode, r1, r2, bits.start, bits.end, rotated)
    } else {
        Err(EmitError::BadRegister)
    }
}

/// Two registers, and an amount that is the sum of another register and a number. `BadRegister` comes where a
/// register may not stand there.
pub fn shifted_code(
    valid: bool,
    opcode: u16,
    r1: Reg,
    r3: Reg,
    b2: Reg,
    amount: u8,
) -> Result<Code, EmitError>
    requires { implies valid (is_general r1 && is_general r3 && is_general b2) ≡ true }
    ensures { result
        ≡ code_where valid (rsy opcode (number_of r1) (number_of r3) (number_of b2) amount) }
{
    if valid {
        enc_rsy(opcode, r1, r3, b2, u32::from(amount))
    } else {
        Err(EmitError::BadRegister)
    }
}

/// A register, and the address of a base, an index and a displacement. `BadRegister` comes where a register may not
/// stand there.
pub fn indexed_code(
    valid: bool,
    opcode: u16,
    r1: Reg,
    b2: Reg,
    x2: Reg,
    displacement: SImm20,
) -> Result<Code, EmitError>
    requires general { takes_general (Some opcode) ≡ true }
    requires valid { implies valid (is_general r1 && is_general b2 && is_general x2) ≡ true }
    ensures { result
        ≡ code_where valid
        (rxy opcode (number_of r1) (number_of b2) (number_of x2)
        (low_displacement displacement)) }
{
    if valid {
        enc_rxy(opcode, r1, b2, x2, low_displacement(displacement))
    } else {
        Err(EmitError::BadRegister)
    }
}
