//! What several instructions have in common that are one machine instruction: which registers they name, and their format.
ghost use Rattle.std.specs.Prelude.{◌≡◌, ◌&&◌, true};
ghost use Rattle.std.specs.Option.{option_map};
ghost use Rattle.s390x_base.specs.Regs.{number_of};
ghost use Rattle.s390x_typed_steps.specs.General.{is_general, reuses, low_halfword, low_word};
ghost use Rattle.s390x_typed_steps.specs.SingleCode.{single_code};
ghost use Rattle.s390x_typed_steps.specs.SingleInstruction.{single_with, two_row, halfword_row, word_row};
ghost use Rattle.s390x_emit_rows.specs.SingleInstruction.{opcode_of, takes_general};

use crate::codes::{halfword, two_operands, word};
use crate::opcode::ShortOpcode;
use crate::registers::{is_reused, two_general};
use s390x_address::general;
use s390x_base::{Code, EmitError, Reg, Writable};
use s390x_typed_steps::{bits_of_halfword, bits_of_word};

/// Two registers, where there is a row. None where there is no row; `BadRegister` comes where a register is not
/// general, or an input that has to be the output isn't it.
#[tactic(auto, using(crate::proofs::Encoding::itself))]
pub fn encode_rr(opcode: Option<u16>, r1: &Reg, r2: &Reg) -> Option<Result<Code, EmitError>>
    requires { takes_general opcode ≡ true }
    ensures { result
        ≡ single_code
        (single_with (is_general r1.now && is_general r2.now)
        (two_row opcode (number_of r1.now) (number_of r2.now))) }
{
    match opcode {
        Some(opcode) => Some(two_operands(two_general(r1, r2), opcode, *r1, *r2)),
        None => None,
    }
}

/// The code of a row of two registers of which the first is written, where the operator has an opcode; `BadRegister`
/// where one is not general.
pub fn encode_rr_into(
    opcode: Option<u16>,
    rd: &Writable<Reg>,
    rn: &Reg,
) -> Option<Result<Code, EmitError>>
    requires { takes_general opcode ≡ true }
    ensures { result
        ≡ single_code
        (single_with (is_general rd.now && is_general rn.now)
        (two_row opcode (number_of rd.now) (number_of rn.now))) }
{
    encode_rr(opcode, &rd.to_reg(), rn)
}

/// The code of a row of two registers of which the first is read and written, where the operator has an opcode;
/// `BadRegister` where the input isn't the output, or one is not general.
#[tactic(auto, using(crate::proofs::Encoding::reused_pair_general))]
pub fn encode_rr_reused(
    opcode: Option<u16>,
    rd: &Writable<Reg>,
    ri: &Reg,
    rm: &Reg,
) -> Option<Result<Code, EmitError>>
    requires { takes_general opcode ≡ true }
    ensures { result
        ≡ single_code
        (single_with (reuses rd.now ri.now && is_general rm.now)
        (two_row opcode (number_of rd.now) (number_of rm.now))) }
{
    let output = rd.to_reg();
    match opcode {
        Some(opcode) => Some(two_operands(
            is_reused(&output, ri) && general(rm),
            opcode,
            output,
            *rm,
        )),
        None => None,
    }
}

/// A register and the bits of an immediate of 16 bits, where there is a row. None where there is no row;
/// `BadRegister` comes where a register is not general, or an input that has to be the output isn't it.
#[tactic(auto, using(crate::proofs::Encoding::itself))]
pub fn encode_ri(opcode: Option<ShortOpcode>, r1: &Reg, imm: u16) -> Option<Result<Code, EmitError>>
    ensures { result
        ≡ single_code
        (single_with (is_general r1.now)
        (halfword_row (option_map opcode_of opcode) (number_of r1.now) imm)) }
{
    match opcode {
        Some(opcode) => Some(halfword(general(r1), opcode, *r1, imm)),
        None => None,
    }
}

/// The code of a row (RI) of a register that is written and an immediate of 16 bits, where the operator has an
/// opcode; `BadRegister` where the register is not general.
pub fn encode_ri_into(
    opcode: Option<ShortOpcode>,
    rd: &Writable<Reg>,
    imm: u16,
) -> Option<Result<Code, EmitError>>
    ensures { result
        ≡ single_code
        (single_with (is_general rd.now)
        (halfword_row (option_map opcode_of opcode) (number_of rd.now) imm)) }
{
    encode_ri(opcode, &rd.to_reg(), imm)
}

/// The code of a row (RI) of a register that is written and a signed immediate of 16 bits, where the operator has an
/// opcode; `BadRegister` where the register is not general.
pub fn encode_signed_ri_into(
    opcode: Option<ShortOpcode>,
    rd: &Writable<Reg>,
    imm: &i16,
) -> Option<Result<Code, EmitError>>
    ensures { result
        ≡ single_code
        (single_with (is_general rd.now)
        (halfword_row (option_map opcode_of opcode) (number_of rd.now)
        (low_halfword imm.now))) }
{
    encode_ri_into(opcode, rd, bits_of_halfword(*imm))
}

/// The code of a row (RI) of a register that is read and written and a signed immediate of 16 bits, where the
/// operator has an opcode; `BadRegister` where the input isn't the output.
#[tactic(auto, using(crate::proofs::Encoding::reused_general))]
pub fn encode_ri_reused(
    opcode: Option<ShortOpcode>,
    rd: &Writable<Reg>,
    ri: &Reg,
    imm: u16,
) -> Option<Result<Code, EmitError>>
    ensures { result
        ≡ single_code
        (single_with (reuses rd.now ri.now)
        (halfword_row (option_map opcode_of opcode) (number_of rd.now) imm)) }
{
    let output = rd.to_reg();
    match opcode {
        Some(opcode) => Some(halfword(is_reused(&output, ri), opcode, output, imm)),
        None => None,
    }
}

/// A register and the bits of an immediate of 32 bits, where there is a row. None where there is no row;
/// `BadRegister` comes where a register is not general, or an input that has to be the output isn't it.
#[tactic(auto, using(crate::proofs::Encoding::itself))]
pub fn encode_ril(
    opcode: Option<ShortOpcode>,
    r1: &Reg,
    imm: u32,
) -> Option<Result<Code, EmitError>>
    ensures { result
        ≡ single_code
        (single_with (is_general r1.now)
        (word_row (option_map opcode_of opcode) (number_of r1.now) imm)) }
{
    match opcode {
        Some(opcode) => Some(word(general(r1), opcode, *r1, imm)),
        None => None,
    }
}

/// The code of a row (RIL) of a register that is written and an immediate of 32 bits, where the operator has an
/// opcode; `BadRegister` where the register is not general.
pub fn encode_ril_into(
    opcode: Option<ShortOpcode>,
    rd: &Writable<Reg>,
    imm: u32,
) -> Option<Result<Code, EmitError>>
    ensures { result
        ≡ single_code
        (single_with (is_general rd.now)
        (word_row (option_map opcode_of opcode) (number_of rd.now) imm)) }
{
    encode_ril(opcode, &rd.to_reg(), imm)
}

/// The code of a row (RIL) of a register that is written and a signed immediate of 32 bits, where the operator has an
/// opcode; `BadRegister` where the register is not general.
pub fn encode_signed_ril_into(
    opcode: Option<ShortOpcode>,
    rd: &Writable<Reg>,
    imm: &i32,
) -> Option<Result<Code, EmitError>>
    ensures { result
        ≡ single_code
        (single_with (is_general rd.now)
        (word_row (option_map opcode_of opcode) (number_of rd.now) (low_word imm.now))) }
{
    encode_ril_into(opcode, rd, bits_of_word(*imm))
}

/// The code of a row (RIL) of a register that is read and written and an immediate of 32 bits, where the operator has
/// an opcode; `BadRegister` where the input isn't the output.
#[tactic(auto, using(crate::proofs::Encoding::reused_general))]
pub fn encode_ril_reused(
    opcode: Option<ShortOpcode>,
    rd: &Writable<Reg>,
    ri: &Reg,
    imm: u32,
) -> Option<Result<Code, EmitError>>
    ensures { result
        ≡ single_code
        (single_with (reuses rd.now ri.now)
        (word_row (option_map opcode_of opcode) (number_of rd.now) imm)) }
{
    let output = rd.to_reg();
    match opcode {
        Some(opcode) => Some(word(is_reused(&output, ri), opcode, output, imm)),
        None => None,
    }
}
