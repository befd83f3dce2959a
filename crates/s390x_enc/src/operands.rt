//! Register operands as the numbers that stand in an instruction.
ghost use Rattle.std.specs.Prelude.{◌≡◌, ◌≢◌, ◌+◌, ◌*◌, ◌/◌, ◌%◌, ◌^◌, ◌<◌, true, false, MatchResult, MatchOption};
ghost use Rattle.s390x_base.specs.Regs.{number_of};
ghost use Rattle.s390x_enc.specs.Operands.{is_general_class, is_float, is_vector, is_first_float, is_second_float, may_stand_first, may_stand_second, high_bit, is_vector_or_none, rxb_of};
ghost use Rattle.s390x_base.specs.declared.error.EmitError.{EmitError};

use s390x_base::{EmitError, Reg, RegClass};
use s390x_rows::opcodes;

/// The number of a general register. `BadRegister` comes where a register is not one of the operand's class.
#[inline(always)]
pub fn general(r: Reg) -> Result<u8, EmitError>
    ensures { MatchResult result
        (λ n. (is_general_class r ≡ true) × (n ≡ number_of r) × (n < 2 ^ 4))
        (λ e. (e ≡ EmitError.BadRegister) × (is_general_class r ≡ false)) }
{
    match r {
        Reg::Real(preg) => {
            let number = preg.hw_enc();
            match preg.class() {
                RegClass::Int => Ok(number),
                RegClass::Float => Err(EmitError::BadRegister),
            }
        }
        Reg::Virtual { .. } => Err(EmitError::BadRegister),
    }
}

/// The number of a vector register. `BadRegister` comes where a register is not one of the operand's class.
#[inline(always)]
pub fn vector(r: Reg) -> Result<u8, EmitError>
    ensures { MatchResult result (λ n. (is_vector r ≡ true) × (n ≡ number_of r) × (n < 2 ^ 5))
        (λ e. (e ≡ EmitError.BadRegister) × (is_vector r ≡ false)) }
{
    match r {
        Reg::Real(preg) => {
            let number = preg.hw_enc();
            match preg.class() {
                RegClass::Int => Err(EmitError::BadRegister),
                RegClass::Float => Ok(number),
            }
        }
        Reg::Virtual { .. } => Err(EmitError::BadRegister),
    }
}

/// The number of a float register: a Float register below 16. `BadRegister` comes where a register is not one of the
/// operand's class.
pub fn float(r: Reg) -> Result<u8, EmitError>
    ensures { MatchResult result (λ n. (is_float r ≡ true) × (n ≡ number_of r) × (n < 2 ^ 4))
        (λ e. (e ≡ EmitError.BadRegister) × (is_float r ≡ false)) }
{
    match r {
        Reg::Real(preg) => {
            let number = preg.hw_enc();
            match preg.class() {
                RegClass::Int => Err(EmitError::BadRegister),
                RegClass::Float => {
                    if number < 16 {
                        Ok(number)
                    } else {
                        Err(EmitError::BadRegister)
                    }
                }
            }
        }
        Reg::Virtual { .. } => Err(EmitError::BadRegister),
    }
}

/// Whether the opcode's first register operand is a float register.
fn first_is_float(opcode: u16) -> bool
    ensures { result ≡ is_first_float opcode }
{
    opcode == opcodes::LDR
        || opcode == opcodes::LER
        || opcode == opcodes::STD
        || opcode == opcodes::LD
        || opcode == opcodes::STE
        || opcode == opcodes::LE
        || opcode == opcodes::LEY
        || opcode == opcodes::LDY
        || opcode == opcodes::STEY
        || opcode == opcodes::STDY
        || opcode == opcodes::LDGR
}

/// Whether the opcode's second register operand is a float register.
fn second_is_float(opcode: u16) -> bool
    ensures { result ≡ is_second_float opcode }
{
    opcode == opcodes::LDR || opcode == opcodes::LER || opcode == opcodes::LGDR
}

/// The number of the first operand of an instruction on general and float registers. `BadRegister` comes where a
/// register is not one of the operand's class.
#[inline(always)]
pub fn first(opcode: u16, r: Reg) -> Result<u8, EmitError>
    ensures { MatchResult result
        (λ n. (may_stand_first opcode r ≡ true) × (n ≡ number_of r) × (n < 2 ^ 4))
        (λ e. (e ≡ EmitError.BadRegister) × (may_stand_first opcode r ≡ false)) }
{
    if first_is_float(opcode) {
        float(r)
    } else {
        general(r)
    }
}

/// The number of the second operand of an instruction on general and float registers. `BadRegister` comes where a
/// register is not one of the operand's class.
pub fn second(opcode: u16, r: Reg) -> Result<u8, EmitError>
    ensures { MatchResult result
        (λ n. (may_stand_second opcode r ≡ true) × (n ≡ number_of r) × (n < 2 ^ 4))
        (λ e. (e ≡ EmitError.BadRegister) × (may_stand_second opcode r ≡ false)) }
{
    if second_is_float(opcode) {
        float(r)
    } else {
        general(r)
    }
}

/// The bits above the four low ones of the numbers of up to four vector registers, at 8, 4, 2, 1. 0
/// stands where there is none.
pub fn high_bits(n1: u8, n2: u8, n3: u8, n4: u8) -> u8
    requires n1 { n1 < 2 ^ 5 }
    requires n2 { n2 < 2 ^ 5 }
    requires n3 { n3 < 2 ^ 5 }
    requires n4 { n4 < 2 ^ 5 }
    ensures value { result ≡ 8 * (n1 / 16) + 4 * (n2 / 16) + 2 * (n3 / 16) + n4 / 16 }
    ensures below { result < 2 ^ 4 }
{
    8 * (n1 / 16) + 4 * (n2 / 16) + 2 * (n3 / 16) + n4 / 16
}

/// 1 where a register of 16 and above is given.
fn high_bit_of(r: Option<Reg>) -> u8
    requires { is_vector_or_none r ≡ true }
    ensures value { result ≡ high_bit r }
    ensures bit { result < 2 }
{
    match r {
        Some(reg) => match vector(reg) {
            Ok(number) => number / 16,
            Err(_) => 0,
        },
        None => 0,
    }
}

/// The four bits that complete the numbers of the vector registers of an instruction: the sum of
/// 8, 4, 2, 1 for those given with a number of 16 and above (Principles of Operation, chapter 21,
/// "RXB"). Each one given is real and Float.
pub fn rxb(v1: Option<Reg>, v2: Option<Reg>, v3: Option<Reg>, v4: Option<Reg>) -> u8
    requires v1 { is_vector_or_none v1 ≡ true }
    requires v2 { is_vector_or_none v2 ≡ true }
    requires v3 { is_vector_or_none v3 ≡ true }
    requires v4 { is_vector_or_none v4 ≡ true }
    ensures value { result ≡ rxb_of v1 v2 v3 v4 }
    ensures below { result < 2 ^ 4 }
{
    8 * high_bit_of(v1) + 4 * high_bit_of(v2) + 2 * high_bit_of(v3) + high_bit_of(v4)
}
