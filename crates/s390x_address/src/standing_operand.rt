//! Accesses whose operand has a displacement of its own, and stands in them as it is or with a longer one: their code at once, without a lowering.
ghost use Rattle.std.specs.Prelude.{◌≡◌, ℕ, Bool, Option, None, Some, IfSome, pos};
ghost use Rattle.s390x_base.specs.Regs.{number_of};
ghost use Rattle.s390x_base.specs.AccessFlags.{AccessFlags};
ghost use Rattle.s390x_inst.specs.Emission.{Emission};
ghost use Rattle.s390x_inst.specs.declared.args.MemArg.TheVariants.{BXD12, BXD20};
ghost use Rattle.s390x_typed_steps.specs.General.{low_displacement, low_12};
ghost use Rattle.s390x_typed_steps.specs.MachineInstruction.{bytes_of, rx, rxy, vrx};
ghost use Rattle.s390x_typed_steps.specs.Memory.{RxForm};
ghost use Rattle.s390x_typed_steps.specs.Operands.{resolved_operand};
ghost use Rattle.s390x_address.specs.Lowerings.{IsPlain};
ghost use Rattle.s390x_address.specs.Rows.{storage_form_of};

use crate::rows::{StorageRows, masked_code};
use s390x_base::{Code, Reg, SImm20, UImm12};
use s390x_enc::{enc_rx, enc_rxy};
use s390x_inst::MemArg;
use s390x_typed_steps::{low_12, low_displacement};

// The code of a row of format RX, where its registers may stand there.
#[inline(always)]
fn rx_code(opcode: u8, register: Reg, base: Reg, index: Reg, disp: UImm12) -> Option<Code>
    ensures { IfSome result
        (λ code. code
        ≡ bytes_of
        (rx opcode (number_of register) (number_of base) (number_of index) (low_12 disp))) }
{
    enc_rx(u16::from(opcode), register, base, index, low_12(disp)).ok()
}

// The code of a row of format RXY, where its registers may stand there.
#[inline(always)]
fn rxy_code(opcode: u16, register: Reg, base: Reg, index: Reg, disp: SImm20) -> Option<Code>
    ensures { IfSome result
        (λ code. code
        ≡ bytes_of
        (rxy opcode (number_of register) (number_of base) (number_of index)
        (low_displacement disp))) }
{
    enc_rxy(opcode, register, base, index, low_displacement(disp)).ok()
}

// The code at a displacement of 12 bits by a row of format RXY, where an instruction has that and none of format RX.
#[inline(always)]
fn widened_code(
    opcode: Option<u16>,
    register: Reg,
    base: Reg,
    index: Reg,
    disp: UImm12,
) -> Option<Code>
    ensures { (ril_opcode : Option ℕ) (accesses operands_valid reads_scratch : Bool)
        (flags : AccessFlags)
        → IfSome result
        (λ code. IsPlain
        (record {
          form = RxForm (number_of register) None opcode ril_opcode;
          operand = BXD12 base index disp flags;
          accesses = accesses;
          operands_valid = operands_valid;
          reads_scratch = reads_scratch;
        }) code) }
{
    let opcode = opcode?;
    rxy_code(opcode, register, base, index, SImm20::from_uimm12(disp))
}

// The code at a displacement of 12 bits by the shorter row with a general register that there is.
#[inline(always)]
fn shorter_code(
    short_opcode: Option<u8>,
    long_opcode: Option<u16>,
    register: Reg,
    base: Reg,
    index: Reg,
    disp: UImm12,
) -> Option<Code>
    ensures { (ril_opcode : Option ℕ) (accesses operands_valid reads_scratch : Bool)
        (flags : AccessFlags)
        → IfSome result
        (λ code. IsPlain
        (record {
          form = RxForm (number_of register) short_opcode long_opcode ril_opcode;
          operand = BXD12 base index disp flags;
          accesses = accesses;
          operands_valid = operands_valid;
          reads_scratch = reads_scratch;
        }) code) }
{
    match short_opcode {
        Some(opcode) => rx_code(opcode, register, base, index, disp),
        None => widened_code(long_opcode, register, base, index, disp),
    }
}

// The code of a row of format VRX, where its registers and its mask may stand there.
#[inline(always)]
fn vrx_code(
    opcode: u16,
    register: Reg,
    base: Reg,
    index: Reg,
    disp: UImm12,
    mask: u8,
) -> Option<Code>
    ensures { IfSome result
        (λ code. code
        ≡ bytes_of
        (vrx opcode (number_of register) (number_of base) (number_of index) mask
        (low_12 disp))) }
{
    masked_code(opcode, register, base, index, disp, mask).ok()
}

// The code at a displacement of 12 bits of an instruction by one general or vector register.
#[inline(always)]
fn short_code(rows: &StorageRows, base: Reg, index: Reg, disp: UImm12) -> Option<Code>
    ensures { (accesses operands_valid reads_scratch : Bool) (flags : AccessFlags)
        → IfSome result
        (λ code. IsPlain
        (record {
          form = storage_form_of rows.now;
          operand = BXD12 base index disp flags;
          accesses = accesses;
          operands_valid = operands_valid;
          reads_scratch = reads_scratch;
        }) code) }
{
    match rows {
        StorageRows::OneRegister {
            register,
            rx,
            rxy,
            ..
        } => shorter_code(*rx, *rxy, *register, base, index, disp),
        StorageRows::Vector {
            register,
            vrx,
            mask,
        } => vrx_code(*vrx, *register, base, index, disp, *mask),
        _ => None,
    }
}

// The code at a displacement of 20 bits of an instruction by one general register, where it has a row of format RXY.
#[inline(always)]
fn long_code(rows: &StorageRows, base: Reg, index: Reg, disp: SImm20) -> Option<Code>
    ensures { (accesses operands_valid reads_scratch : Bool) (flags : AccessFlags)
        → IfSome result
        (λ code. IsPlain
        (record {
          form = storage_form_of rows.now;
          operand = BXD20 base index disp flags;
          accesses = accesses;
          operands_valid = operands_valid;
          reads_scratch = reads_scratch;
        }) code) }
{
    let StorageRows::OneRegister { register, rxy, .. } = rows else {
        return None;
    };
    match rxy {
        Some(opcode) => rxy_code(*opcode, *register, base, index, disp),
        None => None,
    }
}

/// The code at an operand with a displacement of its own of an instruction by one general or vector register, where its rows take the operand.
#[inline(always)]
pub fn standing_code(rows: &StorageRows, mem: &MemArg) -> Option<Code>
    ensures { (e : Emission) (accesses operands_valid reads_scratch : Bool)
        → IfSome result
        (λ code. IsPlain
        (record {
          form = storage_form_of rows.now;
          operand = resolved_operand e mem.now;
          accesses = accesses;
          operands_valid = operands_valid;
          reads_scratch = reads_scratch;
        }) code) }
{
    match mem {
        MemArg::BXD12 {
            base,
            index,
            disp,
            ..
        } => short_code(rows, *base, *index, *disp),
        MemArg::BXD20 {
            base,
            index,
            disp,
            ..
        } => long_code(rows, *base, *index, *disp),
        _ => None,
    }
}
