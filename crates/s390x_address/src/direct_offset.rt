//! Accesses whose offset a displacement holds, or behind the load of an offset: their code at once, without a lowering.
ghost use Rattle.std.specs.Prelude.{◌≡◌, ℕ, [], ◌∷◌, Bool, true, false, Option, Some, None, IfSome, option_map, if◌then◌else◌, pos};
ghost use Rattle.s390x_base.specs.Regs.{number_of};
ghost use Rattle.s390x_base.specs.AccessFlags.{AccessFlags};
ghost use Rattle.s390x_inst.specs.declared.args.MemArg.TheVariants.{RegOffset};
ghost use Rattle.s390x_inst.specs.declared.inst.Inst.TheVariants.{Mov64SImm32};
ghost use Rattle.s390x_typed_steps.specs.General.{low_displacement, low_12, low_halfword};
ghost use Rattle.s390x_typed_steps.specs.MachineInstruction.{bytes_of, rx, rxy, si, siy, sil, vrx};
ghost use Rattle.s390x_typed_steps.specs.Memory.{RxForm, VrxForm, of_opcode};
ghost use Rattle.s390x_typed_steps.specs.Operands.{no_register, scratch, fits_20, is_far};
ghost use Rattle.s390x_address.specs.Lowerings.{IsPlain, IsBehind, IsIndexed};
ghost use Rattle.s390x_address.specs.Rows.{storage_form_of};

use crate::addressing_modes::is_numbered;
use crate::lowering::{immediate, long_displacement, short_displacement};
use crate::rows::{StorageRow, StorageRows, masked_code};
use s390x_base::{Code, Reg, SImm20, UImm12, spilltmp_reg, zero_reg};
use s390x_enc::{enc_rx, enc_rxy, enc_si, enc_siy};
use s390x_typed_steps::{low_12, low_displacement};

// The code of the row of format RX at a base and a displacement, where its registers may stand there.
#[inline(always)]
fn short_code(opcode: u8, register: Reg, base: Reg, disp: UImm12) -> Option<Code>
    ensures { IfSome result
        (λ code. code
        ≡ bytes_of
        (rx opcode (number_of register) (number_of base) (number_of no_register)
        (low_12 disp))) }
{
    enc_rx(u16::from(opcode), register, base, zero_reg(), low_12(disp)).ok()
}

// The code of the row of format RXY at a base and a displacement, where its registers may stand there.
#[inline(always)]
fn long_code(opcode: u16, register: Reg, base: Reg, disp: SImm20) -> Option<Code>
    ensures { IfSome result
        (λ code. code
        ≡ bytes_of
        (rxy opcode (number_of register) (number_of base) (number_of no_register)
        (low_displacement disp))) }
{
    enc_rxy(opcode, register, base, zero_reg(), low_displacement(disp)).ok()
}

// The code of the row of format RXY at an offset, where there is a row and its displacement holds the offset.
#[inline(always)]
fn long_offset_code(opcode: Option<u16>, register: Reg, base: Reg, off: i128) -> Option<Code>
    ensures { IfSome result
        (λ code. (fits_20 off ≡ true)
        × (option_map bytes_of
        (of_opcode
        (λ o. rxy o (number_of register) (number_of base) (number_of no_register)
        (low_displacement off)) opcode) ≡ Some code)) }
{
    let opcode = opcode?;
    let disp = long_displacement(off)?;
    long_code(opcode, register, base, disp)
}

// The code at a base and an offset of an instruction by one general register, where a displacement of its rows holds the offset.
#[inline(always)]
fn register_code(rows: &StorageRows, base: Reg, off: i128) -> Option<Code>
    ensures { (accesses operands_valid reads_scratch : Bool) (flags : AccessFlags)
        → IfSome result
        (λ code. IsPlain
        (record {
          form = storage_form_of rows.now;
          operand = RegOffset base off flags;
          accesses = accesses;
          operands_valid = operands_valid;
          reads_scratch = reads_scratch;
        }) code) }
{
    let StorageRows::OneRegister {
        register,
        rx,
        rxy,
        ..
    } = rows
    else {
        return None;
    };
    match rx {
        Some(opcode) => match short_displacement(off) {
            Some(disp) => short_code(*opcode, *register, base, disp),
            None => long_offset_code(*rxy, *register, base, off),
        },
        None => long_offset_code(*rxy, *register, base, off),
    }
}

// The code of the row of format VRX at a base and a displacement, where its registers and its mask may stand there.
#[inline(always)]
fn vector_code(opcode: u16, register: Reg, base: Reg, disp: UImm12, mask: u8) -> Option<Code>
    ensures { IfSome result
        (λ code. code
        ≡ bytes_of
        (vrx opcode (number_of register) (number_of base) (number_of no_register) mask
        (low_12 disp))) }
{
    masked_code(opcode, register, base, zero_reg(), disp, mask).ok()
}

// The code at a base and an offset of an instruction by one vector register, where the displacement of its row holds the offset.
#[inline(always)]
fn vector_offset_code(rows: &StorageRows, base: Reg, off: i128) -> Option<Code>
    ensures { (accesses operands_valid reads_scratch : Bool) (flags : AccessFlags)
        → IfSome result
        (λ code. IsPlain
        (record {
          form = storage_form_of rows.now;
          operand = RegOffset base off flags;
          accesses = accesses;
          operands_valid = operands_valid;
          reads_scratch = reads_scratch;
        }) code) }
{
    let StorageRows::Vector {
        register,
        vrx,
        mask,
    } = rows
    else {
        return None;
    };
    match short_displacement(off) {
        Some(disp) => vector_code(*vrx, *register, base, disp, *mask),
        None => None,
    }
}

// The code of the row of format SI at a base and a displacement, where its base may stand there.
#[inline(always)]
fn short_byte_code(opcode: u8, base: Reg, disp: UImm12, imm: u8) -> Option<Code>
    ensures { IfSome result
        (λ code. code ≡ bytes_of (si opcode (number_of base) (low_12 disp) imm)) }
{
    enc_si(u16::from(opcode), base, low_12(disp), imm).ok()
}

// The code of the row of format SIY at a base and a displacement, where its base may stand there.
#[inline(always)]
fn long_byte_code(opcode: u16, base: Reg, disp: SImm20, imm: u8) -> Option<Code>
    ensures { IfSome result
        (λ code. code ≡ bytes_of (siy opcode (number_of base) (low_displacement disp) imm)) }
{
    enc_siy(opcode, base, low_displacement(disp), imm).ok()
}

// The code at a base and an offset of an instruction by an immediate of 8 bits, where a displacement of its rows holds the offset.
#[inline(always)]
fn byte_offset_code(rows: &StorageRows, base: Reg, off: i128) -> Option<Code>
    ensures { (accesses operands_valid reads_scratch : Bool) (flags : AccessFlags)
        → IfSome result
        (λ code. IsPlain
        (record {
          form = storage_form_of rows.now;
          operand = RegOffset base off flags;
          accesses = accesses;
          operands_valid = operands_valid;
          reads_scratch = reads_scratch;
        }) code) }
{
    let StorageRows::Byte { imm, si, siy } = rows else {
        return None;
    };
    match short_displacement(off) {
        Some(disp) => short_byte_code(*si, base, disp, *imm),
        None => match long_displacement(off) {
            Some(disp) => long_byte_code(*siy, base, disp, *imm),
            None => None,
        },
    }
}

// The code of the row of format SIL at a base and a displacement, where its base may stand there.
#[inline(always)]
fn halfword_code(opcode: u16, base: Reg, disp: UImm12, imm: i16) -> Option<Code>
    ensures { IfSome result
        (λ code. code
        ≡ bytes_of (sil opcode (number_of base) (low_12 disp) (low_halfword imm))) }
{
    let row = StorageRow::Sil {
        opcode,
        b1: base,
        disp,
        imm,
    };
    row.code().ok()
}

// The code at a base and an offset of an instruction by an immediate of 16 bits, where the displacement of its row holds the offset.
#[inline(always)]
fn halfword_offset_code(rows: &StorageRows, base: Reg, off: i128) -> Option<Code>
    ensures { (accesses operands_valid reads_scratch : Bool) (flags : AccessFlags)
        → IfSome result
        (λ code. IsPlain
        (record {
          form = storage_form_of rows.now;
          operand = RegOffset base off flags;
          accesses = accesses;
          operands_valid = operands_valid;
          reads_scratch = reads_scratch;
        }) code) }
{
    let StorageRows::Halfword { imm, sil } = rows else {
        return None;
    };
    match short_displacement(off) {
        Some(disp) => halfword_code(*sil, base, disp, *imm),
        None => None,
    }
}

/// The code at a base and an offset of an instruction by one general or vector register or an immediate, where a displacement of its rows holds the
/// offset.
#[inline(always)]
pub fn offset_code(rows: &StorageRows, base: Reg, off: i128) -> Option<Code>
    ensures { (accesses operands_valid reads_scratch : Bool) (flags : AccessFlags)
        → IfSome result
        (λ code. IsPlain
        (record {
          form = storage_form_of rows.now;
          operand = RegOffset base off flags;
          accesses = accesses;
          operands_valid = operands_valid;
          reads_scratch = reads_scratch;
        }) code) }
{
    match rows {
        StorageRows::Vector { .. } => vector_offset_code(rows, base, off),
        StorageRows::Byte { .. } => byte_offset_code(rows, base, off),
        StorageRows::Halfword { .. } => halfword_offset_code(rows, base, off),
        _ => register_code(rows, base, off),
    }
}

/// An access behind the load of an offset into `%r1`.
#[derive(Drop)]
pub struct FarAccess {
    pub off: i32,
    pub code: Code,
}

// The code of the row of format RX at a base and the index `%r1`, where its registers may stand there.
#[inline(always)]
fn short_indexed_code(opcode: u8, register: Reg, base: Reg) -> Option<Code>
    ensures { IfSome result
        (λ code. code
        ≡ bytes_of
        (rx opcode (number_of register) (number_of base) (number_of scratch) (low_12 0))) }
{
    let index = spilltmp_reg();
    let disp = low_12(UImm12::zero());
    enc_rx(u16::from(opcode), register, base, index, disp).ok()
}

// The code of the row of format RXY at a base and the index `%r1`, where its registers may stand there.
#[inline(always)]
fn rxy_indexed_code(opcode: u16, register: Reg, base: Reg) -> Option<Code>
    ensures { IfSome result
        (λ code. code
        ≡ bytes_of
        (rxy opcode (number_of register) (number_of base) (number_of scratch)
        (low_displacement (pos 0)))) }
{
    let disp = SImm20::from_uimm12(UImm12::zero());
    enc_rxy(
        opcode,
        register,
        base,
        spilltmp_reg(),
        low_displacement(disp),
    )
    .ok()
}

// Its code, where an instruction has that row and none of format RX.
#[inline(always)]
fn long_indexed_code(opcode: Option<u16>, register: Reg, base: Reg) -> Option<Code>
    ensures { (ril_opcode : Option ℕ) (accesses : Bool) (flags : AccessFlags)
        → IfSome result
        (λ code. IsIndexed (RxForm (number_of register) None opcode ril_opcode) accesses base flags
        code) }
{
    let opcode = opcode?;
    rxy_indexed_code(opcode, register, base)
}

// The code of the shorter row with a general register that there is, at a base and the index `%r1`.
#[inline(always)]
fn register_indexed_code(
    short_opcode: Option<u8>,
    long_opcode: Option<u16>,
    register: Reg,
    base: Reg,
) -> Option<Code>
    ensures { (ril_opcode : Option ℕ) (accesses : Bool) (flags : AccessFlags)
        → IfSome result
        (λ code. IsIndexed (RxForm (number_of register) short_opcode long_opcode ril_opcode)
        accesses base flags code) }
{
    match short_opcode {
        Some(opcode) => short_indexed_code(opcode, register, base),
        None => long_indexed_code(long_opcode, register, base),
    }
}

// The code of the row of format VRX at a base and the index `%r1`, where its registers and its mask may stand there.
#[inline(always)]
fn vector_indexed_code(opcode: u16, register: Reg, base: Reg, mask: u8) -> Option<Code>
    ensures { (accesses : Bool) (flags : AccessFlags)
        → IfSome result
        (λ code. IsIndexed (VrxForm (number_of register) opcode mask) accesses base flags code) }
{
    masked_code(opcode, register, base, spilltmp_reg(), UImm12::zero(), mask).ok()
}

// The code at a base and the index `%r1` of an instruction by one general or vector register.
#[inline(always)]
fn indexed_code(rows: &StorageRows, base: Reg) -> Option<Code>
    ensures { (accesses : Bool) (flags : AccessFlags)
        → IfSome result
        (λ code. IsIndexed (storage_form_of rows.now) accesses base flags code) }
{
    match rows {
        StorageRows::OneRegister {
            register,
            rx,
            rxy,
            ..
        } => register_indexed_code(*rx, *rxy, *register, base),
        StorageRows::Vector {
            register,
            vrx,
            mask,
        } => vector_indexed_code(*vrx, *register, base, *mask),
        _ => None,
    }
}

// The offset that a helper loads, where it is one of these.
#[inline(always)]
fn helper_offset(off: i128) -> Option<i32>
    ensures { result ≡ (if is_far off then Some off else None) }
{
    if short_displacement(off).is_none() && long_displacement(off).is_none() {
        immediate(off)
    } else {
        None
    }
}

/// The access at a base and an offset of an instruction by one general or vector register that doesn't read `%r1`, where a helper loads the offset.
#[inline(always)]
pub fn far_access(rows: &StorageRows, base: Reg, off: i128) -> Option<FarAccess>
    ensures { (accesses operands_valid : Bool) (flags : AccessFlags)
        → IfSome result
        (λ far. IsBehind
        (record {
          form = storage_form_of rows.now;
          operand = RegOffset base off flags;
          accesses = accesses;
          operands_valid = operands_valid;
          reads_scratch = false;
        }) (Mov64SImm32 scratch far.off ∷ []) far.code) }
{
    let imm = helper_offset(off)?;
    if is_numbered(1, &base) {
        return None;
    }
    let code = indexed_code(rows, base)?;
    Some(FarAccess { off: imm, code })
}
