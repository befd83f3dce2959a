//! The load and the store of a doubleword at a register and an offset, which are met most often: by their code at once, with no table of rows between.
#![tactic(auto, using(s390x_buffer::proofs::Extending::extends_on, s390x_buffer::proofs::Extending::extends_same))]

ghost use Rattle.std.specs.Prelude.{◌≡◌, ◌+◌, [], ◌∷◌, ◌++◌, ◌&&◌, pos, true, None, Some, length, OnOk, IfSome, if◌then◌else◌};
ghost use Rattle.s390x_base.specs.Regs.{number_of};
ghost use Rattle.s390x_buffer.specs.Extends.{Extends};
ghost use Rattle.s390x_buffer.specs.State.{put_cause};
ghost use Rattle.s390x_inst.specs.declared.inst.Inst.TheVariants.{Mov64SImm32};
ghost use Rattle.s390x_typed_steps.specs.General.{is_general, low_displacement};
ghost use Rattle.s390x_typed_steps.specs.MachineInstruction.{MachineInstruction, bytes_of, rxy};
ghost use Rattle.s390x_typed_steps.specs.Operands.{scratch, fits_20, is_far};
ghost use Rattle.s390x_typed_steps.specs.Parts.{access_parts, helpers_parts, memory_parts, parts_size};
ghost use Rattle.s390x_address.specs.Appended.{with_parts};
ghost use Rattle.s390x_address.specs.Lowerings.{far_helper};
ghost use Rattle.s390x_emit_int.specs.Doubleword.{opcode_of, instruction_of, reads_scratch, IsPassed};
ghost use Rattle.s390x_emit_int.specs.Room.{OnlyOutOfMemory};

use s390x_address::{general, is_numbered};
use s390x_base::{
    Code, EmitError, MachMemFlags, Reg, SImm20, TrapCode, UImm12, spilltmp_reg, zero_reg,
};
use s390x_buffer::MachBuffer;
use s390x_enc::{enc_ril_a, enc_rxy};
use s390x_rows::opcodes;
use s390x_typed_steps::{bits_of_word, low_displacement};

/// A load of a doubleword into a general register, or a store of one, at a register and an offset.
#[derive(Clone, Copy)]
pub struct Doubleword {
    pub stores: bool,
    pub register: Reg,
    pub base: Reg,
    pub off: i64,
    pub flags: MachMemFlags,
}

// LOAD or STORE (64).
#[inline(always)]
fn opcode_of(access: &Doubleword) -> u16
    ensures { result ≡ opcode_of access.now }
{
    if access.stores {
        opcodes::STG
    } else {
        opcodes::LG
    }
}

// The code of its row at an index and a displacement, where its registers may stand there.
#[inline(always)]
fn row_code(access: &Doubleword, index: Reg, disp: SImm20) -> Option<Code>
    ensures { IfSome result
        (λ code. code
        ≡ bytes_of
        (rxy (opcode_of access.now) (number_of access.now.register)
        (number_of access.now.base) (number_of index) (low_displacement disp))) }
{
    let opcode = opcode_of(access);
    enc_rxy(
        opcode,
        access.register,
        access.base,
        index,
        low_displacement(disp),
    )
    .ok()
}

// Whether its registers may stand there.
#[inline(always)]
fn has_valid_registers(access: &Doubleword) -> bool
    ensures { result ≡ (is_general access.now.register && is_general access.now.base) }
{
    general(&access.register) && general(&access.base)
}

// The offset as a displacement.
#[inline(always)]
fn displacement(off: i64) -> Option<SImm20>
    ensures { result ≡ (if fits_20 off then Some off else None) }
{
    if -524288 <= off && off <= 524287 {
        SImm20::maybe_from_i64(off)
    } else {
        None
    }
}

/// Its code, where its registers may stand there and a displacement holds its offset.
#[inline(always)]
pub fn near_code(access: &Doubleword) -> Option<Code>
    ensures { IfSome result (λ code. IsPassed (instruction_of access.now) [] code) }
{
    if !has_valid_registers(access) {
        return None;
    }
    let disp = displacement(access.off)?;
    row_code(access, zero_reg(), disp)
}

/// Its code behind the load of an offset into `%r1`.
#[derive(Drop)]
pub struct FarDoubleword {
    pub off: i32,
    pub code: Code,
}

// The offset that a helper loads, where it is one of these.
#[inline(always)]
fn far_offset(off: i64) -> Option<i32>
    ensures { result ≡ (if is_far off then Some off else None) }
{
    if -2147483648 <= off
        && off <= 2147483647
        && !(0 <= off && off <= 4095)
        && !(-524288 <= off && off <= 524287)
    {
        Some(off as i32)
    } else {
        None
    }
}

// Whether it reads `%r1`, which the helper writes, behind it.
#[inline(always)]
fn reads_scratch(access: &Doubleword) -> bool
    ensures { result ≡ reads_scratch access.now }
{
    is_numbered(1, &access.base) || access.stores && is_numbered(1, &access.register)
}

/// Its code behind the load of its offset, where its registers may stand there and a helper loads that.
#[inline(always)]
pub fn far_code(access: &Doubleword) -> Option<FarDoubleword>
    ensures { IfSome result
        (λ far. IsPassed (instruction_of access.now) (Mov64SImm32 scratch far.off ∷ []) far.code) }
{
    if !has_valid_registers(access) || reads_scratch(access) {
        return None;
    }
    let off = far_offset(access.off)?;
    let disp = SImm20::from_uimm12(UImm12::zero());
    let code = row_code(access, spilltmp_reg(), disp)?;
    Some(FarDoubleword { off, code })
}

// A code with a trap recorded at its first byte.
fn put_trapping(sink: &mut MachBuffer, code: &Code, trap_code: TrapCode) -> Result<(), EmitError>
    ensures answer { OnOk result
        (sink.new
        ≡ record sink.old {
          bytes = sink.old.bytes ++ code.now;
          traps = sink.old.traps
              ++ record { offset = length sink.old.bytes; code = trap_code } ∷ [];
        }) }
    ensures only_memory { put_cause sink.old (length code.now) ≡ None → OnlyOutOfMemory result }
    ensures kept { Extends sink.old sink.new }
{
    sink.add_trap(trap_code)?;
    sink.put_code(code)
}

// The code of a row, with the trap of its faults.
#[inline(always)]
fn put_row(sink: &mut MachBuffer, code: &Code, trap_code: Option<TrapCode>) -> Result<(), EmitError>
    ensures answer { (m : MachineInstruction) → code.now ≡ bytes_of m
        → OnOk result (sink.new ≡ with_parts sink.old (access_parts (Some m) trap_code)) }
    ensures only_memory { put_cause sink.old (length code.now) ≡ None → OnlyOutOfMemory result }
    ensures kept { Extends sink.old sink.new }
{
    match trap_code {
        Some(trap_code) => put_trapping(sink, code, trap_code),
        None => sink.put_code(code),
    }
}

// The load of an offset into `%r1`.
#[inline(always)]
fn put_offset(sink: &mut MachBuffer, off: i32) -> Result<(), EmitError>
    ensures answer { OnOk result
        (sink.new ≡ with_parts sink.old (helpers_parts (far_helper (Some off)))) }
    ensures only_memory { put_cause sink.old 6 ≡ None → OnlyOutOfMemory result }
    ensures kept { Extends sink.old sink.new }
{
    let code = enc_ril_a(opcodes::LGFI, spilltmp_reg(), bits_of_word(off))?;
    sink.put_code(&code)
}

// The load of an offset into `%r1`, and then the code of a row with the trap of its faults.
#[inline(always)]
fn put_far_row(
    sink: &mut MachBuffer,
    far: &FarDoubleword,
    trap_code: Option<TrapCode>,
) -> Result<(), EmitError>
    ensures answer { (m : MachineInstruction) → far.now.code ≡ bytes_of m
        → OnOk result
        (sink.new
        ≡ with_parts sink.old
        (helpers_parts (Mov64SImm32 scratch far.now.off ∷ [])
        ++ access_parts (Some m) trap_code)) }
    ensures only_memory { put_cause sink.old (6 + length far.now.code) ≡ None
        → OnlyOutOfMemory result }
    ensures kept { Extends sink.old sink.new }
{
    put_offset(sink, far.off)?;
    put_row(sink, &far.code, trap_code)
}

/// Appends its code, with the trap of its faults. It answers want of memory, or the buffer's refusal.
#[inline(always)]
pub fn put_near(sink: &mut MachBuffer, access: &Doubleword, code: &Code) -> Result<(), EmitError>
    requires { IsPassed (instruction_of access.now) [] code.now }
    ensures answer { OnOk result
        (sink.new ≡ with_parts sink.old (memory_parts (instruction_of access.now))) }
    ensures only_memory { put_cause sink.old
        (parts_size (memory_parts (instruction_of access.now))) ≡ None → OnlyOutOfMemory result }
    ensures kept { Extends sink.old sink.new }
{
    put_row(sink, code, access.flags.trap_code())
}

/// Appends the load of its offset and its code, with the trap of its faults. It answers want of memory, or the buffer's refusal.
#[inline(always)]
pub fn put_far(
    sink: &mut MachBuffer,
    access: &Doubleword,
    far: &FarDoubleword,
) -> Result<(), EmitError>
    requires { IsPassed (instruction_of access.now) (Mov64SImm32 scratch far.now.off ∷ [])
        far.now.code }
    ensures answer { OnOk result
        (sink.new ≡ with_parts sink.old (memory_parts (instruction_of access.now))) }
    ensures only_memory { put_cause sink.old
        (parts_size (memory_parts (instruction_of access.now))) ≡ None → OnlyOutOfMemory result }
    ensures kept { Extends sink.old sink.new }
{
    put_far_row(sink, far, access.flags.trap_code())
}
