//! How an operand is reached: the helpers before the access, and the operand that stands in it.
ghost use Rattle.std.specs.Prelude.{◌≡◌, ◌+◌, ◌≤◌, ◌+ℤ◌, ◌-ℤ◌, ◌≤ℤ◌, negsuc, [], ◌∷◌, true, false, if◌then◌else◌, pos, unsigned_abs, None, Some, IfSome, MatchResult};
ghost use Rattle.s390x_base.specs.declared.error.EmitError.TheVariants.{ScratchConflict, OffsetOutOfRange};
ghost use Rattle.s390x_inst.specs.Memory.{trusted};
ghost use Rattle.s390x_inst.specs.declared.args.MemArg.TheVariants.{RegOffset, BXD12};
ghost use Rattle.s390x_inst.specs.declared.inst.Inst.TheVariants.{Mov64SImm32};
ghost use Rattle.s390x_typed_steps.specs.Operands.{is_numbered, scratch, stack_pointer, frame_size, in_frame, resolved_operand, fits_12, fits_20, fits_32, with_offset, with_displacement, with_address_loaded, with_widened, finalized_operand};
ghost use Rattle.s390x_typed_steps.specs.Causes.{operand_cause, is_helped};
ghost use Rattle.s390x_address.specs.Lowerings.{finalized_of, offset_cause};

use crate::addressing_modes::{has_form, is_numbered, needs_address, widen};
use s390x_base::{EmitError, MachMemFlags, Reg, SImm20, UImm12, spilltmp_reg, stack_reg, zero_reg};
use s390x_inst::{EmitState, MachInstEmitState, MemArg, REG_SAVE_AREA_SIZE};
use s390x_typed_steps::MemInstType;

/// The helpers before an access, each of which writes `%r1` alone, and the operand of the access.
#[derive(Clone, Copy)]
pub struct Lowering {
    /// The offset that the first helper loads, where there is one.
    pub offset_load: Option<i32>,
    /// The operand whose address the next helper loads, where there is one.
    pub address_load: Option<MemArg>,
    pub operand: MemArg,
}

impl Lowering {
    // The operand as it is.
    fn alone(operand: MemArg) -> Lowering
        ensures value { finalized_of result ≡ record { helpers = []; operand = operand } }
        ensures address { result.address_load ≡ None }
    {
        Lowering {
            offset_load: None,
            address_load: None,
            operand,
        }
    }

    /// Whether there are helpers.
    pub fn is_helped(&self) -> bool
        ensures { result ≡ is_helped (finalized_of self.now).helpers }
    {
        self.offset_load.is_some() || self.address_load.is_some()
    }
}

// An offset that an index has to hold: it is loaded into `%r1`, which can't be the base too.
fn far_offset(reg: Reg, off: i32, flags: MachMemFlags) -> Result<Lowering, EmitError>
    ensures { MatchResult result
        (λ p. (is_numbered 1 reg ≡ false)
        × (finalized_of p
        ≡ record {
          helpers = Mov64SImm32 scratch off ∷ [];
          operand = BXD12 reg scratch 0 flags;
        }) × (p.address_load ≡ None))
        (λ e. (is_numbered 1 reg ≡ true) × (e ≡ ScratchConflict)) }
{
    if is_numbered(1, &reg) {
        return Err(EmitError::ScratchConflict);
    }
    Ok(Lowering {
        offset_load: Some(off),
        address_load: None,
        operand: MemArg::BXD12 {
            base: reg,
            index: spilltmp_reg(),
            disp: UImm12::zero(),
            flags,
        },
    })
}

/// The offset as an unsigned displacement of 12 bits.
pub fn short_displacement(off: i128) -> Option<UImm12>
    ensures { result ≡ (if fits_12 off then Some (unsigned_abs off) else None) }
{
    if 0 <= off && off <= 4095 {
        UImm12::maybe_from_u64(off as u64)
    } else {
        None
    }
}

/// The offset as a signed displacement of 20 bits.
pub fn long_displacement(off: i128) -> Option<SImm20>
    ensures { result ≡ (if fits_20 off then Some off else None) }
{
    if -524288 <= off && off <= 524287 {
        SImm20::maybe_from_i64(off as i64)
    } else {
        None
    }
}

/// The offset as a signed immediate of 32 bits.
pub fn immediate(off: i128) -> Option<i32>
    ensures { result ≡ (if fits_32 off then Some off else None) }
{
    if -2147483648 <= off && off <= 2147483647 {
        Some(off as i32)
    } else {
        None
    }
}

// A register and an offset, with the displacement or the helper that holds the offset.
fn lower_offset(reg: Reg, off: i128, flags: MachMemFlags) -> Result<Lowering, EmitError>
    ensures { MatchResult result
        (λ p. (offset_cause (RegOffset reg off flags) ≡ None)
        × (finalized_of p ≡ with_offset reg off flags) × (p.address_load ≡ None))
        (λ e. offset_cause (RegOffset reg off flags) ≡ Some e) }
{
    let index = zero_reg();
    match short_displacement(off) {
        Some(disp) => Ok(Lowering::alone(MemArg::BXD12 {
            base: reg,
            index,
            disp,
            flags,
        })),
        None => match long_displacement(off) {
            Some(disp) => Ok(Lowering::alone(MemArg::BXD20 {
                base: reg,
                index,
                disp,
                flags,
            })),
            None => match immediate(off) {
                Some(off) => far_offset(reg, off, flags),
                None => Err(EmitError::OffsetOutOfRange),
            },
        },
    }
}

// The sum of four sizes.
fn four_sizes(a: u32, b: u32, c: u32, d: u32) -> u64
    ensures value { result ≡ a + b + c + d }
    ensures few { result ≤ 17179869180 }
{
    u64::from(a) + u64::from(b) + u64::from(c) + u64::from(d)
}

// How far the stack pointer lies below its place at the function's entry.
fn frame_size(state: &EmitState) -> u64
    ensures value { result ≡ frame_size state.now }
    ensures few { result ≤ 17179869180 }
{
    let layout = state.frame_layout();
    four_sizes(
        layout.clobber_size,
        layout.fixed_frame_storage_size,
        layout.outgoing_args_size,
        state.nominal(),
    )
}

// How far the stack slots lie above the stack pointer.
fn slots_offset(state: &EmitState) -> u64
    ensures value { result ≡ state.now.layout.outgoing_args_size + state.now.nominal }
    ensures few { result ≤ 8589934590 }
{
    u64::from(state.frame_layout().outgoing_args_size) + u64::from(state.nominal())
}

// An offset and what is added to it.
fn added_offset(off: i64, added: i128) -> i128
    requires low { negsuc 4294967295 ≤ℤ added }
    requires high { added ≤ℤ pos 34359738368 }
    ensures { result ≡ off +ℤ added }
{
    i128::from(off) + added
}

/// The exact offset from the stack pointer of a frame operand, where it is one.
pub fn frame_offset(mem: &MemArg, state: &EmitState) -> Option<i128>
    ensures frame { IfSome result
        (λ off. resolved_operand state.now mem.now ≡ RegOffset stack_pointer off trusted) }
    ensures other { result ≡ None → resolved_operand state.now mem.now ≡ mem.now }
{
    match mem {
        MemArg::InitialSPOffset { off } => Some(added_offset(*off, i128::from(frame_size(state)))),
        MemArg::IncomingArgOffset { off } => Some(added_offset(
            *off,
            i128::from(frame_size(state))
                + i128::from(state.incoming())
                + i128::from(REG_SAVE_AREA_SIZE),
        )),
        MemArg::SpillOffset { off } => Some(added_offset(
            *off,
            i128::from(state.frame_layout().stackslots_size) + i128::from(slots_offset(state)),
        )),
        MemArg::SlotOffset { off } => Some(added_offset(*off, i128::from(slots_offset(state)))),
        MemArg::OutgoingArgOffset { off } => Some(added_offset(
            *off,
            i128::from(REG_SAVE_AREA_SIZE) - i128::from(state.outgoing()),
        )),
        _ => None,
    }
}

// An operand that is no frame operand, with its displacement.
fn displace_other(mem: &MemArg) -> Result<Lowering, EmitError>
    ensures { MatchResult result
        (λ p. (offset_cause mem.now ≡ None) × (finalized_of p ≡ with_displacement mem.now)
        × (p.address_load ≡ None)) (λ e. offset_cause mem.now ≡ Some e) }
{
    match mem {
        MemArg::RegOffset { reg, off, flags } => lower_offset(*reg, i128::from(*off), *flags),
        _ => Ok(Lowering::alone(*mem)),
    }
}

// An operand with its displacement.
fn displace(mem: &MemArg, state: &EmitState) -> Result<Lowering, EmitError>
    ensures { MatchResult result
        (λ p. (offset_cause (resolved_operand state.now mem.now) ≡ None)
        × (finalized_of p ≡ with_displacement (resolved_operand state.now mem.now))
        × (p.address_load ≡ None))
        (λ e. offset_cause (resolved_operand state.now mem.now) ≡ Some e) }
{
    match frame_offset(mem, state) {
        Some(off) => lower_offset(stack_reg(), off, MachMemFlags::trusted()),
        None => displace_other(mem),
    }
}

// Where the rows have no form for the operand, its address is loaded first.
fn load_address(mi: MemInstType, p: Lowering) -> Lowering
    requires { p.address_load ≡ None }
    ensures { finalized_of result ≡ with_address_loaded mi (finalized_of p) }
{
    if needs_address(mi, &p.operand) {
        Lowering {
            offset_load: p.offset_load,
            address_load: Some(p.operand),
            operand: MemArg::reg(spilltmp_reg(), p.operand.get_flags()),
        }
    } else {
        p
    }
}

/// How an operand is reached by rows that have these forms.
///
/// `BadOperator` where they have none for it, `ScratchConflict` where its offset is loaded over its base `%r1`, `OffsetOutOfRange` where its
/// exact offset doesn't fit a signed immediate of 32 bits (cranelift-codegen, `mem_finalize` in `emit.rs`).
pub fn lower_operand(
    mem: &MemArg,
    state: &EmitState,
    mi: MemInstType,
) -> Result<Lowering, EmitError>
    ensures { MatchResult result
        (λ p. (operand_cause mi (resolved_operand state.now mem.now) ≡ None)
        × (finalized_of p ≡ finalized_operand mi (resolved_operand state.now mem.now)))
        (λ e. operand_cause mi (resolved_operand state.now mem.now) ≡ Some e) }
{
    if !has_form(mi, mem) {
        return Err(EmitError::BadOperator);
    }
    let displaced = displace(mem, state)?;
    let addressed = load_address(mi, displaced);
    Ok(Lowering {
        offset_load: addressed.offset_load,
        address_load: addressed.address_load,
        operand: widen(mi, &addressed.operand),
    })
}
