//! Loads of results behind a call, and the epilogue before a tail call.
ghost use Rattle.std.specs.Prelude.{◌≡◌, ◌+◌, ◌*◌, ◌^◌, ◌<◌, ◌≤◌, pos, ◌-ℤ◌, ◌∷◌, [], ◌++◌, cond, IfOk};
ghost use Rattle.std.specs.List.{All};
ghost use Rattle.s390x_base.specs.Registers.{general};
ghost use Rattle.s390x_inst.specs.Frames.{HasLoad, load_from, return_loads, IsFirstSaved, above_stack, is_lost, target_copy, copied_target, is_saved, saved_floats, float_load, float_loads, general_load, floats_at, caller_at, epilogue};

use crate::args::MemArg;
use crate::calls::{CallInfo, CallInstDest, CallRetPair, RetLocation};
use crate::inst::Inst;
use crate::state::FrameLayout;
use crate::vec_inst::VecInst;
use s390x_base::{
    MachMemFlags, NoMemory, Reg, RegClass, spilltmp_reg, stack_reg, writable_gpr,
    writable_spilltmp_reg, writable_stack_reg, writable_vr,
};
use std::alloc::{AllocError, Global};

/// The load of a result from the stack; None for one in a register.
fn load_result(def: &CallRetPair) -> Option<Inst>
    ensures { result ≡ load_from def.now.vreg def.now.location }
{
    match def.location {
        RetLocation::Reg(_, _) => None,
        RetLocation::Stack(off, ty) => {
            Inst::gen_load(def.vreg, MemArg::OutgoingArgOffset { off }, ty)
        }
    }
}

/// The loads of results from the stack, in order.
fn load_results(alloc: Global, defs: &[CallRetPair]) -> Result<Vec<Inst>, AllocError>
    ensures { IfOk result (λ loads. loads.items ≡ return_loads defs.now) }
{
    let mut loads = Vec::new(alloc);
    for def in defs {
        if let Some(load) = load_result(def) {
            loads.push(load)?;
        }
    }
    Ok(loads)
}

/// The loads of a call's results that come back on the stack, in order, each from the outgoing arguments into its
/// register, as `Inst::gen_load` loads a value of its type. `NoMemory` where there is no memory for the list.
///
/// Condition: no such result is an `I8X8`, which has no load.
pub fn gen_retval_loads(alloc: Global, info: &CallInfo) -> Result<Vec<Inst>, NoMemory>
    requires { All HasLoad info.now.defs.items }
    ensures { IfOk result (λ loads. loads.items ≡ return_loads info.now.defs.items) }
{
    match load_results(alloc, &info.defs) {
        Ok(loads) => Ok(loads),
        Err(_) => Err(NoMemory),
    }
}

/// An operand so many bytes above the stack pointer.
fn stack_operand(off: i64) -> MemArg
    ensures { result ≡ above_stack off }
{
    MemArg::reg_plus_off(stack_reg(), off, MachMemFlags::trusted())
}

/// Whether the epilogue may load the register of a target.
fn is_target_lost(reg: Reg) -> bool
    ensures { result ≡ is_lost reg }
{
    match reg {
        Reg::Real(preg) => {
            preg.class() == RegClass::Int && 6 <= preg.hw_enc() && preg.hw_enc() <= 15
        }
        Reg::Virtual { .. } => false,
    }
}

/// Copies a target that the epilogue may load, and tells where it then stands.
fn copy_target(insts: &mut Vec<Inst>, dest: &CallInstDest) -> Result<Option<Reg>, AllocError>
    ensures { IfOk result
        (λ copied. (copied ≡ copied_target dest.now)
        × (insts.new.items ≡ insts.old.items ++ target_copy dest.now)) }
{
    let CallInstDest::Indirect { reg } = dest else {
        return Ok(None);
    };
    if !is_target_lost(*reg) {
        return Ok(None);
    }
    insts.push(Inst::Mov64 {
        rd: writable_spilltmp_reg(),
        rm: *reg,
    })?;
    Ok(Some(spilltmp_reg()))
}

/// Whether a float register is in the set.
fn is_float_saved(set: u16, number: u8) -> bool
    requires { number < 16 }
    ensures { result ≡ is_saved set number }
{
    (set >> number) & 1 == 1
}

/// The load of a float register from an offset above the stack pointer.
fn load_float(number: u8, off: u64) -> Inst
    requires number { number < 16 }
    requires off { off < 2 ^ 63 }
    ensures { result ≡ float_load number off }
{
    Inst::Vector(VecInst::VecLoadLaneUndef {
        size: 64,
        rd: writable_vr(number),
        mem: stack_operand(off as i64),
        lane_imm: 0,
    })
}

/// Loads a float register where the set has it, as the one after so many; tells how many there are then.
fn load_if_saved(
    insts: &mut Vec<Inst>,
    set: u16,
    number: u8,
    start: u64,
    count: u64,
) -> Result<u64, AllocError>
    requires number { number < 16 }
    requires start { start < 2 ^ 40 }
    requires count { count < 16 }
    ensures { IfOk result
        (λ next. (next ≡ cond (is_saved set number) (count + 1) count)
        × (insts.new.items
        ≡ insts.old.items
        ++ cond (is_saved set number) (float_load number (start + 8 * count) ∷ []) [])) }
{
    if !is_float_saved(set, number) {
        return Ok(count);
    }
    insts.push(load_float(number, start + 8 * count))?;
    Ok(count + 1)
}

/// Loads the float registers of the set, rising, from consecutive doublewords.
fn load_floats(insts: &mut Vec<Inst>, set: u16, start: u64) -> Result<(), AllocError>
    requires { start < 2 ^ 40 }
    ensures { IfOk result
        (λ _. insts.new.items ≡ insts.old.items ++ float_loads start 0 (saved_floats set)) }
{
    let mut count = 0;
    for number in 0..16u8 {
        count = load_if_saved(insts, set, number, start, count)?;
    }
    Ok(())
}

/// Loads the general registers from the first one saved up to `%r14` from the caller's frame.
fn load_generals(
    insts: &mut Vec<Inst>,
    first_saved_gpr: Option<u8>,
    caller: u64,
) -> Result<(), AllocError>
    requires first { IsFirstSaved first_saved_gpr }
    requires caller { caller < 2 ^ 40 }
    ensures { IfOk result
        (λ _. insts.new.items ≡ insts.old.items ++ general_load caller first_saved_gpr) }
{
    if let Some(first) = first_saved_gpr {
        insts.push(Inst::LoadMultiple64 {
            rt: writable_gpr(first),
            rt2: writable_gpr(14),
            mem: stack_operand((caller + 8 * u64::from(first)) as i64),
        })?;
    }
    Ok(())
}

/// Sets the stack pointer so far above itself.
fn raise_stack(insts: &mut Vec<Inst>, off: i64) -> Result<(), AllocError>
    ensures { IfOk result
        (λ _. insts.new.items
        ≡ insts.old.items ++ Inst.LoadAddr (Reg.Real (general 15)) (above_stack off) ∷ []) }
{
    insts.push(Inst::LoadAddr {
        rd: writable_stack_reg(),
        mem: stack_operand(off),
    })?;
    Ok(())
}

/// Appends the epilogue, and tells where a copied target stands.
fn put_epilogue(
    insts: &mut Vec<Inst>,
    layout: &FrameLayout,
    callee_pop_size: u32,
    dest: &CallInstDest,
) -> Result<Option<Reg>, AllocError>
    requires { IsFirstSaved layout.now.first_saved_gpr }
    ensures { IfOk result
        (λ copied. (copied ≡ copied_target dest.now)
        × (insts.new.items ≡ insts.old.items ++ epilogue layout.now callee_pop_size dest.now)) }
{
    let floats = u64::from(layout.outgoing_args_size) + u64::from(layout.fixed_frame_storage_size);
    let caller = layout.sp_to_fp();
    let raised = (caller + u64::from(layout.tail_args_size)) as i64 - i64::from(callee_pop_size);
    let copied = copy_target(insts, dest)?;
    load_floats(insts, layout.saved_fprs, floats)?;
    load_generals(insts, layout.first_saved_gpr, caller)?;
    raise_stack(insts, raised)?;
    Ok(copied)
}

/// What takes a frame down before the jump of a tail call that pops so many bytes of arguments; and `%r1` where the target
/// is copied there, else None. In order:
///
/// - a target in a real Int register of 6 to 15, which may be loaded below, is copied to `%r1`;
/// - the saved float registers are loaded, rising, from behind the outgoing arguments and the fixed storage;
/// - the saved general registers up to `%r14` are loaded from the caller's register save area;
/// - the stack pointer goes to the caller's frame, by the tail arguments higher and by the popped bytes lower.
///
/// `NoMemory` where there is no memory for the list.
///
/// Condition: the first saved general register is None or one of 6 to 14.
pub fn gen_tail_epilogue(
    alloc: Global,
    layout: &FrameLayout,
    callee_pop_size: u32,
    dest: &CallInstDest,
) -> Result<(Vec<Inst>, Option<Reg>), NoMemory>
    requires { IsFirstSaved layout.now.first_saved_gpr }
    ensures { IfOk result
        (λ r. (r.0.items ≡ epilogue layout.now callee_pop_size dest.now)
        × (r.1 ≡ copied_target dest.now)) }
{
    let mut insts = Vec::new(alloc);
    match put_epilogue(&mut insts, layout, callee_pop_size, dest) {
        Ok(copied) => Ok((insts, copied)),
        Err(_) => Err(NoMemory),
    }
}
