//! Lines of branches, traps and calls, taken only as they are printed.
ghost use Rattle.std.specs.Prelude.{[], ◌∷◌, IfSome};
ghost use Rattle.s390x_base.specs.Sets.{has};
ghost use Rattle.s390x_job_fields.specs.Calls.{try_part};
ghost use Rattle.s390x_job_fields.specs.Numbers.{W32};
ghost use Rattle.s390x_job_fields.specs.Sets.{members_of};
ghost use Rattle.s390x_job_fields.specs.Fields.{FBool, FConvention, FDefs, FNatural, FOption, FReg, FSet, FTarget, FTry, FUses};
ghost use Rattle.s390x_job_lines.specs.Instructions.{inst_line};
ghost use Rattle.s390x_job_exact.specs.Exact.{AreFields, TakesAll};

use crate::cursor::ExactCursor;
use crate::rows::{take_fields, take_rows};
use s390x_base::{PRegSet, Reg, Writable};
use s390x_inst::{
    CallArgPair, CallConv, CallInfo, CallInstDest, CallRetPair, Inst, ReturnCallInfo, TryCallInfo,
};
use s390x_job_lines::{ControlName, LineName};
use std::alloc::Global;

/// Takes the fields of an instruction of this name, where it has none.
#[tactic(auto, using(crate::proofs::Lines::zero))]
#[inline(never)]
fn without_fields(name: ControlName, cursor: &mut ExactCursor) -> Option<Inst>
    ensures { IfSome result (λ x. AreFields (LineName.Control name) (inst_line x) cursor.old) }
{
    cursor.end()?;
    match name {
        ControlName::Fence => Some(Inst::Fence),
        ControlName::Nop0 => Some(Inst::Nop0),
        ControlName::Nop2 => Some(Inst::Nop2),
        ControlName::Debugtrap => Some(Inst::Debugtrap),
        ControlName::SequencePoint => Some(Inst::SequencePoint),
        _ => None,
    }
}

/// Takes the fields of an instruction of this name, where it has one.
#[tactic(auto, using(crate::proofs::Lines::one))]
#[inline(never)]
fn simple(name: ControlName, cursor: &mut ExactCursor) -> Option<Inst>
    ensures { IfSome result (λ x. AreFields (LineName.Control name) (inst_line x) cursor.old) }
{
    take_rows!((ControlName, name, cursor, {})
        Jump { dest: label }
        Ret { link: reg }
        Trap { trap_code: trap_code }
        CondBreak { cond: cond }
        AllocateArgs { size: u32 }
        DummyUse { reg: reg }
    )
}

#[tactic(auto, using(crate::proofs::Lines::two))]
#[inline(never)]
fn trap_if(cursor: &mut ExactCursor) -> Option<Inst>
    ensures { IfSome result
        (λ x. AreFields (LineName.Control ControlName.TrapIf) (inst_line x) cursor.old) }
{
    take_fields!(TrapIf, cursor, {}, cond: cond, trap_code: trap_code)
}

#[tactic(auto, using(crate::proofs::Lines::three))]
#[inline(never)]
fn branch(cursor: &mut ExactCursor) -> Option<Inst>
    ensures { IfSome result
        (λ x. AreFields (LineName.Control ControlName.CondBr) (inst_line x) cursor.old) }
{
    take_fields!(CondBr, cursor, {}, taken: label, not_taken: label, cond: cond)
}

/// Takes the fields of an address in a register.
#[tactic(auto, using(crate::proofs::Lines::two))]
#[inline(never)]
fn address(name: ControlName, cursor: &mut ExactCursor) -> Option<Inst>
    ensures { IfSome result (λ x. AreFields (LineName.Control name) (inst_line x) cursor.old) }
{
    let reg = cursor.written_reg()?;
    match name {
        ControlName::LoadSymbolReloc => {
            let symbol_reloc = cursor.reloc()?;
            cursor.end()?;
            Some(Inst::LoadSymbolReloc {
                rd: reg,
                symbol_reloc,
            })
        }
        ControlName::LabelAddress => {
            let label = cursor.label()?;
            cursor.end()?;
            Some(Inst::LabelAddress { dst: reg, label })
        }
        _ => None,
    }
}

/// The first fields of a call.
#[derive(Drop)]
struct CallBeginning {
    link: Writable<Reg>,
    dest: CallInstDest,
    uses: Vec<CallArgPair>,
    defs: Vec<CallRetPair>,
    clobbers: PRegSet,
}

/// The other fields of a call.
#[derive(Drop)]
struct CallEnd {
    callee_pop_size: u32,
    caller_conv: CallConv,
    callee_conv: CallConv,
    try_call_info: Option<TryCallInfo>,
    patchable: bool,
    stack_map: Option<u32>,
}

#[tactic(auto, using(crate::proofs::Lines::five_fields))]
#[inline(always)]
fn call_front(alloc: Global, cursor: &mut ExactCursor) -> Option<CallBeginning>
    ensures { IfSome result
        (λ c. TakesAll
        (FReg c.link ∷ FTarget c.dest ∷ FUses c.uses.items ∷ FDefs c.defs.items
        ∷ FSet (members_of (has c.clobbers)) ∷ []) cursor.old cursor.new) }
{
    let link = cursor.written_reg()?;
    let dest = cursor.target()?;
    let uses = cursor.uses(alloc)?;
    let defs = cursor.defs(alloc)?;
    let clobbers = cursor.empty_set()?;
    Some(CallBeginning {
        link,
        dest,
        uses,
        defs,
        clobbers,
    })
}

#[tactic(auto, using(crate::proofs::Lines::six_fields))]
#[inline(always)]
fn call_back(cursor: &mut ExactCursor) -> Option<CallEnd>
    ensures { IfSome result
        (λ c. TakesAll
        (FNatural W32 c.callee_pop_size ∷ FConvention c.caller_conv ∷ FConvention c.callee_conv
        ∷ FTry (try_part c.try_call_info) ∷ FBool c.patchable ∷ FOption W32 c.stack_map
        ∷ []) cursor.old cursor.new) }
{
    let callee_pop_size = cursor.u32()?;
    let caller_conv = cursor.convention()?;
    let callee_conv = cursor.convention()?;
    let try_call_info = cursor.no_handlers()?;
    let patchable = cursor.truth()?;
    let stack_map = cursor.option32()?;
    Some(CallEnd {
        callee_pop_size,
        caller_conv,
        callee_conv,
        try_call_info,
        patchable,
        stack_map,
    })
}

/// Takes the fields of a call.
#[tactic(auto, using(crate::proofs::Lines::eleven))]
#[inline(never)]
pub fn call(alloc: Global, cursor: &mut ExactCursor) -> Option<Inst>
    ensures { IfSome result
        (λ x. AreFields (LineName.Control ControlName.Call) (inst_line x) cursor.old) }
{
    let first = call_front(alloc, cursor)?;
    let last = call_back(cursor)?;
    cursor.end()?;
    Some(Inst::Call {
        link: first.link,
        info: CallInfo {
            dest: first.dest,
            uses: first.uses,
            defs: first.defs,
            clobbers: first.clobbers,
            callee_pop_size: last.callee_pop_size,
            caller_conv: last.caller_conv,
            callee_conv: last.callee_conv,
            try_call_info: last.try_call_info,
            patchable: last.patchable,
            stack_map: last.stack_map,
        },
    })
}

#[tactic(auto, using(crate::proofs::Lines::three))]
#[inline(never)]
fn return_call(alloc: Global, cursor: &mut ExactCursor) -> Option<Inst>
    ensures { IfSome result
        (λ x. AreFields (LineName.Control ControlName.ReturnCall) (inst_line x) cursor.old) }
{
    let dest = cursor.target()?;
    let uses = cursor.uses(alloc)?;
    let callee_pop_size = cursor.u32()?;
    cursor.end()?;
    Some(Inst::ReturnCall {
        info: ReturnCallInfo {
            dest,
            uses,
            callee_pop_size,
        },
    })
}

/// Takes the fields of an instruction of this name.
#[inline(always)]
pub fn control(alloc: Global, name: ControlName, cursor: &mut ExactCursor) -> Option<Inst>
    ensures { IfSome result (λ x. AreFields (LineName.Control name) (inst_line x) cursor.old) }
{
    match name {
        ControlName::CondBr => branch(cursor),
        ControlName::TrapIf => trap_if(cursor),
        ControlName::Call => call(alloc, cursor),
        ControlName::ReturnCall => return_call(alloc, cursor),
        ControlName::LoadSymbolReloc | ControlName::LabelAddress => address(name, cursor),
        ControlName::Fence | ControlName::Nop0 | ControlName::Nop2 => without_fields(name, cursor),
        ControlName::Debugtrap | ControlName::SequencePoint => without_fields(name, cursor),
        _ => simple(name, cursor),
    }
}
