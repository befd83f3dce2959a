//! What a register allocator asks of an instruction.
ghost use Rattle.std.specs.Prelude.{◌≡◌, ◌≢◌, ℕ, Bool, List, [], ◌∷◌, ◌++◌, map, Option, Result, OnOk, OnErr, IfOk};
ghost use Rattle.s390x_base.specs.declared.ir.MachLabel.{MachLabel};
ghost use Rattle.s390x_base.specs.declared.ir.ValueType.{ValueType};
ghost use Rattle.s390x_base.specs.declared.regs.Reg.{Reg};
ghost use Rattle.s390x_base.specs.declared.regs.RegClass.{RegClass};
ghost use Rattle.s390x_operands.specs.declared.constraint.OperandError.{OperandError};
ghost use Rattle.s390x_operands.specs.declared.constraint.Reported.{Reported};
ghost use Rattle.s390x_operands.specs.declared.mach_inst.CallType.{CallType};
ghost use Rattle.s390x_operands.specs.declared.mach_inst.CodegenError.{CodegenError};
ghost use Rattle.s390x_operands.specs.declared.mach_inst.FunctionAlignment.{FunctionAlignment};
ghost use Rattle.s390x_operands.specs.declared.mach_inst.MachTerminator.{MachTerminator};
ghost use Rattle.s390x_operands.specs.Visits.{IsVisitAnswer};
ghost use Rattle.s390x_operands.specs.Requests.{AppendsPrefix};

use crate::constraint::OperandError;
use crate::operands::report_inst;
use crate::visitor::OperandVisitor;
use s390x_base::{CodeOffset, MachLabel, NoMemory, Reg, RegClass, ValueType, Writable};
use s390x_inst::{Inst, VecInst};
use std::alloc::{AllocError, Global};
use thiserror::Error;

/// Whether an instruction calls, and how.
#[derive(Clone, Copy)]
pub enum CallType {
    /// It calls nothing.
    None,
    /// It calls a function that returns to it.
    Regular,
    /// It calls a function in place of returning.
    TailCall,
}

/// Whether an instruction ends a block, and how.
#[derive(Clone, Copy)]
pub enum MachTerminator {
    /// It ends none.
    None,
    /// It returns.
    Ret,
    /// It calls a function in place of returning.
    RetCall,
    /// It goes to other blocks.
    Branch,
}

/// Why no code is made.
#[derive(Clone, Copy, PartialEq, Debug, Error)]
pub enum CodegenError {
    /// No register holds a value of the type.
    #[error("unsupported type {0:?}")]
    Unsupported(ValueType),
}

/// Where a function may begin, in bytes.
#[derive(Clone, Copy)]
pub struct FunctionAlignment {
    /// Its address is a multiple of this.
    pub minimum: u32,
    /// Its address had better be a multiple of this.
    pub preferred: u32,
}

/// An instruction of a machine, as a register allocator sees it.
pub trait MachInst {
    // What it reports, in order.
    ghost reported: { Self → List Reported };

    // The first cause by which its report is refused, want of memory aside, where the visitor denies a reuse or doesn't.
    ghost report_cause: { Bool → Self → Option OperandError };

    // Output and input of a move.
    ghost moved: { Self → Option (Reg × Reg) };

    // Whether what it overwrites counts for the function.
    ghost included: { Self → Bool };

    // Whether it is a trap.
    ghost traps: { Self → Bool };

    // Whether it is the one that takes in arguments.
    ghost takes_args: { Self → Bool };

    // Whether a collector of garbage may run at it.
    ghost safe: { Self → Bool };

    // How it ends a block.
    ghost terminator: { Self → MachTerminator };

    // How it calls.
    ghost calls: { Self → CallType };

    // Whether a value of a type can be moved to a register from another one.
    ghost can_move: { Reg → Reg → ValueType → Type 0 };

    // The move of a value of a type to a register from another one.
    ghost move_between: { Reg → Reg → ValueType → Self };

    // Whether there is an instruction that does nothing, for a wanted size in bytes.
    ghost can_pass: { ℕ → Type 0 };

    // That instruction.
    ghost nop: { ℕ → Self };

    // The bytes of those that do nothing.
    ghost nop_units: { List (List ℕ) };

    // The class and the type of the register that holds a value of a type.
    ghost class_for: { ValueType → Result (RegClass × ValueType) CodegenError };

    // The type of whole registers of a class.
    ghost whole_type: { RegClass → ValueType };

    // A jump to a block.
    ghost jump: { MachLabel → Self };

    // A use of a register that does nothing.
    ghost dummy_use: { Reg → Self };

    // The greatest size of an instruction, in bytes.
    ghost greatest_size: { ℕ };

    // What an instruction adds to an island at most, in bytes.
    ghost greatest_island: { ℕ };

    // Where a function may begin.
    ghost alignment: { FunctionAlignment };

    /// The bytes of a trap.
    const TRAP_OPCODE: [u8; 2];

    /// Reports the operands to a visitor, in order.
    fn get_operands<V: OperandVisitor>(&self, collector: &mut V) -> Result<(), OperandError>
        ensures list { OnOk result
            (V.items collector.new ≡ V.items collector.old ++ reported self.now) }
        ensures prefix { OnErr result
            (AppendsPrefix (V.items collector.old) (V.items collector.new) (reported self.now)) }
        ensures cause { IsVisitAnswer (report_cause (V.denies collector.old) self.now) result }
        ensures denies { V.denies collector.new ≡ V.denies collector.old };

    /// Its output and its input, where it does nothing but move the one to the other.
    fn is_move(&self) -> Option<(Writable<Reg>, Reg)>
        ensures { result ≡ moved self.now };

    /// Whether the registers that it overwrites count among those that the function overwrites.
    fn is_included_in_clobbers(&self) -> bool
        ensures { result ≡ included self.now };

    /// Whether it traps, and does nothing else.
    fn is_trap(&self) -> bool
        ensures { result ≡ traps self.now };

    /// Whether it takes in the function's arguments.
    fn is_args(&self) -> bool
        ensures { result ≡ takes_args self.now };

    /// Whether a collector of garbage may run at it.
    fn is_safepoint(&self) -> bool
        ensures { result ≡ safe self.now };

    /// Whether it ends a block, and how.
    fn is_term(&self) -> MachTerminator
        ensures { result ≡ terminator self.now };

    /// Whether it calls.
    fn call_type(&self) -> CallType
        ensures { result ≡ calls self.now };

    /// A move of a value of the type.
    fn gen_move(to_reg: Writable<Reg>, from_reg: Reg, ty: ValueType) -> Self
        requires { can_move to_reg from_reg ty }
        ensures { result ≡ move_between to_reg from_reg ty };

    /// An instruction that does nothing, of at most the wanted size in bytes.
    fn gen_nop(preferred_size: usize) -> Self
        requires { can_pass preferred_size }
        ensures { result ≡ nop preferred_size };

    /// The bytes of the instructions that do nothing, the shortest first. `NoMemory` where there is none for the list.
    fn gen_nop_units(alloc: Global) -> Result<Vec<Vec<u8>>, NoMemory>
        ensures { IfOk result (λ units. map (λ unit. unit.items) units.items ≡ nop_units) };

    /// The class of the registers that hold a value of the type, and the type as which they hold it.
    fn rc_for_type(ty: ValueType) -> Result<(RegClass, ValueType), CodegenError>
        ensures { result ≡ class_for ty };

    /// The type of a whole register of the class.
    fn canonical_type_for_rc(rc: RegClass) -> ValueType
        ensures { result ≡ whole_type rc };

    /// A jump to a block.
    fn gen_jump(target: MachLabel) -> Self
        ensures { result ≡ jump target };

    /// A use of a register that does nothing.
    fn gen_dummy_use(reg: Reg) -> Self
        ensures { result ≡ dummy_use reg };

    /// The greatest size of an instruction that has no list, in bytes.
    fn worst_case_size() -> CodeOffset
        ensures { result ≡ greatest_size };

    /// What an instruction adds to an island of veneers at most, in bytes.
    fn worst_case_island_growth() -> CodeOffset
        ensures { result ≡ greatest_island };

    /// Where a function may begin.
    fn function_alignment() -> FunctionAlignment
        ensures { result ≡ alignment };
}

/// One unit of two bytes that does nothing.
fn nop_units(alloc: Global) -> Result<Vec<Vec<u8>>, AllocError>
    ensures { IfOk result (λ units. map (λ unit. unit.items) units.items ≡ (7 ∷ 7 ∷ []) ∷ []) }
{
    let mut units = Vec::new(alloc);
    units.push(vec![in alloc; 7, 7]?)?;
    Ok(units)
}

impl MachInst for Inst {
    ghost use Rattle.s390x_operands.specs.Operands.{operands, operands_cause};
    ghost use Rattle.s390x_operands.specs.Queries.{move_of, is_included_in_clobbers, is_trap, is_args, is_safepoint, terminator_of, call_type_of, CanMove, move_of_type, nop_of, two_byte_nop, register_for, type_of_class};
    ghost use Rattle.s390x_inst.specs.declared.inst.Inst.TheVariants.{Jump, DummyUse};

    ghost reported = { operands };

    ghost report_cause = { operands_cause };

    ghost moved = { move_of };

    ghost included = { is_included_in_clobbers };

    ghost traps = { is_trap };

    ghost takes_args = { is_args };

    ghost safe = { is_safepoint };

    ghost terminator = { terminator_of };

    ghost calls = { call_type_of };

    ghost can_move = { CanMove };

    ghost move_between = { move_of_type };

    ghost can_pass = { λ n. n ≢ 1 };

    ghost nop = { nop_of };

    ghost nop_units = { two_byte_nop ∷ [] };

    ghost class_for = { register_for };

    ghost whole_type = { type_of_class };

    ghost jump = { Jump };

    ghost dummy_use = { DummyUse };

    ghost greatest_size = { 44 };

    ghost greatest_island = { 0 };

    ghost alignment = { record { minimum = 4; preferred = 4 } };

    const TRAP_OPCODE: [u8; 2] = [0, 0];

    /// Reports the operands: outputs first, inputs in the order of the fields, memory last; a `Loop` those of its members.
    ///
    /// `ReuseInLoop` comes exactly where a virtual output that has to be an input stands in a `Loop`, or the visitor
    /// denies it; `NotReal` exactly where a register that has to be real is virtual: an end of a range of registers,
    /// the link of a call, the place of an argument or a result. The first in order decides. `NoMemory` is the
    /// visitor's. A refused call leaves the visitor with a prefix of the operands.
    fn get_operands<V: OperandVisitor>(&self, collector: &mut V) -> Result<(), OperandError> {
        report_inst(collector, false, self)
    }

    /// Its output and its input for `Mov32`, `Mov64`, `FpuMove32`, `FpuMove64` and `VecMov`; else None.
    fn is_move(&self) -> Option<(Writable<Reg>, Reg)> {
        match self {
            Inst::Mov32 { rd, rm } | Inst::Mov64 { rd, rm } => Some((*rd, *rm)),
            Inst::Vector(VecInst::FpuMove32 { rd, rn })
            | Inst::Vector(VecInst::FpuMove64 { rd, rn })
            | Inst::Vector(VecInst::VecMov { rd, rn }) => Some((*rd, *rn)),
            _ => None,
        }
    }

    /// False for `Args`, and for a `Call` of equal conventions without handlers; else true.
    fn is_included_in_clobbers(&self) -> bool {
        match self {
            Inst::Args { .. } => false,
            Inst::Call { info, .. } => {
                info.caller_conv != info.callee_conv || info.try_call_info.is_some()
            }
            _ => true,
        }
    }

    /// True exactly for `Trap`.
    fn is_trap(&self) -> bool {
        matches!(self, Inst::Trap { .. })
    }

    /// True exactly for `Args`.
    fn is_args(&self) -> bool {
        matches!(self, Inst::Args { .. })
    }

    /// True exactly for `Call`.
    fn is_safepoint(&self) -> bool {
        matches!(self, Inst::Call { .. })
    }

    /// `Ret` for `Rets`, `RetCall` for `ReturnCall`, `Branch` for `Jump`, `CondBr`, `IndirectBr`, `JTSequence` and a
    /// `Call` with handlers, else `None`.
    fn is_term(&self) -> MachTerminator {
        match self {
            Inst::Rets { .. } => MachTerminator::Ret,
            Inst::ReturnCall { .. } => MachTerminator::RetCall,
            Inst::Jump { .. }
            | Inst::CondBr { .. }
            | Inst::IndirectBr { .. }
            | Inst::JTSequence { .. } => MachTerminator::Branch,
            Inst::Call { info, .. } if info.try_call_info.is_some() => MachTerminator::Branch,
            _ => MachTerminator::None,
        }
    }

    /// `Regular` for `Call`, `TailCall` for `ReturnCall`, else `None`.
    fn call_type(&self) -> CallType {
        match self {
            Inst::Call { .. } => CallType::Regular,
            Inst::ReturnCall { .. } => CallType::TailCall,
            _ => CallType::None,
        }
    }

    /// `Inst::mov32` up to 32 bits, `Inst::mov64` up to 64, else `Inst::mov128`.
    ///
    /// Condition: both registers are of one class, and of class Float for a type of 128 bits.
    fn gen_move(to_reg: Writable<Reg>, from_reg: Reg, ty: ValueType) -> Inst {
        let bits = ty.bits();
        if bits <= 32 {
            Inst::mov32(to_reg, from_reg)
        } else if bits <= 64 {
            Inst::mov64(to_reg, from_reg)
        } else {
            Inst::mov128(to_reg, from_reg)
        }
    }

    /// `Nop0` for 0 bytes, else `Nop2`.
    ///
    /// Condition: the wanted size isn't 1, for which there is no instruction.
    fn gen_nop(preferred_size: usize) -> Inst {
        if preferred_size == 0 {
            Inst::Nop0
        } else {
            Inst::Nop2
        }
    }

    /// One unit, `07 07`.
    fn gen_nop_units(alloc: Global) -> Result<Vec<Vec<u8>>, NoMemory> {
        match nop_units(alloc) {
            Ok(units) => Ok(units),
            Err(_) => Err(NoMemory),
        }
    }

    /// Int for integers up to 64 bits; Float for floats and `I128`; Float as `I8X16` for vectors of 128 bits.
    /// `Unsupported` exactly for `I8X8`, which it carries.
    fn rc_for_type(ty: ValueType) -> Result<(RegClass, ValueType), CodegenError> {
        match ty {
            ValueType::I8 | ValueType::I16 | ValueType::I32 | ValueType::I64 => {
                Ok((RegClass::Int, ty))
            }
            ValueType::F16 | ValueType::F32 | ValueType::F64 | ValueType::F128 | ValueType::I128 =>
                Ok((RegClass::Float, ty)),
            ValueType::I8X16
            | ValueType::I16X8
            | ValueType::I32X4
            | ValueType::I64X2
            | ValueType::F32X4
            | ValueType::F64X2 => Ok((RegClass::Float, ValueType::I8X16)),
            ValueType::I8X8 => Err(CodegenError::Unsupported(ty)),
        }
    }

    /// `I64` for Int, `I8X16` for Float.
    fn canonical_type_for_rc(rc: RegClass) -> ValueType {
        match rc {
            RegClass::Int => ValueType::I64,
            RegClass::Float => ValueType::I8X16,
        }
    }

    /// `Jump`.
    fn gen_jump(target: MachLabel) -> Inst {
        Inst::Jump { dest: target }
    }

    /// `DummyUse`.
    fn gen_dummy_use(reg: Reg) -> Inst {
        Inst::DummyUse { reg }
    }

    /// 44. `Loop`, `Call`, `ReturnCall` and `JTSequence`, which have lists, may have more.
    fn worst_case_size() -> CodeOffset {
        44
    }

    /// 0: no branch needs an island.
    fn worst_case_island_growth() -> CodeOffset {
        0
    }

    /// A multiple of 4, which is preferred too.
    fn function_alignment() -> FunctionAlignment {
        FunctionAlignment {
            minimum: 4,
            preferred: 4,
        }
    }
}
