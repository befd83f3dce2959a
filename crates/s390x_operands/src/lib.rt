//! The operands of each instruction, as a register allocator reads them.
#![tactic(auto)]

mod arithmetic;
mod calls;
mod constraint;
mod control;
mod list;
mod mach_inst;
mod moves;
mod multiple;
mod operands;
mod report;
mod storage;
mod vectors;
mod visitor;

pub use constraint::{OperandConstraint, OperandError, OperandKind, OperandPos, Reported};
pub use list::OperandList;
pub use mach_inst::{CallType, CodegenError, FunctionAlignment, MachInst, MachTerminator};
pub use visitor::{DenyReuseVisitor, OperandVisitor};
