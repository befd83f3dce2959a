//! Why a plan is refused.
ghost use Rattle.std.specs.Prelude.{◌≡◌, IfSome};
ghost use Rattle.s390x_alloc.specs.Faults.{IsTold, edit_fault};

use s390x_operands::OperandError;
use thiserror::Error;

/// Why a plan is refused. Blocks, instructions, edits, operands and pairs are counted from 0. The displayed text is the variant's name.
#[derive(Clone, Copy, PartialEq, Debug, Error)]
pub enum PlanFault {
    /// The function and the plan differ in their number of blocks.
    #[error("Blocks")]
    Blocks,
    /// A `Loop`, or a `Call` with handlers of exceptions.
    #[error("Unsupported")]
    Unsupported {
        block: u32,
        inst: u32,
    },
    /// A `Jump`, `CondBr`, `IndirectBr` or `JTSequence` before the last instruction of its block, or a label that is no block.
    #[error("Shape")]
    Shape {
        block: u32,
        inst: u32,
    },
    /// A `Step` without an instruction, or a `Move` behind the instruction that leaves the block; at the number of edits, an instruction without a `Step`.
    #[error("Order")]
    Order {
        block: u32,
        edit: u32,
    },
    /// `get_operands` refuses the instruction.
    #[error("Operands")]
    Operands {
        block: u32,
        edit: u32,
        cause: OperandError,
    },
    /// There are more or fewer registers than operands.
    #[error("Count")]
    Count {
        block: u32,
        edit: u32,
    },
    /// The register doesn't meet the operand's constraint, or a virtual operand gets `%r0`, `%r1` or `%r15`.
    #[error("Constraint")]
    Constraint {
        block: u32,
        edit: u32,
        operand: u32,
    },
    /// A move that is no instruction, that names `%r0`, `%r1`, `%r15` or a slot without room, or that changes a value's class.
    #[error("Move")]
    Move {
        block: u32,
        edit: u32,
    },
    /// The operand's register doesn't hold the virtual register that is read.
    #[error("Value")]
    Value {
        block: u32,
        edit: u32,
        operand: u32,
    },
    /// A pair that isn't held where its block begins.
    #[error("Entry")]
    Entry {
        block: u32,
        pair: u32,
    },
    /// No memory.
    #[error("NoMemory")]
    NoMemory,
}

/// Why an edit is refused.
#[derive(Clone, Copy, PartialEq, Debug)]
pub enum EditCause {
    /// It has no instruction, or stands behind the end of the block.
    Misplaced,
    /// `get_operands` refuses the instruction.
    Unreported(OperandError),
    /// There are more or fewer registers than operands.
    Miscounted,
    /// The register of the operand with this number doesn't suit it.
    Unsuited(usize),
    /// It is no move.
    Immovable,
    /// The operand with this number reads a register that its place doesn't hold.
    Unheld(usize),
    /// No memory.
    NoMemory,
}

// A number as a fault tells it, where it fits.
fn number_of_place(number: usize) -> Option<u32>
    ensures { IfSome result (λ n. n ≡ number) }
{
    if number > 4294967295 {
        return None;
    }
    Some(number as u32)
}

/// The fault of an instruction that no plan is for. A number of 2^32 or above is told as want of memory, here and below.
pub fn unsupported_at(block: usize, inst: usize) -> PlanFault
    ensures { IsTold (PlanFault.Unsupported block inst) result }
{
    match (number_of_place(block), number_of_place(inst)) {
        (Some(block), Some(inst)) => PlanFault::Unsupported { block, inst },
        _ => PlanFault::NoMemory,
    }
}

/// The fault of an instruction at a wrong place, or with a label that is no block.
pub fn shape_at(block: usize, inst: usize) -> PlanFault
    ensures { IsTold (PlanFault.Shape block inst) result }
{
    match (number_of_place(block), number_of_place(inst)) {
        (Some(block), Some(inst)) => PlanFault::Shape { block, inst },
        _ => PlanFault::NoMemory,
    }
}

/// The fault of a pair with which a block may not begin.
pub fn entry_fault_at(block: usize, pair: usize) -> PlanFault
    ensures { IsTold (PlanFault.Entry block pair) result }
{
    match (number_of_place(block), number_of_place(pair)) {
        (Some(block), Some(pair)) => PlanFault::Entry { block, pair },
        _ => PlanFault::NoMemory,
    }
}

// The fault of an edit at a place whose numbers fit.
fn fault_of(block: u32, edit: u32, cause: EditCause) -> PlanFault
    ensures { IsTold (edit_fault block edit cause) result }
{
    match cause {
        EditCause::Unsuited(operand) => match number_of_place(operand) {
            Some(operand) => PlanFault::Constraint {
                block,
                edit,
                operand,
            },
            None => PlanFault::NoMemory,
        },
        EditCause::Unheld(operand) => match number_of_place(operand) {
            Some(operand) => PlanFault::Value {
                block,
                edit,
                operand,
            },
            None => PlanFault::NoMemory,
        },
        EditCause::Misplaced => PlanFault::Order { block, edit },
        EditCause::Unreported(cause) => PlanFault::Operands { block, edit, cause },
        EditCause::Miscounted => PlanFault::Count { block, edit },
        EditCause::Immovable => PlanFault::Move { block, edit },
        EditCause::NoMemory => PlanFault::NoMemory,
    }
}

/// The fault of an edit of a block.
pub fn edit_fault(block: usize, edit: usize, cause: EditCause) -> PlanFault
    ensures { IsTold (edit_fault block edit cause) result }
{
    match (number_of_place(block), number_of_place(edit)) {
        (Some(block), Some(edit)) => fault_of(block, edit, cause),
        _ => PlanFault::NoMemory,
    }
}
