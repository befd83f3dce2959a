//! Which instructions end a block, and which ones a plan can't be made for.
ghost use Rattle.std.specs.Prelude.{◌≡◌};
ghost use Rattle.s390x_alloc.specs.Shape.{ending, first_misshapen, first_unsupported, is_end, is_leading, is_misshapen, is_try_call, is_unsupported, memory_labels, named_labels, names_no_block};

use crate::memory::memory_operand;
use s390x_base::MachLabel;
use s390x_inst::{Inst, MemArg};

/// Whether the instruction names the blocks that it leads to: a `Jump`, `CondBr`, `IndirectBr` or `JTSequence`.
pub fn is_leading(inst: &Inst) -> bool
    ensures { result ≡ is_leading (ending inst.now) }
{
    match inst {
        Inst::Jump { .. }
        | Inst::CondBr { .. }
        | Inst::IndirectBr { .. }
        | Inst::JTSequence { .. } => true,
        _ => false,
    }
}

/// Whether nothing behind the instruction runs, where it is the last one of its block.
pub fn is_end(inst: &Inst) -> bool
    ensures { result ≡ is_end (ending inst.now) }
{
    match inst {
        Inst::Jump { .. }
        | Inst::CondBr { .. }
        | Inst::IndirectBr { .. }
        | Inst::JTSequence { .. }
        | Inst::Ret { .. }
        | Inst::ReturnCall { .. }
        | Inst::Trap { .. } => true,
        _ => false,
    }
}

// Whether the instruction is a call with handlers of exceptions.
fn is_try_call(inst: &Inst) -> bool
    ensures { result ≡ is_try_call inst.now }
{
    match inst {
        Inst::Call { info, .. } => info.try_call_info.is_some(),
        _ => false,
    }
}

// Whether no plan can be made for the instruction.
fn is_unsupported(inst: &Inst) -> bool
    ensures { result ≡ is_unsupported inst.now }
{
    match inst {
        Inst::Loop { .. } => true,
        _ => is_try_call(inst),
    }
}

/// The first `Loop`, or call with handlers of exceptions, by its number.
pub fn first_unsupported(insts: &[Inst]) -> Option<usize>
    ensures { result ≡ first_unsupported 0 insts.now }
{
    for (number, inst) in insts.iter().enumerate() {
        if is_unsupported(inst) {
            return Some(number);
        }
    }
    None
}

// Whether one of the labels is none of so many blocks.
fn names_no_block(count: usize, labels: &[MachLabel]) -> bool
    ensures { result ≡ names_no_block count labels.now }
{
    for label in labels {
        if label.0 as usize >= count {
            return true;
        }
    }
    false
}

// Whether an operand in memory is the address of a label that is none of so many blocks.
fn operand_names_no_block(count: usize, operand: Option<MemArg>) -> bool
    ensures { result ≡ names_no_block count (memory_labels operand) }
{
    match operand {
        Some(MemArg::Label { target }) => names_no_block(count, &[target]),
        _ => false,
    }
}

// Whether the instruction names a label that is none of so many blocks.
fn inst_names_no_block(count: usize, inst: &Inst) -> bool
    ensures { result ≡ names_no_block count (named_labels inst.now) }
{
    match inst {
        Inst::Jump { dest } => names_no_block(count, &[*dest]),
        Inst::CondBr {
            taken,
            not_taken,
            ..
        } => names_no_block(count, &[*taken, *not_taken]),
        Inst::IndirectBr { targets, .. } => names_no_block(count, targets),
        Inst::JTSequence {
            default,
            targets,
            ..
        } => names_no_block(count, &[*default]) || names_no_block(count, targets),
        Inst::LabelAddress { label, .. } => names_no_block(count, &[*label]),
        _ => operand_names_no_block(count, memory_operand(inst)),
    }
}

// Whether the instruction leads to other blocks, though there are others behind it in its own, or names a label that is none of so many blocks.
fn is_misshapen(count: usize, inst: &Inst, behind: &[Inst]) -> bool
    ensures { result ≡ is_misshapen count inst.now behind.now }
{
    is_leading(inst) && !behind.is_empty() || inst_names_no_block(count, inst)
}

/// The first instruction that leads to other blocks before the end of its own, or that names a label that is none of so many blocks, by its number.
pub fn first_misshapen(count: usize, insts: &[Inst]) -> Option<usize>
    ensures { result ≡ first_misshapen count 0 insts.now }
{
    for (number, inst) in insts.iter().enumerate() {
        if is_misshapen(count, inst, &insts[number + 1..]) {
            return Some(number);
        }
    }
    None
}
