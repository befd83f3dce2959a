//! The blocks to which a block leads, as lists of predecessors.
ghost use Rattle.std.specs.Prelude.{◌≡◌, ℕ, ◌+◌, ◌<◌, ◌&&◌, true, nat_eq, nat_lt, IfOk, length};
ghost use Rattle.s390x_alloc.specs.Entries.{ends_with, numbers_at, put_once};
ghost use Rattle.s390x_alloc.specs.Shape.{ending, ends_before, is_label_in, precedes};

use s390x_base::MachLabel;
use s390x_inst::Inst;
use std::alloc::AllocError;

// Whether the last of these is the number.
fn is_last(numbers: &[usize], number: usize) -> bool
    ensures { result ≡ ends_with numbers.now number }
{
    match numbers.last() {
        Some(last) => *last == number,
        None => false,
    }
}

// A number behind these, unless it is the last of them.
fn push_once(numbers: &mut Vec<usize>, number: usize) -> Result<(), AllocError>
    ensures { IfOk result (λ _. numbers.new.items ≡ put_once true number numbers.old.items) }
{
    if is_last(numbers, number) {
        return Ok(());
    }
    numbers.push(number)?;
    Ok(())
}

// Block `here` behind the predecessors of a block, where that is one of those with a list.
fn add_once(before: &mut [Vec<usize>], block: usize, here: usize) -> Result<(), AllocError>
    ensures size { length before.new ≡ length before.old }
    ensures lists { IfOk result
        (λ _. (n : ℕ) → n < length before.old
        → numbers_at before.new n ≡ put_once (nat_eq block n) here (numbers_at before.old n)) }
{
    if block < before.len() {
        push_once(&mut before[block], here)?;
    }
    Ok(())
}

// Block `here` behind the predecessors of the blocks with these labels.
#[tactic(auto, using(crate::proofs::Leading::label_turn))]
fn add_labels(
    before: &mut [Vec<usize>],
    labels: &[MachLabel],
    here: usize,
) -> Result<(), AllocError>
    ensures size { length before.new ≡ length before.old }
    ensures lists { IfOk result
        (λ _. (n : ℕ) → n < length before.old
        → numbers_at before.new n
        ≡ put_once (is_label_in labels.now n) here (numbers_at before.old n)) }
{
    for label in labels {
        add_once(before, label.0 as usize, here)?;
    }
    Ok(())
}

// Block `here` behind the predecessors of the next one, where it isn't the last of `count` blocks.
fn add_next(before: &mut [Vec<usize>], count: usize, here: usize) -> Result<(), AllocError>
    requires { here < count }
    ensures size { length before.new ≡ length before.old }
    ensures lists { IfOk result
        (λ _. (n : ℕ) → n < length before.old
        → numbers_at before.new n
        ≡ put_once (nat_eq (here + 1) n && nat_lt n count) here (numbers_at before.old n)) }
{
    if here + 1 < count {
        add_once(before, here + 1, here)?;
    }
    Ok(())
}

// Block `here` of `count` blocks, which ends with the instruction, behind the predecessors of each of its successors.
#[tactic(auto, using(crate::proofs::Leading::put_both))]
fn add_ending(
    before: &mut [Vec<usize>],
    count: usize,
    here: usize,
    inst: &Inst,
) -> Result<(), AllocError>
    requires { here < count }
    ensures size { length before.new ≡ length before.old }
    ensures lists { IfOk result
        (λ _. (n : ℕ) → n < length before.old
        → numbers_at before.new n
        ≡ put_once (ends_before count here (ending inst.now) n) here
        (numbers_at before.old n)) }
{
    match inst {
        Inst::Jump { dest } => add_labels(before, &[*dest], here),
        Inst::CondBr {
            taken,
            not_taken,
            ..
        } => add_labels(before, &[*taken, *not_taken], here),
        Inst::IndirectBr { targets, .. } => add_labels(before, targets, here),
        Inst::JTSequence {
            default,
            targets,
            ..
        } => {
            add_labels(before, &[*default], here)?;
            add_labels(before, targets, here)
        }
        Inst::Ret { .. } | Inst::ReturnCall { .. } | Inst::Trap { .. } => Ok(()),
        _ => add_next(before, count, here),
    }
}

/// Block `here` of `count` blocks, which has these instructions, behind the predecessors of each of its successors that has a list: of the blocks that its
/// last instruction names, if that is a `Jump`, `CondBr`, `IndirectBr` or `JTSequence`; of none behind a `Ret`, `ReturnCall` or `Trap`; else of the next one.
/// A block that is the last one of a list already stays so. After `AllocError` some may lack it.
pub fn add_successors(
    before: &mut [Vec<usize>],
    count: usize,
    here: usize,
    insts: &[Inst],
) -> Result<(), AllocError>
    requires { here < count }
    ensures size { length before.new ≡ length before.old }
    ensures lists { IfOk result
        (λ _. (n : ℕ) → n < length before.old
        → numbers_at before.new n
        ≡ put_once (precedes count here insts.now n) here (numbers_at before.old n)) }
{
    match insts.last() {
        Some(inst) => add_ending(before, count, here, inst),
        None => add_next(before, count, here),
    }
}
