//! A choice at a block's end of which one branch stays: that one alone is put, and nothing is left to be folded.
#![tactic(auto, using(s390x_buffer::proofs::Extending::extends_on, s390x_buffer::proofs::Extending::extends_same))]

ghost use Rattle.std.specs.Prelude.{◌≡◌, ◌≢◌, ◌+◌, ◌<◌, Some, None, length, nat_lt, OnOk, IfSome};
ghost use Rattle.s390x_base.specs.declared.error.EmitError.TheVariants.{LabelOutOfRange};
ghost use Rattle.s390x_buffer.specs.Extends.{Extends};
ghost use Rattle.s390x_buffer.specs.State.{limit};
ghost use Rattle.s390x_typed_steps.specs.Causes.{first_emit_cause, unless, target_label_cause, numbers_cause};
ghost use Rattle.s390x_typed_steps.specs.Ranges.{IsConditionMask};
ghost use Rattle.s390x_emit_int.specs.Emission.{branch};
ghost use Rattle.s390x_emit_int.specs.Fragments.{StartStep, apply};
ghost use Rattle.s390x_emit_int.specs.Function.{number_of_next};
ghost use Rattle.s390x_emit_int.specs.LastChoice.{choice_of, IsLastOf};
ghost use Rattle.s390x_emit_int.specs.Room.{MembersFit, OnlyOutOfMemory};

use crate::causes::{cause_unless, two_labels_cause};
use crate::instruction::{put_branch, reveal_label_range};
use s390x_address::LIMIT;
use s390x_base::{Cond, EmitError, MachLabel};
use s390x_buffer::MachBuffer;
use s390x_inst::Inst;

/// A branch to `taken` under a condition, or else to `not_taken`, which is the next block.
#[derive(Clone, Copy)]
pub struct LastChoice {
    pub taken: MachLabel,
    pub not_taken: MachLabel,
    pub cond: Cond,
}

// The choice that an instruction is, where its second branch leads to the next block and its first one doesn't.
fn choice_before(inst: &Inst, next: MachLabel) -> Option<LastChoice>
    ensures { IfSome result
        (λ choice. (inst.now ≡ choice_of choice) × (choice.not_taken.0 ≡ next.0)
        × (choice.taken.0 ≢ choice.not_taken.0)) }
{
    match inst {
        Inst::CondBr {
            taken,
            not_taken,
            cond,
        } => {
            if not_taken.0 == next.0 && taken.0 != not_taken.0 {
                Some(LastChoice {
                    taken: *taken,
                    not_taken: *not_taken,
                    cond: *cond,
                })
            } else {
                None
            }
        }
        _ => None,
    }
}

/// The choice that a block's last instruction is, where its second branch leads to the next block and its first one doesn't.
pub fn last_choice(insts: &[Inst], next: Option<MachLabel>) -> Option<LastChoice>
    ensures last { IfSome result (IsLastOf insts.now) }
    ensures next { IfSome result
        (λ choice. (number_of_next next ≡ Some choice.not_taken.0)
        × (choice.taken.0 ≢ choice.not_taken.0)) }
{
    match next {
        Some(next) => match insts.last() {
            Some(last) => choice_before(last, next),
            None => None,
        },
        None => None,
    }
}

// Why a choice can't stand there: one of its labels names no block, or there is no room for both its branches.
fn choice_cause(sink: &MachBuffer, taken: MachLabel, not_taken: MachLabel) -> Option<EmitError>
    ensures { result
        ≡ first_emit_cause
        (first_emit_cause (target_label_cause sink.now.block_count taken)
        (target_label_cause sink.now.block_count not_taken))
        (unless (nat_lt (length sink.now.bytes + 12) limit) LabelOutOfRange) }
{
    match two_labels_cause(sink.block_count(), taken, not_taken) {
        Some(error) => Some(error),
        None => cause_unless(
            u64::from(sink.cur_offset()) + 12 < LIMIT,
            EmitError::LabelOutOfRange,
        ),
    }
}

/// Puts the branch of a choice that stays, with its step place, where both its branches could stand there. An error comes where one couldn't: where a
/// label names no block (`UnboundLabel`) or both together get too long (`LabelOutOfRange`); where the buffer is poisoned (`Failed`); or for want of
/// memory (`NoMemory`).
pub fn put_last_choice(sink: &mut MachBuffer, choice: LastChoice) -> Result<(), EmitError>
    ensures answer { OnOk result
        (sink.new ≡ apply (apply sink.old StartStep) (branch choice.cond choice.taken.0)) }
    ensures cause { OnOk result
        (first_emit_cause (target_label_cause sink.old.block_count choice.taken)
        (target_label_cause sink.old.block_count choice.not_taken) ≡ None) }
    ensures numbers { numbers_cause (length sink.old.labels) 0 ≡ None }
    ensures room { OnOk result (length sink.old.bytes + 12 < limit) }
    ensures range { OnOk result (IsConditionMask choice.cond) }
    ensures only_memory { MembersFit sink.old 0 0 12
        (first_emit_cause (target_label_cause sink.old.block_count choice.taken)
        (target_label_cause sink.old.block_count choice.not_taken)) → OnlyOutOfMemory result }
    ensures kept { Extends sink.old sink.new }
{
    let LastChoice {
        taken,
        not_taken,
        cond,
    } = choice;
    reveal_label_range(sink);
    sink.start_step()?;
    match choice_cause(sink, taken, not_taken) {
        Some(error) => Err(error),
        None => put_branch(sink, cond.bits(), taken),
    }
}
