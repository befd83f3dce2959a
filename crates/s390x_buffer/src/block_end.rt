//! Branches that are recorded, and what the end of a block makes of bytes and uses.
ghost use Rattle.std.specs.Prelude.{◌≡◌, ◌≢◌, ◌+◌, ◌<◌, ◌++◌, ◌∷◌, [], length, take, nat_eq, MatchOption, MatchResult, remove};
ghost use Rattle.s390x_buffer.specs.BlockEnd.{is_branch_use, without_use, end_at, jump_behind, with_jump, with_conditional};
ghost use Rattle.s390x_buffer.specs.declared.label_use.LabelUse.TheVariants.{BranchRIL};

use crate::entries::{LabelFixup, RecordedBranches};
use crate::label_use::LabelUse;
use s390x_base::{Code, CodeOffset, MachLabel};
use std::alloc::AllocError;

/// The bytes of a code of six.
pub fn six_bytes(code: &Code) -> [u8; 6]
    requires { length code.now ≡ 6 }
    ensures { result ≡ code.now }
{
    match code.bytes() {
        [a, b, c, d, e, f] => [*a, *b, *c, *d, *e, *f],
        _ => unreachable!(),
    }
}

/// Whether so many bytes from a start end here.
pub fn ends_at(start: CodeOffset, len: usize, here: CodeOffset) -> bool
    requires { len < 256 }
    ensures { result ≡ nat_eq (start + len) here }
{
    start as usize + len == here as usize
}

// Whether the recorded branches end here.
fn end_at(branches: RecordedBranches, here: CodeOffset) -> bool
    ensures { result ≡ end_at branches here }
{
    match branches {
        RecordedBranches::NoBranch => false,
        RecordedBranches::LoneJump { start, .. } => ends_at(start, 6, here),
        RecordedBranches::LoneConditional { start, .. } => ends_at(start, 6, here),
        RecordedBranches::ConditionalThenJump { start, .. } => ends_at(start, 12, here),
        RecordedBranches::OtherBranches { end } => end == here,
    }
}

// Branches, and one that is always taken right behind them.
fn jump_behind(
    branches: RecordedBranches,
    start: CodeOffset,
    end: CodeOffset,
    target: MachLabel,
) -> RecordedBranches
    requires { end ≡ start + 6 }
    ensures { result ≡ jump_behind branches start target }
{
    match branches {
        RecordedBranches::LoneConditional {
            start,
            target: taken,
            inverted,
        } => RecordedBranches::ConditionalThenJump {
            start,
            taken,
            not_taken: target,
            inverted,
        },
        _ => RecordedBranches::OtherBranches { end },
    }
}

/// What is recorded with one more that is always taken.
pub fn with_jump(
    branches: RecordedBranches,
    start: CodeOffset,
    end: CodeOffset,
    target: MachLabel,
) -> RecordedBranches
    requires { end ≡ start + 6 }
    ensures { result ≡ with_jump branches start target }
{
    if end_at(branches, start) {
        return jump_behind(branches, start, end, target);
    }
    RecordedBranches::LoneJump { start, target }
}

/// What is recorded with one more that is conditional.
pub fn with_conditional(
    branches: RecordedBranches,
    start: CodeOffset,
    end: CodeOffset,
    target: MachLabel,
    inverted: [u8; 6],
) -> RecordedBranches
    requires { end ≡ start + 6 }
    ensures { result ≡ with_conditional branches start target inverted }
{
    if end_at(branches, start) {
        return RecordedBranches::OtherBranches { end };
    }
    RecordedBranches::LoneConditional {
        start,
        target,
        inverted,
    }
}

// Whether a use is that of a branch at an offset to a label.
fn is_branch_use(u: LabelFixup, start: CodeOffset, target: MachLabel) -> bool
    ensures { result ≡ is_branch_use start target.0 u }
{
    matches!(u.kind, LabelUse::BranchRIL) && u.offset == start && u.label.0 == target.0
}

// Where the last use of a branch stands. A block's own stand at the end.
#[tactic(auto, using(crate::proofs::Ending::last_found, crate::proofs::Ending::none_found, crate::proofs::Ending::none_more, crate::proofs::Ending::none_behind))]
fn last_use(uses: &[LabelFixup], start: CodeOffset, target: MachLabel) -> Option<usize>
    ensures { MatchOption result (without_use start target.0 uses.now ≡ uses.now)
        (λ i. (i < length uses.now) × (without_use start target.0 uses.now ≡ remove uses.now i)) }
{
    for i in (0..uses.len()).rev() {
        if is_branch_use(uses[i], start, target) {
            return Some(i);
        }
    }
    None
}

// Drops the last use of a branch, wherever it stands.
fn drop_any_use(uses: &mut Vec<LabelFixup>, start: CodeOffset, target: MachLabel)
    ensures { uses.new.items ≡ without_use start target.0 uses.old.items }
{
    match last_use(uses, start, target) {
        Some(i) => {
            uses.remove(i);
        }
        None => {}
    }
}

/// Drops the last use of a branch. Most often it is the last of all.
#[tactic(auto, using(crate::proofs::Ending::last_dropped))]
pub fn drop_use(uses: &mut Vec<LabelFixup>, start: CodeOffset, target: MachLabel)
    ensures { uses.new.items ≡ without_use start target.0 uses.old.items }
{
    let count = uses.len();
    if count != 0 {
        let last = count - 1;
        if is_branch_use(uses[last], start, target) {
            uses.truncate(last);
            return;
        }
    }
    drop_any_use(uses, start, target);
}

/// Drops the uses of a conditional branch and of the one behind it, and puts one of a branch to the second one's label.
#[tactic(auto, using(crate::proofs::Ending::inverted_uses))]
pub fn invert_uses(
    uses: &mut Vec<LabelFixup>,
    start: CodeOffset,
    taken: MachLabel,
    not_taken: MachLabel,
) -> Result<(), AllocError>
    requires small { start + 12 < 4294967296 }
    requires differ { taken.0 ≢ not_taken.0 }
    ensures { MatchResult result
        (λ _. uses.new.items
        ≡ without_use start taken.0 (without_use (start + 6) not_taken.0 uses.old.items)
        ++ record { kind = BranchRIL; offset = start; label = not_taken } ∷ [])
        (λ _. uses.new.items ≡ uses.old.items) }
{
    uses.push(LabelFixup {
        kind: LabelUse::BranchRIL,
        offset: start,
        label: not_taken,
    })?;
    drop_use(uses, start + 6, not_taken);
    drop_use(uses, start, taken);
    Ok(())
}

/// Puts a branch in place of the last twelve bytes.
pub fn put_last(bytes: &mut Vec<u8>, start: usize, branch: [u8; 6])
    requires { start + 12 ≡ length bytes.old.items }
    ensures { bytes.new.items ≡ take start bytes.old.items ++ branch }
{
    bytes.truncate(start + 6);
    bytes[start..].copy_from_slice(&branch);
}
