//! Patching the uses of labels.
ghost use Rattle.std.specs.Prelude.{◌≡◌, ◌+◌, ◌≤◌, ◌<◌, None, Some, true, length, MatchResult, IsTrue};
ghost use Rattle.s390x_buffer.specs.Patch.{set2, set4, word_from, half_between, distance_between, patch, patch_all, offset_of_label, is_bound, is_in_reach, sum_fits, can_patch, use_cause, uses_cause, max_pos_range, max_neg_range, patch_size};

use crate::entries::LabelFixup;
use crate::label_use::LabelUse;
use crate::mach_inst_label_use::MachInstLabelUse;
use s390x_base::{CodeOffset, EmitError};

// Writes the lower half of a word, the most significant byte first.
fn write2(bytes: &mut [u8], at: usize, value: u32)
    requires { at + 2 ≤ length bytes.old }
    ensures { bytes.new ≡ set2 bytes.old at value }
{
    bytes[at] = (value / 256 % 256) as u8;
    bytes[at + 1] = (value % 256) as u8;
}

// Writes a word, the most significant byte first.
fn write4(bytes: &mut [u8], at: usize, value: u32)
    requires { at + 4 ≤ length bytes.old }
    ensures { bytes.new ≡ set4 bytes.old at value }
{
    bytes[at] = (value / 16777216 % 256) as u8;
    bytes[at + 1] = (value / 65536 % 256) as u8;
    bytes[at + 2] = (value / 256 % 256) as u8;
    bytes[at + 3] = (value % 256) as u8;
}

// The word there.
fn read4(bytes: &[u8], at: usize) -> u64
    requires { at + 4 ≤ length bytes.now }
    ensures value { result ≡ word_from bytes.now at }
    ensures fits { result < 4294967296 }
{
    u64::from(bytes[at]) * 16777216
        + u64::from(bytes[at + 1]) * 65536
        + u64::from(bytes[at + 2]) * 256
        + u64::from(bytes[at + 3])
}

// Half the distance, modulo 2^32.
fn half_between(offset: CodeOffset, target: CodeOffset) -> u32
    ensures { result ≡ half_between offset target }
{
    if target >= offset {
        (target - offset) / 2
    } else {
        u32::MAX - (offset - target - 1) / 2
    }
}

// The distance, modulo 2^32.
fn distance_between(offset: CodeOffset, target: CodeOffset) -> u32
    ensures { result ≡ distance_between offset target }
{
    ((4294967296 + u64::from(target) - u64::from(offset)) % 4294967296) as u32
}

/// Patches a use of a target into bytes in which it begins at an index; the offset is its offset in the code.
pub fn patch_at(bytes: &mut [u8], at: usize, kind: LabelUse, offset: CodeOffset, target: CodeOffset)
    requires { at + patch_size kind ≤ length bytes.old }
    ensures { bytes.new ≡ patch kind at offset target bytes.old }
{
    match kind {
        LabelUse::BranchRI => write2(bytes, at + 2, half_between(offset, target)),
        LabelUse::BranchRIL => write4(bytes, at + 2, half_between(offset, target)),
        LabelUse::PCRel32 => {
            let sum = (read4(bytes, at) + u64::from(distance_between(offset, target))) % 4294967296;
            write4(bytes, at, sum as u32)
        }
        LabelUse::PCRel32Dbl => {
            let sum = (read4(bytes, at) + u64::from(half_between(offset, target)) + 1) % 4294967296;
            write4(bytes, at, sum as u32)
        }
    }
}

/// Where the label stands; 0 where it was never bound.
pub fn offset_of_label(labels: &[Option<CodeOffset>], label: u32) -> CodeOffset
    ensures { result ≡ offset_of_label labels.now label }
{
    if (label as usize) < labels.len() {
        labels[label as usize].unwrap_or(0)
    } else {
        0
    }
}

// Whether the label was bound.
fn label_bound(labels: &[Option<CodeOffset>], label: u32) -> bool
    ensures { result ≡ is_bound labels.now label }
{
    if (label as usize) < labels.len() {
        labels[label as usize].is_some()
    } else {
        false
    }
}

// Whether the distance is even and in the range of the use.
fn reaches(kind: LabelUse, offset: CodeOffset, target: CodeOffset) -> bool
    ensures { result ≡ is_in_reach kind offset target }
{
    let (offset, target) = (u64::from(offset), u64::from(target));
    (offset + target) % 2 == 0
        && target <= offset + u64::from(kind.max_pos_range())
        && offset <= target + u64::from(kind.max_neg_range())
}

// Whether the sum of a table's word and the distance is a signed word.
fn fits_sum(bytes: &[u8], kind: LabelUse, offset: CodeOffset, target: CodeOffset) -> bool
    requires { offset + 4 ≤ length bytes.now }
    ensures { result ≡ sum_fits kind (word_from bytes.now offset) offset target }
{
    match kind {
        LabelUse::PCRel32 => {
            let word = read4(bytes, offset as usize);
            let sum = (word + 2147483648) % 4294967296 + u64::from(target);
            u64::from(offset) <= sum && sum < u64::from(offset) + 4294967296
        }
        _ => true,
    }
}

// Whether the use of a target can be patched into the bytes.
fn is_patchable(bytes: &[u8], kind: LabelUse, offset: CodeOffset, target: CodeOffset) -> bool
    ensures { result ≡ can_patch kind offset target bytes.now }
{
    u64::from(offset) + u64::from(kind.patch_size()) <= bytes.len() as u64
        && reaches(kind, offset, target)
        && fits_sum(bytes, kind, offset, target)
}

// Why the use can't be patched.
fn use_cause(bytes: &[u8], labels: &[Option<CodeOffset>], fixup: LabelFixup) -> Option<EmitError>
    ensures { result ≡ use_cause labels.now bytes.now fixup }
{
    if !label_bound(labels, fixup.label.0) {
        return Some(EmitError::UnboundLabel);
    }
    let target = offset_of_label(labels, fixup.label.0);
    if !is_patchable(bytes, fixup.kind, fixup.offset, target) {
        return Some(EmitError::LabelOutOfRange);
    }
    None
}

/// Patches each use to its label, in order. Refused where a use can't be patched into the bytes
/// that the earlier ones left: by `UnboundLabel` where its label was never bound, and by
/// `LabelOutOfRange` where its distance is odd or out of its range, a patched `PCRel32` sum
/// leaves signed 32 bits, or its bytes lie past the end.
#[inline(never)]
pub fn patch_uses(
    bytes: &mut [u8],
    labels: &[Option<CodeOffset>],
    uses: &[LabelFixup],
) -> Result<(), EmitError>
    ensures { MatchResult result
        (λ _. (uses_cause labels.now uses.now bytes.old ≡ None)
        × (bytes.new ≡ patch_all (offset_of_label labels.now) uses.now bytes.old))
        (λ e. uses_cause labels.now uses.now bytes.old ≡ Some e) }
{
    for u in uses {
        if let Some(e) = use_cause(bytes, labels, *u) {
            return Err(e);
        }
        let target = offset_of_label(labels, u.label.0);
        patch_at(bytes, u.offset as usize, u.kind, u.offset, target);
    }
    Ok(())
}
