//! Uses of labels: how far they reach, what they make of bytes, and which is refused first.
ghost use Rattle.std.specs.Prelude.{◌≡◌, []};

use crate::tables;
use crate::words::{RELOCATIONS, USES, first_word, named, number, text_of};
use s390x_base::{ConstantData, EmitError, MachLabel, VCodeConstant};
use s390x_buffer::{LabelUse, MachBuffer, MachBufferFinalized, MachInstLabelUse};
use s390x_case_runner::LineError;
use std::alloc::{AllocError, Global};

/// What a call with its words answers.
pub fn answer(alloc: Global, call: &str, words: &str) -> Result<String, LineError> {
    match call {
        "range" => {
            let kind = named(alloc, &USES, words)?;
            let reach = (
                kind.max_pos_range(),
                kind.max_neg_range(),
                kind.patch_size(),
            );
            text_of(alloc, (reach, kind.supports_veneer(), kind.veneer_size()))
        }
        "veneers" => text_of(alloc, (LabelUse::worst_case_veneer_size(), LabelUse::ALIGN)),
        "from_reloc" => {
            let (name, addend) = first_word(words)?;
            let kind = named(alloc, &RELOCATIONS, name)?;
            text_of(alloc, LabelUse::from_reloc(kind, number(addend)? as i64))
        }
        "patch" => patched_bytes(alloc, words),
        "use" => text_with(alloc, used(alloc, words)?, 6),
        "two_uses" => text_with(alloc, with_two_uses(alloc, words == "odd"), 0),
        "short_branch" => short_branch(alloc, words),
        _ => tables::answer(alloc, call, words),
    }
}

// The bytes of a use, patched: its kind, its bytes, its offset and its label's.
fn patched_bytes(alloc: Global, words: &str) -> Result<String, LineError> {
    let (name, words) = first_word(words)?;
    let (digits, words) = first_word(words)?;
    let (offset, target) = first_word(words)?;
    let kind = named(alloc, &USES, name)?;
    let Ok(mut bytes) = hex::decode(alloc, digits) else {
        return Err(LineError::Unreadable);
    };
    patch(kind, bytes.as_mut_slice(), number(offset)?, number(target)?)?;
    Ok(hex::encode(alloc, &bytes)?)
}

// Patches the bytes of a use, where there are as many as it has and the label is in reach.
fn patch(kind: LabelUse, bytes: &mut [u8], offset: u32, target: u32) -> Result<(), LineError> {
    let is_even = (offset as u64 + target as u64) % 2 == 0;
    let is_near = target as u64 <= offset as u64 + kind.max_pos_range() as u64
        && offset as u64 <= target as u64 + kind.max_neg_range() as u64;
    if bytes.len() as u64 == kind.patch_size() as u64 && is_even && is_near {
        kind.patch(bytes, offset, target);
        Ok(())
    } else {
        Err(LineError::Unreadable)
    }
}

// A word, a label behind it and eight bytes more, with a use of the label: its kind, the word, the use's offset, and whether
// the label is `bound`.
fn used(alloc: Global, words: &str) -> Result<Result<MachBufferFinalized, EmitError>, LineError> {
    let (name, words) = first_word(words)?;
    let (digits, words) = first_word(words)?;
    let (offset, label) = first_word(words)?;
    let kind = named(alloc, &USES, name)?;
    let Ok(word) = u32::from_str_radix(digits, 16) else {
        return Err(LineError::Unreadable);
    };
    Ok(with_use(alloc, word, number(offset)?, kind, label == "bound"))
}

// The first bytes of finished code in hexadecimal digits, and where its constants start, or why it is refused.
fn text_with(
    alloc: Global,
    finished: Result<MachBufferFinalized, EmitError>,
    count: usize,
) -> Result<String, LineError> {
    match finished {
        Ok(code) => {
            let digits = hex::encode(alloc, code.bytes.get(..count).unwrap_or(b"".as_slice()))?;
            let starts = &code.constant_starts;
            Ok(format!(in alloc; "{digits} {starts:?}")?)
        }
        Err(error) => text_of(alloc, error),
    }
}

// A label that is drawn and bound here.
fn here(buffer: &mut MachBuffer) -> Result<MachLabel, EmitError>
    requires { buffer.old.constants ≡ [] }
    ensures { buffer.new.constants ≡ buffer.old.constants }
{
    let label = buffer.get_label()?;
    buffer.bind_label(label)?;
    Ok(label)
}

// A word, a label behind it and eight bytes more, with a use of the label at an offset.
fn with_use(
    alloc: Global,
    word: u32,
    offset: u32,
    kind: LabelUse,
    is_bound: bool,
) -> Result<MachBufferFinalized, EmitError> {
    let mut buffer = MachBuffer::new(alloc, 0, &[])?;
    buffer.put4(word)?;
    let label = if is_bound {
        here(&mut buffer)?
    } else {
        buffer.get_label()?
    };
    buffer.put8(0)?;
    buffer.use_label_at_offset(offset, label, kind)?;
    buffer.finish()
}

// Two uses, of which one is odd and the other's label was never bound.
fn with_two_uses(alloc: Global, is_odd_first: bool) -> Result<MachBufferFinalized, EmitError> {
    let mut buffer = MachBuffer::new(alloc, 0, &[])?;
    let bound = here(&mut buffer)?;
    let unbound = buffer.get_label()?;
    buffer.put8(0)?;
    let (first, second) = if is_odd_first {
        (bound, unbound)
    } else {
        (unbound, bound)
    };
    buffer.use_label_at_offset(1, first, LabelUse::BranchRI)?;
    buffer.use_label_at_offset(1, second, LabelUse::BranchRI)?;
    buffer.finish()
}

// A short branch over so many bytes, a constant: its bytes, and where the constants start.
fn short_branch(alloc: Global, word: &str) -> Result<String, LineError> {
    let constants = zeros(alloc, number(word)?)?;
    text_with(alloc, branch_to_second(alloc, &constants), 4)
}

// A constant of so many zeros, and one of a single one.
fn zeros(alloc: Global, count: u32) -> Result<Vec<ConstantData>, AllocError> {
    let mut bytes = Vec::new(alloc);
    for _ in 0..count {
        bytes.push(0)?;
    }
    let mut constants = Vec::new(alloc);
    constants.push(ConstantData { bytes, align: 1 })?;
    let bytes = vec![in alloc; 0]?;
    constants.push(ConstantData { bytes, align: 1 })?;
    Ok(constants)
}

// A short branch to the second of these constants.
fn branch_to_second(
    alloc: Global,
    constants: &[ConstantData],
) -> Result<MachBufferFinalized, EmitError> {
    let mut buffer = MachBuffer::new(alloc, 0, constants)?;
    let label = buffer.get_label_for_constant(VCodeConstant(1))?;
    buffer.use_label_at_offset(0, label, LabelUse::BranchRI)?;
    buffer.put4(0xa7f4_0000)?;
    buffer.finish()
}
