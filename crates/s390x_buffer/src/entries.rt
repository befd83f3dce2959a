//! The entries of the buffer's tables.

use crate::label_use::LabelUse;
use s390x_base::{Addend, CodeOffset, ExternalName, MachLabel, Reloc, TrapCode};

/// A use of a label at an offset, to be patched at the end.
#[derive(Clone, Copy)]
pub struct LabelFixup {
    pub kind: LabelUse,
    pub offset: CodeOffset,
    pub label: MachLabel,
}

/// The branches that are recorded one behind the other, up to the one that was recorded last.
/// Each has six bytes.
#[derive(Clone, Copy)]
pub enum RecordedBranches {
    NoBranch,
    /// One that is always taken.
    LoneJump {
        start: CodeOffset,
        target: MachLabel,
    },
    /// A conditional one, and the bytes of the branch on the inverted condition.
    LoneConditional {
        start: CodeOffset,
        target: MachLabel,
        inverted: [u8; 6],
    },
    /// A conditional one and, right behind it, one that is always taken.
    ConditionalThenJump {
        start: CodeOffset,
        taken: MachLabel,
        not_taken: MachLabel,
        inverted: [u8; 6],
    },
    /// Any others, which end here.
    OtherBranches {
        end: CodeOffset,
    },
}

/// A handler of a call with a try: a tag, or none for the default, and where it stands.
#[derive(Clone, Copy)]
pub struct TryHandler {
    pub tag: Option<u32>,
    pub label: MachLabel,
}

/// A try site as it was added, its handlers still labels.
#[derive(Drop)]
pub struct TrySite {
    pub offset: CodeOffset,
    pub frame: u64,
    pub handlers: Vec<TryHandler>,
}

/// A relocation of the bytes at an offset.
#[derive(Clone, Copy, PartialEq, Debug)]
pub struct RelocEntry {
    pub offset: CodeOffset,
    pub kind: Reloc,
    pub name: ExternalName,
    pub addend: Addend,
}

/// A trap at an offset.
#[derive(Clone, Copy, PartialEq, Debug)]
pub struct TrapEntry {
    pub offset: CodeOffset,
    pub code: TrapCode,
}

/// A call with a try, by its return place.
#[derive(Drop)]
pub struct TryEntry {
    pub offset: CodeOffset,
    pub frame: u64,
    pub handlers: Vec<HandlerEntry>,
}

/// A handler of a call with a try, by its offset; 0 where its label was never bound.
#[derive(Clone, Copy, PartialEq, Debug)]
pub struct HandlerEntry {
    pub tag: Option<u32>,
    pub offset: CodeOffset,
}

/// A patchable call, by its return place and its length in bytes.
#[derive(Clone, Copy, PartialEq, Debug)]
pub struct PatchEntry {
    pub offset: CodeOffset,
    pub len: u32,
}

/// A stack map at an offset.
#[derive(Clone, Copy, PartialEq, Debug)]
pub struct MapEntry {
    pub offset: CodeOffset,
    pub map: u32,
}

/// The finished code with its constants, and its tables in the order of the calls that made them.
#[derive(Drop)]
pub struct MachBufferFinalized {
    /// The code, and the constants behind it.
    pub bytes: Vec<u8>,
    /// Where each block starts; 0 where its label was never bound.
    pub block_starts: Vec<CodeOffset>,
    /// Where each constant starts.
    pub constant_starts: Vec<CodeOffset>,
    /// Where each step starts.
    pub starts: Vec<CodeOffset>,
    pub relocs: Vec<RelocEntry>,
    pub traps: Vec<TrapEntry>,
    /// The return places of calls without a try, and the ends of tail calls.
    pub call_sites: Vec<CodeOffset>,
    pub try_call_sites: Vec<TryEntry>,
    pub patchable_sites: Vec<PatchEntry>,
    pub stack_maps: Vec<MapEntry>,
    /// The greatest of 4 and the constants' alignments, in bytes.
    pub alignment: u32,
}
