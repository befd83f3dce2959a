//! The buffer that emission writes into.
ghost use Rattle.std.specs.Prelude.{◌≡◌, ◌≢◌, ◌+◌, ◌<◌, ◌≤◌, ◌++◌, ◌∷◌, [], Some, None, true, false, length, map, set, replicate, MatchResult, IfOk};
ghost use Rattle.std.specs.Int.{to_be_bytes, w32, w64};
ghost use Rattle.s390x_buffer.specs.Branches.{BranchesLead};
ghost use Rattle.s390x_buffer.specs.Finish.{length_cause, patch_cause, finish_cause, FailsWithEither, Finished};
ghost use Rattle.s390x_buffer.specs.Extends.{Extends, ExtendsExcept};
ghost use Rattle.s390x_buffer.specs.BlockEnd.{has_use, with_jump, with_conditional, cut, inverted_alone, both_ended, ended_by, at_block_end, KeepsTables};
ghost use Rattle.s390x_buffer.specs.declared.entries.RecordedBranches.TheVariants.{NoBranch};
ghost use Rattle.s390x_base.specs.declared.error.EmitError.TheVariants.{NoMemory};
ghost use Rattle.s390x_buffer.specs.State.{BufferState, FailsWith, poisoned_buffer, mark_cause, put_cause, draw_cause, label_cause, handlers_cause, labels_below, constant_cause, new_cause, fresh_buffer, constant_of, constant_label, is_alignment, all_aligned, IsUnbound, IsNoConstant, align_of, limit, label_limit};

use crate::block_end::{
    drop_use, ends_at, invert_uses, put_last, six_bytes, with_conditional, with_jump,
};
use crate::entries::{
    LabelFixup, MachBufferFinalized, MapEntry, PatchEntry, RecordedBranches, RelocEntry, TrapEntry,
    TryHandler, TrySite,
};
use crate::finish::{alignment_of, constants_fit, place_and_patch, place_try_sites, starts_of};
use crate::label_use::LabelUse;
use s390x_base::{
    Addend, Code, CodeOffset, ConstantData, EmitError, ExternalName, MachLabel, Reloc, TrapCode,
    VCodeConstant,
};
use std::alloc::{AllocError, Global};
use std::marker::Model;

// Code ends below this length.
const LIMIT: usize = 2147483648;

// Label numbers end below this one.
const LABEL_LIMIT: u64 = 4294967296;

// The length of the longest code.
const LONGEST_CODE: usize = 6;

/// Bytes that grow at the end, the labels in them, and the tables that go with them.
///
/// Labels 0 to the count of blocks less 1 are the blocks'; each declared constant has the next
/// label, and `get_label` draws those after these. A call that is refused poisons the buffer and
/// leaves what stood in it; from then on every call that answers a `Result` answers `Failed`.
#[derive(Drop)]
pub struct MachBuffer {
    alloc: Global,
    bytes: Vec<u8>,
    labels: Vec<Option<CodeOffset>>,
    uses: Vec<LabelFixup>,
    traps: Vec<TrapEntry>,
    relocs: Vec<RelocEntry>,
    call_sites: Vec<CodeOffset>,
    try_call_sites: Vec<TrySite>,
    patchable_sites: Vec<PatchEntry>,
    stack_maps: Vec<MapEntry>,
    starts: Vec<CodeOffset>,
    branches: RecordedBranches,
    block_count: u32,
    constants: Vec<ConstantData>,
    is_poisoned: bool,
}

impl Model for MachBuffer {
    ghost use Rattle.std.specs.Prelude.{◌+◌, ◌<◌, ◌≤◌, length as list_length, map as list_map};
    ghost use Rattle.s390x_buffer.specs.State.{BufferState, constant_of, site_of, limit, label_limit};

    ghost Value = { BufferState };

    ghost view = { λ b. record {
      bytes = b.bytes.items;
      labels = b.labels.items;
      uses = b.uses.items;
      traps = b.traps.items;
      relocs = b.relocs.items;
      call_sites = b.call_sites.items;
      try_call_sites = list_map site_of b.try_call_sites.items;
      patchable_sites = b.patchable_sites.items;
      stack_maps = b.stack_maps.items;
      starts = b.starts.items;
      branches = b.branches;
      block_count = b.block_count;
      constants = list_map constant_of b.constants.items;
      is_poisoned = b.is_poisoned;
    } };

    ghost invariant = { λ b. (list_length b.bytes.items < limit) × (list_length b.labels.items ≤ label_limit) × (b.block_count + list_length b.constants.items ≤ list_length b.labels.items) };
}

impl MachBuffer {
    /// A buffer with so many blocks and these constants, whose bytes are copied. Refused by
    /// `BadAlignment` where a constant's alignment isn't 1, 2, 4, 8 or 16, and by
    /// `LabelOutOfRange` where blocks and constants together pass 4294967295.
    pub fn new(
        alloc: Global,
        block_count: u32,
        constants: &[ConstantData],
    ) -> Result<MachBuffer, EmitError>
        ensures { MatchResult result
            (λ b. (new_cause block_count (map constant_of constants.now) ≡ None)
            × (b ≡ fresh_buffer block_count (map constant_of constants.now)))
            (λ e. FailsWith (new_cause block_count (map constant_of constants.now)) e) }
    {
        if !all_aligned(constants) {
            return Err(EmitError::BadAlignment);
        }
        if constants.len() as u64 >= LABEL_LIMIT - u64::from(block_count) {
            return Err(EmitError::LabelOutOfRange);
        }
        let label_count = u64::from(block_count) + constants.len() as u64;
        let labels = match unbound(alloc, label_count) {
            Ok(labels) => labels,
            Err(_) => return Err(EmitError::NoMemory),
        };
        let constants = match copy_constants(alloc, constants) {
            Ok(constants) => constants,
            Err(_) => return Err(EmitError::NoMemory),
        };
        Ok(MachBuffer {
            alloc,
            bytes: Vec::new(alloc),
            labels,
            uses: Vec::new(alloc),
            traps: Vec::new(alloc),
            relocs: Vec::new(alloc),
            call_sites: Vec::new(alloc),
            try_call_sites: Vec::new(alloc),
            patchable_sites: Vec::new(alloc),
            stack_maps: Vec::new(alloc),
            starts: Vec::new(alloc),
            branches: RecordedBranches::NoBranch,
            block_count,
            constants,
            is_poisoned: false,
        })
    }

    /// Whether a call was refused, or `poison` was called.
    pub fn is_poisoned(&self) -> bool
        ensures { result ≡ self.now.is_poisoned }
    {
        self.is_poisoned
    }

    /// The length in bytes.
    pub fn cur_offset(&self) -> CodeOffset
        ensures value { result ≡ length self.now.bytes }
        ensures below { result < limit }
    {
        self.bytes.len() as CodeOffset
    }

    /// The count of blocks.
    pub fn block_count(&self) -> u32
        ensures { result ≡ self.now.block_count }
    {
        self.block_count
    }

    /// How many label numbers are in use, those of the blocks and the constants among them: the number that `get_label` draws next.
    pub fn label_count(&self) -> u64
        ensures value { result ≡ length self.now.labels }
        ensures below { result ≤ label_limit }
        ensures room { self.now.block_count + length self.now.constants ≤ result }
    {
        self.labels.len() as u64
    }

    /// The declared alignment of a constant, in bytes; `None` exactly for an undeclared one.
    pub fn constant_align(&self, constant: VCodeConstant) -> Option<u32>
        ensures { result ≡ align_of self.now constant.0 }
    {
        match self.constants.get(constant.0 as usize) {
            Some(c) => Some(c.align),
            None => None,
        }
    }

    /// Marks the buffer.
    pub fn poison(&mut self)
        ensures { self.new ≡ poisoned_buffer self.old }
    {
        self.is_poisoned = true;
    }

    // A refusal: the buffer is poisoned from now on.
    fn refuse(&mut self, e: EmitError) -> Result<(), EmitError>
        ensures { MatchResult result (λ _. false ≡ true)
            (λ x. (x ≡ e) × (self.new ≡ poisoned_buffer self.old)) }
    {
        self.poison();
        Err(e)
    }

    /// Appends bytes. Refused by `LabelOutOfRange` where the length would reach 2^31.
    #[inline(never)]
    pub fn put(&mut self, bytes: &[u8]) -> Result<(), EmitError>
        ensures answer { MatchResult result
            (λ _. (put_cause self.old (length bytes.now) ≡ None)
            × (self.new ≡ record self.old { bytes = self.old.bytes ++ bytes.now }))
            (λ e. FailsWith (put_cause self.old (length bytes.now)) e
            × (self.new ≡ poisoned_buffer self.old)) }
        ensures kept { Extends self.old self.new }
    {
        if self.is_poisoned {
            return self.refuse(EmitError::Failed);
        }
        if bytes.len() >= LIMIT - self.bytes.len() {
            return self.refuse(EmitError::LabelOutOfRange);
        }
        self.append(bytes)
    }

    // Appends bytes. That it isn't poisoned, and the limit, are tested before.
    #[inline(always)]
    fn append(&mut self, bytes: &[u8]) -> Result<(), EmitError>
        requires { length self.old.bytes + length bytes.now < limit }
        ensures { MatchResult result
            (λ _. self.new ≡ record self.old { bytes = self.old.bytes ++ bytes.now })
            (λ e. (e ≡ NoMemory) × (self.new ≡ poisoned_buffer self.old)) }
    {
        match self.bytes.extend_from_slice(bytes) {
            Ok(()) => Ok(()),
            Err(_) => self.refuse(EmitError::NoMemory),
        }
    }

    /// Appends a byte. Refused by `LabelOutOfRange` where the length would reach 2^31.
    pub fn put1(&mut self, value: u8) -> Result<(), EmitError>
        ensures answer { MatchResult result
            (λ _. (put_cause self.old 1 ≡ None)
            × (self.new ≡ record self.old { bytes = self.old.bytes ++ value ∷ [] }))
            (λ e. FailsWith (put_cause self.old 1) e × (self.new ≡ poisoned_buffer self.old)) }
        ensures kept { Extends self.old self.new }
    {
        self.put(&[value])
    }

    /// Appends four bytes, the most significant first. Refused by `LabelOutOfRange` where the length would reach 2^31.
    pub fn put4(&mut self, value: u32) -> Result<(), EmitError>
        ensures answer { MatchResult result
            (λ _. (put_cause self.old 4 ≡ None)
            × (self.new ≡ record self.old { bytes = self.old.bytes ++ to_be_bytes w32 value }))
            (λ e. FailsWith (put_cause self.old 4) e × (self.new ≡ poisoned_buffer self.old)) }
        ensures kept { Extends self.old self.new }
    {
        let word = value.to_be_bytes();
        self.put(&word)
    }

    /// Appends eight bytes, the most significant first. Refused by `LabelOutOfRange` where the length would reach 2^31.
    pub fn put8(&mut self, value: u64) -> Result<(), EmitError>
        ensures answer { MatchResult result
            (λ _. (put_cause self.old 8 ≡ None)
            × (self.new ≡ record self.old { bytes = self.old.bytes ++ to_be_bytes w64 value }))
            (λ e. FailsWith (put_cause self.old 8) e × (self.new ≡ poisoned_buffer self.old)) }
        ensures kept { Extends self.old self.new }
    {
        let doubleword = value.to_be_bytes();
        self.put(&doubleword)
    }

    /// Appends the code of an instruction. Refused by `LabelOutOfRange` where the length would reach 2^31.
    pub fn put_code(&mut self, code: &Code) -> Result<(), EmitError>
        ensures answer { MatchResult result
            (λ _. (put_cause self.old (length code.now) ≡ None)
            × (self.new ≡ record self.old { bytes = self.old.bytes ++ code.now }))
            (λ e. FailsWith (put_cause self.old (length code.now)) e
            × (self.new ≡ poisoned_buffer self.old)) }
        ensures kept { Extends self.old self.new }
    {
        let bytes = code.bytes();
        if !self.has_room() {
            return self.put(bytes);
        }
        if let [a, b, c, d] = bytes {
            return self.append(&[*a, *b, *c, *d]);
        }
        if let [a, b, c, d, e, f] = bytes {
            return self.append(&[*a, *b, *c, *d, *e, *f]);
        }
        if let [a, b] = bytes {
            return self.append(&[*a, *b]);
        }
        self.put(bytes)
    }

    // Whether a code of any length is taken, into the room that is there.
    #[inline(always)]
    fn has_room(&self) -> bool
        ensures { result ≡ true
            → (self.now.is_poisoned ≡ false) × (length self.now.bytes + 6 < limit) }
    {
        let len = self.bytes.len();
        !self.is_poisoned
            && len < LIMIT - LONGEST_CODE
            && self.bytes.capacity() - len >= LONGEST_CODE
    }

    /// Records a trap at the current offset. `Failed` comes where the buffer is poisoned, `NoMemory` for want of
    /// memory.
    pub fn add_trap(&mut self, code: TrapCode) -> Result<(), EmitError>
        ensures answer { MatchResult result
            (λ _. (mark_cause self.old ≡ None)
            × (self.new
            ≡ record self.old {
              traps = self.old.traps
                  ++ record { offset = length self.old.bytes; code = code } ∷ [];
            }))
            (λ e. FailsWith (mark_cause self.old) e × (self.new ≡ poisoned_buffer self.old)) }
        ensures kept { Extends self.old self.new }
    {
        if self.is_poisoned {
            return self.refuse(EmitError::Failed);
        }
        let offset = self.cur_offset();
        match self.traps.push(TrapEntry { offset, code }) {
            Ok(()) => Ok(()),
            Err(_) => self.refuse(EmitError::NoMemory),
        }
    }

    /// Records a relocation at the current offset. `Failed` comes where the buffer is poisoned, `NoMemory` for want
    /// of memory.
    pub fn add_reloc(
        &mut self,
        kind: Reloc,
        name: ExternalName,
        addend: Addend,
    ) -> Result<(), EmitError>
        ensures answer { MatchResult result
            (λ _. (mark_cause self.old ≡ None)
            × (self.new
            ≡ record self.old {
              relocs = self.old.relocs
                  ++ record {
                    offset = length self.old.bytes;
                    kind = kind;
                    name = name;
                    addend = addend;
                  } ∷ [];
            }))
            (λ e. FailsWith (mark_cause self.old) e × (self.new ≡ poisoned_buffer self.old)) }
        ensures kept { Extends self.old self.new }
    {
        let offset = self.cur_offset();
        self.add_reloc_at_offset(offset, kind, name, addend)
    }

    /// Records a relocation at an offset. `Failed` comes where the buffer is poisoned, `NoMemory` for want of memory.
    pub fn add_reloc_at_offset(
        &mut self,
        offset: CodeOffset,
        kind: Reloc,
        name: ExternalName,
        addend: Addend,
    ) -> Result<(), EmitError>
        ensures answer { MatchResult result
            (λ _. (mark_cause self.old ≡ None)
            × (self.new
            ≡ record self.old {
              relocs = self.old.relocs
                  ++ record { offset = offset; kind = kind; name = name; addend = addend }
                  ∷ [];
            }))
            (λ e. FailsWith (mark_cause self.old) e × (self.new ≡ poisoned_buffer self.old)) }
        ensures kept { Extends self.old self.new }
    {
        if self.is_poisoned {
            return self.refuse(EmitError::Failed);
        }
        let entry = RelocEntry {
            offset,
            kind,
            name,
            addend,
        };
        match self.relocs.push(entry) {
            Ok(()) => Ok(()),
            Err(_) => {
                self.is_poisoned = true;
                Err(EmitError::NoMemory)
            }
        }
    }

    /// The next unused label. Refused by `LabelOutOfRange` where its number would pass 4294967295.
    pub fn get_label(&mut self) -> Result<MachLabel, EmitError>
        ensures answer { MatchResult result
            (λ l. (draw_cause self.old ≡ None) × (l.0 ≡ length self.old.labels)
            × (self.new ≡ record self.old { labels = self.old.labels ++ None ∷ [] }))
            (λ e. FailsWith (draw_cause self.old) e × (self.new ≡ poisoned_buffer self.old)) }
        ensures kept { Extends self.old self.new }
    {
        if self.is_poisoned {
            self.is_poisoned = true;
            return Err(EmitError::Failed);
        }
        let label = self.labels.len();
        if label as u64 >= LABEL_LIMIT {
            self.is_poisoned = true;
            return Err(EmitError::LabelOutOfRange);
        }
        match self.labels.push(None) {
            Ok(()) => Ok(MachLabel(label as u32)),
            Err(_) => {
                self.is_poisoned = true;
                Err(EmitError::NoMemory)
            }
        }
    }

    /// The label of a constant. Refused by `UnboundLabel` where it isn't declared.
    pub fn get_label_for_constant(
        &mut self,
        constant: VCodeConstant,
    ) -> Result<MachLabel, EmitError>
        ensures answer { MatchResult result
            (λ l. (constant_cause self.old constant.0 ≡ None)
            × (l.0 ≡ constant_label self.old constant.0) × (self.new ≡ self.old))
            (λ e. FailsWith (constant_cause self.old constant.0) e
            × (self.new ≡ poisoned_buffer self.old)) }
        ensures kept { Extends self.old self.new }
    {
        if self.is_poisoned {
            self.is_poisoned = true;
            return Err(EmitError::Failed);
        }
        if constant.0 as usize >= self.constants.len() {
            self.is_poisoned = true;
            return Err(EmitError::UnboundLabel);
        }
        Ok(MachLabel(self.block_count + constant.0))
    }

    /// Binds a label at the current offset, and forgets all recorded branches. Refused by `UnboundLabel` where it isn't this buffer's.
    pub fn bind_label(&mut self, label: MachLabel) -> Result<(), EmitError>
        requires unbound { IsUnbound self.old label.0 }
        requires no_constant { IsNoConstant self.old label.0 }
        ensures answer { MatchResult result
            (λ _. (label_cause self.old label.0 ≡ None)
            × (self.new
            ≡ record self.old {
              labels = set self.old.labels label.0
                  (Some (length self.old.bytes));
              branches = NoBranch;
            }))
            (λ e. FailsWith (label_cause self.old label.0) e
            × (self.new ≡ poisoned_buffer self.old)) }
        ensures kept { ExtendsExcept label.0 self.old self.new }
    {
        if self.is_poisoned {
            return self.refuse(EmitError::Failed);
        }
        if label.0 as usize >= self.labels.len() {
            return self.refuse(EmitError::UnboundLabel);
        }
        let offset = self.cur_offset();
        self.labels[label.0 as usize] = Some(offset);
        self.branches = RecordedBranches::NoBranch;
        Ok(())
    }

    /// Records a use of a label, to be patched at the end. Refused by `UnboundLabel` where the label isn't this buffer's.
    pub fn use_label_at_offset(
        &mut self,
        offset: CodeOffset,
        label: MachLabel,
        kind: LabelUse,
    ) -> Result<(), EmitError>
        ensures answer { MatchResult result
            (λ _. (label_cause self.old label.0 ≡ None)
            × (self.new
            ≡ record self.old {
              uses = self.old.uses
                  ++ record { kind = kind; offset = offset; label = label } ∷ [];
            }))
            (λ e. FailsWith (label_cause self.old label.0) e
            × (self.new ≡ poisoned_buffer self.old)) }
        ensures kept { Extends self.old self.new }
    {
        if self.is_poisoned {
            return self.refuse(EmitError::Failed);
        }
        if label.0 as usize >= self.labels.len() {
            return self.refuse(EmitError::UnboundLabel);
        }
        let fixup = LabelFixup {
            kind,
            offset,
            label,
        };
        match self.uses.push(fixup) {
            Ok(()) => Ok(()),
            Err(_) => self.refuse(EmitError::NoMemory),
        }
    }

    /// Records a call's site at the current offset. `Failed` comes where the buffer is poisoned, `NoMemory` for want
    /// of memory.
    pub fn add_call_site(&mut self) -> Result<(), EmitError>
        ensures answer { MatchResult result
            (λ _. (mark_cause self.old ≡ None)
            × (self.new
            ≡ record self.old {
              call_sites = self.old.call_sites ++ length self.old.bytes
                  ∷ [];
            }))
            (λ e. FailsWith (mark_cause self.old) e × (self.new ≡ poisoned_buffer self.old)) }
        ensures kept { Extends self.old self.new }
    {
        if self.is_poisoned {
            return self.refuse(EmitError::Failed);
        }
        let offset = self.cur_offset();
        match self.call_sites.push(offset) {
            Ok(()) => Ok(()),
            Err(_) => self.refuse(EmitError::NoMemory),
        }
    }

    /// Records the site of a call with a try at the current offset, with its frame's size in bytes and its handlers.
    /// Refused by `UnboundLabel` where a handler's label isn't this buffer's.
    #[tactic(auto, using(crate::proofs::Extending::extends_mark, crate::proofs::Extending::extends_try_call_sites))]
    pub fn add_try_call_site(
        &mut self,
        frame: u64,
        handlers: &[TryHandler],
    ) -> Result<(), EmitError>
        ensures answer { MatchResult result
            (λ _. (handlers_cause self.old handlers.now ≡ None)
            × (self.new
            ≡ record self.old {
              try_call_sites = self.old.try_call_sites
                  ++ record {
                    offset = length self.old.bytes;
                    frame = frame;
                    handlers = handlers.now;
                  } ∷ [];
            }))
            (λ e. FailsWith (handlers_cause self.old handlers.now) e
            × (self.new ≡ poisoned_buffer self.old)) }
        ensures kept { Extends self.old self.new }
    {
        if self.is_poisoned {
            return self.refuse(EmitError::Failed);
        }
        if !all_below(handlers, self.labels.len()) {
            return self.refuse(EmitError::UnboundLabel);
        }
        let offset = self.cur_offset();
        let handlers = match copy_handlers(self.alloc, handlers) {
            Ok(handlers) => handlers,
            Err(_) => return self.refuse(EmitError::NoMemory),
        };
        let site = TrySite {
            offset,
            frame,
            handlers,
        };
        if self.try_call_sites.push(site).is_err() {
            return self.refuse(EmitError::NoMemory);
        }
        Ok(())
    }

    /// Records the site of a patchable call of so many bytes at the current offset. `Failed` comes where the buffer
    /// is poisoned, `NoMemory` for want of memory.
    pub fn add_patchable_call_site(&mut self, len: u32) -> Result<(), EmitError>
        ensures answer { MatchResult result
            (λ _. (mark_cause self.old ≡ None)
            × (self.new
            ≡ record self.old {
              patchable_sites = self.old.patchable_sites
                  ++ record { offset = length self.old.bytes; len = len } ∷ [];
            }))
            (λ e. FailsWith (mark_cause self.old) e × (self.new ≡ poisoned_buffer self.old)) }
        ensures kept { Extends self.old self.new }
    {
        if self.is_poisoned {
            return self.refuse(EmitError::Failed);
        }
        let offset = self.cur_offset();
        match self.patchable_sites.push(PatchEntry { offset, len }) {
            Ok(()) => Ok(()),
            Err(_) => self.refuse(EmitError::NoMemory),
        }
    }

    /// Records a stack map at an offset. `Failed` comes where the buffer is poisoned, `NoMemory` for want of memory.
    pub fn push_user_stack_map(&mut self, offset: CodeOffset, map: u32) -> Result<(), EmitError>
        ensures answer { MatchResult result
            (λ _. (mark_cause self.old ≡ None)
            × (self.new
            ≡ record self.old {
              stack_maps = self.old.stack_maps
                  ++ record { offset = offset; map = map } ∷ [];
            }))
            (λ e. FailsWith (mark_cause self.old) e × (self.new ≡ poisoned_buffer self.old)) }
        ensures kept { Extends self.old self.new }
    {
        if self.is_poisoned {
            return self.refuse(EmitError::Failed);
        }
        match self.stack_maps.push(MapEntry { offset, map }) {
            Ok(()) => Ok(()),
            Err(_) => self.refuse(EmitError::NoMemory),
        }
    }

    /// The current offset is where the next step starts. Forgets all recorded branches. `Failed` comes where the
    /// buffer is poisoned, `NoMemory` for want of memory.
    pub fn start_step(&mut self) -> Result<(), EmitError>
        ensures answer { MatchResult result
            (λ _. (mark_cause self.old ≡ None)
            × (self.new
            ≡ record self.old {
              starts = self.old.starts ++ length self.old.bytes ∷ [];
              branches = NoBranch;
            }))
            (λ e. FailsWith (mark_cause self.old) e × (self.new ≡ poisoned_buffer self.old)) }
        ensures kept { Extends self.old self.new }
    {
        if self.is_poisoned {
            return self.refuse(EmitError::Failed);
        }
        let offset = self.cur_offset();
        if self.starts.push(offset).is_err() {
            return self.refuse(EmitError::NoMemory);
        }
        self.branches = RecordedBranches::NoBranch;
        Ok(())
    }

    /// Records the branch of six bytes that is put next, from `start` to `end`, and is always taken. `Failed` comes
    /// where the buffer is poisoned, `NoMemory` for want of memory.
    pub fn add_uncond_branch(
        &mut self,
        start: CodeOffset,
        end: CodeOffset,
        target: MachLabel,
    ) -> Result<(), EmitError>
        requires here { start ≡ length self.old.bytes }
        requires six { end ≡ start + 6 }
        requires used { has_use start target.0 self.old.uses ≡ true }
        ensures answer { MatchResult result
            (λ _. (mark_cause self.old ≡ None)
            × (self.new
            ≡ record self.old { branches = with_jump self.old.branches start target }))
            (λ e. FailsWith (mark_cause self.old) e × (self.new ≡ poisoned_buffer self.old)) }
        ensures kept { Extends self.old self.new }
    {
        if self.is_poisoned {
            return self.refuse(EmitError::Failed);
        }
        self.branches = with_jump(self.branches, start, end, target);
        Ok(())
    }

    /// Records the conditional branch of six bytes that is put next, from `start` to `end`. `inverted` is the code of
    /// the branch on the inverted condition. `Failed` comes where the buffer is poisoned, `NoMemory` for want of
    /// memory.
    pub fn add_cond_branch(
        &mut self,
        start: CodeOffset,
        end: CodeOffset,
        target: MachLabel,
        inverted: &Code,
    ) -> Result<(), EmitError>
        requires here { start ≡ length self.old.bytes }
        requires six { end ≡ start + 6 }
        requires used { has_use start target.0 self.old.uses ≡ true }
        requires inverted_six { length inverted.now ≡ 6 }
        ensures answer { MatchResult result
            (λ _. (mark_cause self.old ≡ None)
            × (self.new
            ≡ record self.old {
              branches = with_conditional self.old.branches start target
                  inverted.now;
            }))
            (λ e. FailsWith (mark_cause self.old) e × (self.new ≡ poisoned_buffer self.old)) }
        ensures kept { Extends self.old self.new }
    {
        if self.is_poisoned {
            return self.refuse(EmitError::Failed);
        }
        let inverted = six_bytes(inverted);
        self.branches = with_conditional(self.branches, start, end, target, inverted);
        Ok(())
    }

    /// Ends a block, `next` being the one behind it. Where the branches that are recorded one behind the other up to
    /// the current offset are one that is always taken, it is cut where it leads to `next`. Where they are a
    /// conditional one and then one that is always taken, the second one is cut where it leads to `next`, and the
    /// first one too where both do; where the first one alone does, the branch on the inverted condition to the
    /// second one's label stands in place of both. A cut branch loses its bytes and its use. `Failed` comes where the
    /// buffer is poisoned, `NoMemory` for want of memory.
    #[tactic(auto, using(crate::proofs::Ending::keeps_mark, crate::proofs::Ending::keeps_ended))]
    pub fn end_block(&mut self, next: Option<MachLabel>) -> Result<(), EmitError>
        ensures answer { MatchResult result
            (λ _. (mark_cause self.old ≡ None) × (self.new ≡ at_block_end next self.old))
            (λ e. FailsWith (mark_cause self.old) e × (self.new ≡ poisoned_buffer self.old)) }
        ensures kept { KeepsTables self.old self.new }
    {
        if self.is_poisoned {
            return self.refuse(EmitError::Failed);
        }
        match next {
            Some(next) => self.fold(next),
            None => Ok(()),
        }
    }

    // What is recorded up to the current offset is folded, where the next block has this label.
    fn fold(&mut self, next: MachLabel) -> Result<(), EmitError>
        ensures { MatchResult result (λ _. self.new ≡ ended_by self.old.branches next.0 self.old)
            (λ e. (e ≡ NoMemory) × (self.new ≡ poisoned_buffer self.old)) }
    {
        let here = self.cur_offset();
        match self.branches {
            RecordedBranches::LoneJump { start, target } => {
                if ends_at(start, 6, here) && target.0 == next.0 {
                    self.cut(start, target);
                }
                Ok(())
            }
            RecordedBranches::ConditionalThenJump {
                start,
                taken,
                not_taken,
                inverted,
            } => {
                if !ends_at(start, 12, here) {
                    return Ok(());
                }
                self.fold_both(next, start, taken, not_taken, inverted)
            }
            _ => Ok(()),
        }
    }

    // Folds a conditional branch and the one behind it.
    fn fold_both(
        &mut self,
        next: MachLabel,
        start: CodeOffset,
        taken: MachLabel,
        not_taken: MachLabel,
        inverted: [u8; 6],
    ) -> Result<(), EmitError>
        requires at_end { start + 12 ≡ length self.old.bytes }
        requires small { start + 12 < limit }
        ensures { MatchResult result
            (λ _. self.new ≡ both_ended next.0 start taken not_taken inverted self.old)
            (λ e. (e ≡ NoMemory) × (self.new ≡ poisoned_buffer self.old)) }
    {
        if not_taken.0 == next.0 {
            self.cut(start + 6, not_taken);
            if taken.0 == next.0 {
                self.cut(start, taken);
            }
            return Ok(());
        }
        if taken.0 == next.0 {
            return self.invert(start, taken, not_taken, inverted);
        }
        Ok(())
    }

    // Cuts the bytes from a branch on, and its use.
    fn cut(&mut self, start: CodeOffset, target: MachLabel)
        ensures { self.new ≡ cut start target.0 self.old }
    {
        self.bytes.truncate(start as usize);
        drop_use(&mut self.uses, start, target);
        self.branches = RecordedBranches::NoBranch;
    }

    // Puts the inverted branch in place of a conditional one and the one behind it.
    fn invert(
        &mut self,
        start: CodeOffset,
        taken: MachLabel,
        not_taken: MachLabel,
        inverted: [u8; 6],
    ) -> Result<(), EmitError>
        requires at_end { start + 12 ≡ length self.old.bytes }
        requires differ { taken.0 ≢ not_taken.0 }
        ensures { MatchResult result
            (λ _. self.new ≡ inverted_alone start taken.0 not_taken inverted self.old)
            (λ e. (e ≡ NoMemory) × (self.new ≡ poisoned_buffer self.old)) }
    {
        if invert_uses(&mut self.uses, start, taken, not_taken).is_err() {
            return self.refuse(EmitError::NoMemory);
        }
        put_last(&mut self.bytes, start as usize, inverted);
        self.branches = RecordedBranches::NoBranch;
        Ok(())
    }

    /// The finished code: the constants stand behind it, in order, each at the next multiple of the
    /// greater of 2 and its alignment with zero bytes between, and each use is patched to its label,
    /// in the order of the calls that made the uses. Refused by `LabelOutOfRange` where the length
    /// would reach 2^31, and where a use can't be patched, by `UnboundLabel` where its label was never
    /// bound and by `LabelOutOfRange` where its distance is odd or out of its range, a patched
    /// `PCRel32` sum leaves signed 32 bits, or its bytes lie past the end.
    #[tactic(auto, using(crate::proofs::Branching::branches_lead))]
    pub fn finish(self) -> Result<MachBufferFinalized, EmitError>
        ensures answer { MatchResult result (λ f. (finish_cause self ≡ None) × Finished self f)
            (λ e. FailsWithEither (length_cause self) (patch_cause self) e) }
        ensures branches { IfOk result (λ f. BranchesLead self f.bytes.items) }
    {
        if self.is_poisoned {
            return Err(EmitError::Failed);
        }
        let MachBuffer {
            alloc,
            mut bytes,
            mut labels,
            uses,
            traps,
            relocs,
            call_sites,
            try_call_sites,
            patchable_sites,
            stack_maps,
            starts,
            branches: _,
            block_count,
            constants,
            is_poisoned: _,
        } = self;
        if !constants_fit(bytes.len(), &constants) {
            return Err(EmitError::LabelOutOfRange);
        }
        let alignment = alignment_of(&constants);
        let Ok(block_starts) = starts_of(alloc, &labels, block_count) else {
            return Err(EmitError::NoMemory);
        };
        let constant_starts = match place_and_patch(
            alloc,
            &mut bytes,
            &mut labels,
            block_count,
            &constants,
            &uses,
        ) {
            Ok(starts) => starts,
            Err(e) => return Err(e),
        };
        let Ok(try_call_sites) = place_try_sites(alloc, &labels, &try_call_sites) else {
            return Err(EmitError::NoMemory);
        };
        Ok(MachBufferFinalized {
            bytes,
            block_starts,
            constant_starts,
            starts,
            relocs,
            traps,
            call_sites,
            try_call_sites,
            patchable_sites,
            stack_maps,
            alignment,
        })
    }
}

// Whether a declared alignment is one of the allowed ones.
fn is_alignment(align: u32) -> bool
    ensures { result ≡ is_alignment align }
{
    matches!(align, 1 | 2 | 4 | 8 | 16)
}

/// Whether each constant's alignment is 1, 2, 4, 8 or 16.
pub fn all_aligned(constants: &[ConstantData]) -> bool
    ensures { result ≡ all_aligned (map constant_of constants.now) }
{
    for c in constants {
        if !is_alignment(c.align) {
            return false;
        }
    }
    true
}

// So many labels without an offset.
fn unbound(alloc: Global, count: u64) -> Result<Vec<Option<CodeOffset>>, AllocError>
    ensures { IfOk result (λ v. v.items ≡ replicate count None) }
{
    let mut labels = Vec::new(alloc);
    labels.resize(count as usize, None)?;
    Ok(labels)
}

// The constants again.
fn copy_constants(
    alloc: Global,
    constants: &[ConstantData],
) -> Result<Vec<ConstantData>, AllocError>
    ensures { IfOk result (λ v. map constant_of v.items ≡ map constant_of constants.now) }
{
    let mut copies = Vec::new(alloc);
    for c in constants {
        let mut bytes = Vec::new(alloc);
        bytes.extend_from_slice(&c.bytes)?;
        copies.push(ConstantData {
            bytes,
            align: c.align,
        })?;
    }
    Ok(copies)
}

// The handlers again.
fn copy_handlers(alloc: Global, handlers: &[TryHandler]) -> Result<Vec<TryHandler>, AllocError>
    ensures { IfOk result (λ v. v.items ≡ handlers.now) }
{
    let mut copies = Vec::new(alloc);
    copies.extend_from_slice(handlers)?;
    Ok(copies)
}

// Whether each handler's label is one of the first so many.
fn all_below(handlers: &[TryHandler], count: usize) -> bool
    ensures { result ≡ labels_below count handlers.now }
{
    for h in handlers {
        if h.label.0 as usize >= count {
            return false;
        }
    }
    true
}
