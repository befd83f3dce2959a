//! Facts about finished code that follow from the contract of `MachBuffer::finish`.
ghost use Rattle.std.specs.Prelude.{◌≡◌, None};
ghost use Rattle.s390x_buffer.specs.State.{BufferState};
ghost use Rattle.s390x_buffer.specs.Finish.{finish_cause, Finished};
ghost use Rattle.s390x_buffer.specs.Sums.{SumsStand, OthersStand};
ghost use Rattle.s390x_buffer.specs.declared.entries.MachBufferFinalized.{MachBufferFinalized};

/// A patched word that shares no byte with another use is what was put there, plus the distance.
pub fn sums_stand()
    ensures { (s : BufferState) (f : MachBufferFinalized) → finish_cause s ≡ None → Finished s f
        → SumsStand s f.bytes.items }
{}

/// No use makes the code longer, and a byte that no use patches is the one that was put, or a constant's.
pub fn others_stand()
    ensures { (s : BufferState) (f : MachBufferFinalized) → Finished s f
        → OthersStand s f.bytes.items }
{}
