//! What each kind of use of a label answers.
ghost use Rattle.std.specs.Prelude.{◌≡◌, ℕ, ℤ, List, Option, Bool, IsTrue, false, length};
ghost use Rattle.s390x_base.specs.declared.ir.Reloc.{Reloc};
ghost use Rattle.s390x_buffer.specs.Patch.{max_pos_range, max_neg_range, patch_size};
ghost use Rattle.s390x_buffer.specs.Relocs.{use_of_reloc};

use crate::label_use::LabelUse;
use crate::patch::patch_at;
use s390x_base::{Addend, CodeOffset, Reloc};

/// How far a use of a label reaches and how it is patched.
pub trait MachInstLabelUse: Copy {
    /// Whether so many bytes that begin at an offset can be patched to a label's offset.
    ghost can_patch: { Self → ℕ → ℕ → ℕ → Bool };

    /// The bytes that begin at an offset, patched to a label's offset.
    ghost patched: { Self → ℕ → ℕ → List ℕ → List ℕ };

    /// The greatest distance, and the size of the least one, in bytes.
    ghost longest: { Self → ℕ };

    ghost longest_back: { Self → ℕ };

    /// How many bytes a use has.
    ghost size_of: { Self → ℕ };

    /// Whether there is a veneer that reaches further, and its size in bytes.
    ghost has_veneer: { Self → Bool };

    ghost size_of_veneer: { Self → ℕ };

    /// The size of the largest veneer, in bytes.
    ghost largest_veneer: { ℕ };

    /// The use that does what a relocation with an addend asks for, where there is one.
    ghost of_reloc: { Reloc → ℤ → Option Self };

    /// The alignment of a use, in bytes.
    const ALIGN: CodeOffset;

    /// The greatest distance, in bytes.
    fn max_pos_range(self) -> CodeOffset
        ensures { result ≡ longest self };

    /// The size of the least distance, in bytes.
    fn max_neg_range(self) -> CodeOffset
        ensures { result ≡ longest_back self };

    /// How many bytes the use has.
    fn patch_size(self) -> CodeOffset
        ensures { result ≡ size_of self };

    /// Patches the bytes of a use at an offset to a label's offset. The slice has the patch's
    /// size, and the distance is even and in range.
    fn patch(self, buffer: &mut [u8], use_offset: CodeOffset, label_offset: CodeOffset)
        requires { IsTrue (can_patch self (length buffer.old) use_offset label_offset) }
        ensures { buffer.new ≡ patched self use_offset label_offset buffer.old };

    /// Whether there is a veneer that reaches further.
    fn supports_veneer(self) -> bool
        ensures { result ≡ has_veneer self };

    /// The size of the veneer, in bytes.
    fn veneer_size(self) -> CodeOffset
        ensures { result ≡ size_of_veneer self };

    /// The size of the largest veneer, in bytes.
    fn worst_case_veneer_size() -> CodeOffset
        ensures { result ≡ largest_veneer };

    /// The use that does what a relocation asks for, where there is one.
    fn from_reloc(reloc: Reloc, addend: Addend) -> Option<Self>
        ensures { result ≡ of_reloc reloc addend };
}

impl MachInstLabelUse for LabelUse {
    ghost use Rattle.std.specs.Prelude.{◌&&◌, nat_eq};
    ghost use Rattle.s390x_buffer.specs.Patch.{patch as patch_bytes, is_in_reach, patch_size as size_of_use};

    ghost can_patch = { λ k n offset target. nat_eq n (size_of_use k) && is_in_reach k offset target };

    ghost patched = { λ k offset target bs. patch_bytes k 0 offset target bs };

    ghost longest = { max_pos_range };

    ghost longest_back = { max_neg_range };

    ghost size_of = { size_of_use };

    ghost has_veneer = { λ k. false };

    ghost size_of_veneer = { λ k. 0 };

    ghost largest_veneer = { 0 };

    ghost of_reloc = { use_of_reloc };

    const ALIGN: CodeOffset = 2;

    fn max_pos_range(self) -> CodeOffset
        ensures { result ≡ max_pos_range self }
    {
        match self {
            LabelUse::BranchRI => 65534,
            LabelUse::BranchRIL => 4294967294,
            LabelUse::PCRel32 => 2147483647,
            LabelUse::PCRel32Dbl => 4294967292,
        }
    }

    fn max_neg_range(self) -> CodeOffset
        ensures { result ≡ max_neg_range self }
    {
        match self {
            LabelUse::BranchRI => 65536,
            LabelUse::BranchRIL => 4294967295,
            LabelUse::PCRel32 => 2147483648,
            LabelUse::PCRel32Dbl => 4294967295,
        }
    }

    fn patch_size(self) -> CodeOffset
        ensures { result ≡ patch_size self }
    {
        match self {
            LabelUse::BranchRI => 4,
            LabelUse::BranchRIL => 6,
            LabelUse::PCRel32 => 4,
            LabelUse::PCRel32Dbl => 4,
        }
    }

    fn patch(self, buffer: &mut [u8], use_offset: CodeOffset, label_offset: CodeOffset) {
        patch_at(buffer, 0, self, use_offset, label_offset);
    }

    /// No use has a veneer.
    fn supports_veneer(self) -> bool
        ensures { result ≡ false }
    {
        false
    }

    fn veneer_size(self) -> CodeOffset
        ensures { result ≡ 0 }
    {
        0
    }

    fn worst_case_veneer_size() -> CodeOffset
        ensures { result ≡ 0 }
    {
        0
    }

    /// `PCRel32Dbl` exactly for the two `Dbl` kinds with addend 2.
    fn from_reloc(reloc: Reloc, addend: Addend) -> Option<LabelUse>
        ensures { result ≡ use_of_reloc reloc addend }
    {
        match reloc {
            Reloc::S390xPCRel32Dbl | Reloc::S390xPLTRel32Dbl if addend == 2 => {
                Some(LabelUse::PCRel32Dbl)
            }
            _ => None,
        }
    }
}
