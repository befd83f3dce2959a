//! What stands in an image of several members.
ghost use Rattle.std.specs.Prelude.{◌≡◌, ◌<◌, List, None, ℕ, Some, slice_get, slice_index};
ghost use Rattle.std.specs.List.{All};
ghost use Rattle.s390x_bundle.specs.Bytes.{AreOfExtents, IsBetween, Part, PartStands, Rise, parts_at, parts_behind};
ghost use Rattle.s390x_bundle.specs.Places.{first_misplaced, starts_behind};
ghost use Rattle.s390x_bundle.specs.declared.places.Extent.{Extent};

/// Each member's bytes stand at its start, where the members rise.
pub fn parts_stand()
    ensures { (ps : List Part) → Rise 0 ps → (i : ℕ) (p : Part) → slice_get ps i ≡ Some p
        → PartStands (parts_behind 0 ps) p }
{}

/// All bytes between them are zero.
pub fn zeros_stand_between()
    ensures { (ps : List Part) → Rise 0 ps → (o : ℕ) → IsBetween ps o
        → slice_index (parts_behind 0 ps) o ≡ 0 }
{}

/// Members rise at the starts that `starts_of` tells, where their bytes are as many as their extents say.
pub fn members_rise()
    ensures { (xs : List Extent) (bss : List (List ℕ)) → AreOfExtents xs bss
        → All (λ (x : Extent). 0 < x.alignment) xs → Rise 0 (parts_at (starts_behind None xs) bss) }
{}

/// Where members have places, each one has bytes.
pub fn placed_members_have_bytes()
    ensures { (base : ℕ) (xs : List Extent) → first_misplaced base None 0 xs ≡ None
        → All (λ (x : Extent). 0 < x.size) xs }
{}
