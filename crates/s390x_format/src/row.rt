//! Machine rows.
ghost use Rattle.std.specs.Prelude.{◌≡◌};
ghost use Rattle.s390x_format.specs.Rows.{is_allowed};

use crate::facility::FacilityRule;
use crate::kind::FormatKind;
use crate::semantics::RowSemantics;

/// Which masks and immediates of 8 bits a row allows. Bytes with others have no row.
#[derive(Clone, Copy)]
pub enum Allowed {
    /// Any.
    Any,
    /// The first mask lies in this range, as a condition, an element size or a lane number does;
    /// the others are 0.
    FirstMask { low: u8, high: u8 },
    /// POPULATION COUNT: the first mask is 0 (ones of each byte) or 8 (ones of the register).
    CountMode,
    /// Vector comparisons: an element size of 0 to 4, and whether the condition code is set.
    ComparedLanes,
    /// VECTOR PERMUTE DOUBLEWORD IMMEDIATE: the mask is 0, 1, 4 or 5, the others are 0.
    DoublewordPair,
    /// Rotate then insert: three bit numbers below 64.
    RotateBits,
    /// The other rotates: the same, and the first may have 128 added, which means that the result
    /// is only tested.
    RotateBitsOrTest,
    /// VECTOR GENERATE MASK: two bit numbers below the element's size.
    BitRange,
    /// VECTOR REPLICATE: a lane number below the number of lanes.
    ReplicatedLane,
}

/// A row of the table: an opcode with its format, what it allows, which facility it needs, and what it does. How it is written
/// stands at the same place of `SPELLINGS`.
#[derive(Clone, Copy)]
pub struct MachineRow {
    pub format: FormatKind,
    pub opcode: u16,
    pub allowed: Allowed,
    pub facility: FacilityRule,
    pub semantics: RowSemantics,
}

/// A row by its format and opcode.
#[derive(Clone, Copy, PartialEq, Debug)]
pub struct Row {
    pub format: FormatKind,
    pub opcode: u16,
}

/// Whether the row allows the masks and immediates in the slots.
pub fn allows(allowed: &Allowed, slots: &[u32; 10]) -> bool
    ensures { result ≡ is_allowed allowed.now slots.now }
{
    // Slots 5 to 7 have the masks and immediates of 8 bits, slot 8 the wider immediate.
    match allowed {
        Allowed::Any => true,
        Allowed::FirstMask { low, high } => {
            u32::from(*low) <= slots[5]
                && slots[5] <= u32::from(*high)
                && slots[6] == 0
                && slots[7] == 0
        }
        Allowed::CountMode => (slots[5] == 0 || slots[5] == 8) && slots[6] == 0,
        Allowed::ComparedLanes => slots[5] <= 4 && slots[6] <= 1,
        Allowed::DoublewordPair => {
            (slots[5] == 0 || slots[5] == 1 || slots[5] == 4 || slots[5] == 5)
                && slots[6] == 0
                && slots[7] == 0
        }
        Allowed::RotateBits => slots[5] < 64 && slots[6] < 64 && slots[7] < 64,
        Allowed::RotateBitsOrTest => {
            (slots[5] < 64 || (128 <= slots[5] && slots[5] < 192)) && slots[6] < 64 && slots[7] < 64
        }
        Allowed::BitRange => slots[7] < 4
            && slots[5] < (8 << slots[7])
            && slots[6] < (8 << slots[7]),
        Allowed::ReplicatedLane => slots[5] < 4 && slots[8] < (1 << (4 - slots[5])),
    }
}
