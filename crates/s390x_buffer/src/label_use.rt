//! The kinds of uses of labels.

/// A kind of use of a label. The distance is the label's offset less the use's.
#[derive(Clone, Copy, PartialEq, Eq, Debug)]
pub enum LabelUse {
    /// A branch of the formats RI and RSI: bytes 2 and 3 become half the distance.
    BranchRI,
    /// A branch or load of the format RIL: bytes 2 to 5 become half the distance.
    BranchRIL,
    /// A word of a table: the distance is added to it.
    PCRel32,
    /// The field of a relative access at byte 2 of its instruction: half the distance, and 1, is added to it.
    PCRel32Dbl,
}
