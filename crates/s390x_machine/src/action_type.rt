//! What a row does, with the values that its registers have.
use s390x_operations::Operation;

/// What a row does, with the values that its registers have.
#[derive(Clone, Copy)]
pub enum Action {
    /// An operation; the next instruction follows.
    Perform(Operation),
    /// A branch under a mask.
    Branch { mask: u8, target: u64 },
    /// The register gets the address of the next instruction, and the branch is taken.
    BranchAndSave { link: u8, target: u64 },
}
