//! The members of a bundle.

use s390x_base::ExternalName;
use s390x_inst::{AllocatedFunction, EmitInfo, EmitState};
use s390x_job::SymbolLine;

/// A function that is put into one image with others.
#[derive(Drop)]
pub struct Member {
    /// By which the others call it.
    pub name: ExternalName,
    pub function: AllocatedFunction,
    pub info: EmitInfo,
    pub state: EmitState,
    /// The addresses of the symbols that are no members.
    pub symbols: Vec<SymbolLine>,
}
