//! Functions as emission takes them: registers are assigned, or refused by emission.

use crate::inst::Inst;
use s390x_base::ConstantData;

/// A block of instructions. Its label is its number.
#[derive(Drop)]
pub struct Block {
    pub insts: Vec<Inst>,
}

/// A function: its blocks and its constants, each in order. Label n below the number of blocks is block n.
#[derive(Drop)]
pub struct AllocatedFunction {
    pub blocks: Vec<Block>,
    pub constants: Vec<ConstantData>,
}
