//! The text of an instruction that is neither a loop nor a call: a row's mnemonic and its operands.
#![tactic(auto)]

mod arithmetic;
mod compare;
mod control;
mod error;
mod memory;
mod mnemonics;
mod moves;
mod near_offset;
mod one_helper;
mod operand;
mod piece;
mod register_access;
mod register_names;
mod regs;
mod row;
mod simple;
mod storage;
mod sum;
mod vector;
mod vector_memory;
mod vector_mnemonics;

pub use arithmetic::{put_arithmetic, put_pair_instruction};
pub use compare::put_compare;
pub use control::put_control;
pub use error::TextError;
pub use memory::{put_address, put_load, put_storage_operator, put_store};
pub use moves::put_move;
pub use operand::{Operand, cond_name, put_cond};
pub use piece::{put, put_natural, put_small};
pub use register_names::put_real;
pub use regs::{
    alone, maybe_show_fpr, pretty_print_fpr, pretty_print_reg, pretty_print_reg_mod,
    pretty_print_regpair, pretty_print_regpair_mod, pretty_print_regpair_mod_lo, show_reg,
};
pub use row::{spelled1, spelled2};
pub use simple::put_simple;
pub use storage::is_virtual;
pub use vector::{put_vec_lane, put_vec_move, put_vec_operator};
pub use vector_memory::{put_vec_part, put_vec_whole};
