//! The typed steps of a function: one numbered list, in which a loop is flat. Definitions, the types that they need, and the bits of immediates.
#![tactic(auto)]

mod access_rows;
mod immediates;
mod law;
mod mem_inst_type;
mod move_rows;
mod operator_rows;
mod vector_opcode;
mod vector_rows;

pub use access_rows::{
    LOAD_ROWS, RegisterRows, STORE_ROWS, WHOLE_ROWS, WholeRows, rows_of_layout, rows_of_load,
    rows_of_store,
};
pub use immediates::{
    bits_of_halfword, bits_of_unsigned, bits_of_unsigned_halfword, bits_of_word, low_12, low_byte,
    low_displacement,
};
pub use law::{
    calls_keep_their_steps, codes_of_steps, members_in_order, members_in_order_on_a_machine,
    relative_machines_keep_trees,
};
pub use mem_inst_type::MemInstType;
pub use move_rows::{
    BYTE_TO_DOUBLEWORD, BYTE_TO_WORD, ExtendRows, HALFWORD_TO_DOUBLEWORD, HALFWORD_TO_WORD,
    INDEXED_ROWS, INSERT_HALVES, INSERT_PARTS, LOAD_HALVES, LOAD_PARTS, LOGICAL_INDEXED_ROWS,
    WORD_TO_DOUBLEWORD, row_of_extension, row_of_index, row_of_logical_index,
};
pub use operator_rows::{
    ALU_ROWS, AluRows, CMP_ROWS, CmpRows, PartRows, ROTATE_ROWS, RotateRows, SHIFT_ROWS,
    UNARY_ROWS, row_of_part, row_of_shift, row_of_unary, rows_of_alu, rows_of_cmp, rows_of_rotate,
};
pub use vector_opcode::VectorOpcode;
pub use vector_rows::{
    VEC_BINARY_ROWS, VEC_COMPARISON_ROWS, VEC_ELEMENT_COMPARISON_ROWS, VEC_SHIFT_ROWS,
    VEC_UNARY_ROWS, row_of_vec_binary, row_of_vec_comparison, row_of_vec_element_comparison,
    row_of_vec_shift, row_of_vec_unary,
};
