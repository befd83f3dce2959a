//! The text of each instruction, as an assembler's listing would show it.
#![tactic(auto)]

mod calls;
mod law;
mod pretty;
mod pretty_print;
mod row_laws;

pub use law::rows_agree;
pub use pretty::{pretty_print_inst, put_pretty};
pub use pretty_print::PrettyPrint;
pub use row_laws::{texts_have_rows_as_bytes, valid_blocks_have_texts};
pub use s390x_text_rows::{
    TextError, maybe_show_fpr, pretty_print_fpr, pretty_print_reg, pretty_print_reg_mod,
    pretty_print_regpair, pretty_print_regpair_mod, pretty_print_regpair_mod_lo, show_reg,
};
