//! The calls that encode an instruction, one for each format.
#![tactic(auto)]

mod bytes;
mod integer;
mod operands;
mod storage;
mod vector;

pub use integer::{
    enc_e, enc_ri_a, enc_ri_b, enc_ri_c, enc_rie_a, enc_rie_d, enc_rie_f, enc_rie_g, enc_ril_a,
    enc_ril_b, enc_ril_c, enc_rr, enc_rre, enc_rrf_ab, enc_rrf_cde,
};
pub use operands::rxb;
pub use storage::{enc_rs, enc_rsy, enc_rx, enc_rxy, enc_si, enc_sil, enc_siy};
pub use vector::{
    enc_vri_a, enc_vri_b, enc_vri_c, enc_vri_k, enc_vrr_a, enc_vrr_b, enc_vrr_c, enc_vrr_d,
    enc_vrr_e, enc_vrr_f, enc_vrs_a, enc_vrs_b, enc_vrs_c, enc_vrx,
};
