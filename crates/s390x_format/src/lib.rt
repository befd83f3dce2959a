//! The instruction formats of the z/Architecture, and the decoder over the machine rows.
#![tactic(auto)]

mod decoder;
mod facility;
mod fields;
mod first_bytes;
mod format;
mod frequent;
mod immediate_formats;
mod immediate_impls;
mod index;
mod kind;
mod layouts;
mod mnemonic_stem;
mod reading;
mod register_formats;
mod register_impls;
mod row;
mod row_offsets;
mod semantics;
mod signed_formats;
mod signed_impls;
mod spelling;
mod steps;
mod storage_formats;
mod storage_impls;
mod table;
mod vector_formats;
mod vector_impls;

pub use decoder::{Decoded, Located, decode, decode_counted, locate};
pub use facility::{Facility, FacilityRule, facility_needed};
pub use fields::{Fields, Imm, imm_class};
pub use format::Format;
pub use immediate_formats::{RiA, RieA, RieD, RieF, RieG, RilA};
pub use index::{row_place, search};
pub use kind::{FormatKind, layout, length};
pub use layouts::{Part, pack, unpack};
pub use mnemonic_stem::stem;
pub use reading::{Reading, fetch_length, number_of};
pub use register_formats::{E, Rr, Rre, RrfAb, RrfCde};
pub use row::{Allowed, MachineRow, Row, allows};
pub use semantics::{OperandSource, RowSemantics, SecondOperand, VectorStorage};
pub use signed_formats::{RiB, RiC, RilB, RilC, Sil};
pub use spelling::{Form, Spelling, Suffix};
pub use steps::Steps;
pub use storage_formats::{Rs, Rsy, Rx, Rxy, Si, Siy};
pub use table::{MACHINE_ROWS, SPELLINGS};
pub use vector_formats::{
    VriA, VriB, VriC, VriK, VrrA, VrrB, VrrC, VrrD, VrrE, VrrF, VrsA, VrsB, VrsC, Vrx,
};
