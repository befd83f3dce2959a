//! The machine rows of each load and each store of one register. A row is read through a borrow of its table, which indexing by itself would copy.
ghost use Rattle.std.specs.Prelude.{◌≡◌};
ghost use Rattle.s390x_typed_steps.specs.Memory.{load_rows, store_rows, layout_rows};

use s390x_inst::{LAYOUT_COUNT, LOAD_COUNT, LoadOp, STORE_COUNT, StoreOp, WholeLayout};
use s390x_rows::opcodes;

/// The opcodes of the rows of a load or a store of a general register: with a displacement of 12 bits, with one of 20, and relative to the instruction.
#[derive(Clone, Copy)]
pub struct RegisterRows {
    pub rx: Option<u8>,
    pub rxy: Option<u16>,
    pub ril: Option<u16>,
}

/// The opcodes of a load and of a store of a whole vector register in one layout, and what stands in the field M3 of both.
#[derive(Clone, Copy)]
pub struct WholeRows {
    pub load_opcode: u16,
    pub store_opcode: u16,
    pub mask: u8,
}

/// The rows by load (cranelift-codegen, `emit.rs`).
#[rattlefmt::skip]
pub const LOAD_ROWS: [RegisterRows; LOAD_COUNT] = [
    RegisterRows { rx: Some(opcodes::L as u8), rxy: Some(opcodes::LY), ril: Some(opcodes::LRL) }, // Load32
    RegisterRows { rx: None, rxy: Some(opcodes::LLC), ril: None }, // Load32ZExt8
    RegisterRows { rx: None, rxy: Some(opcodes::LB), ril: None }, // Load32SExt8
    RegisterRows { rx: None, rxy: Some(opcodes::LLH), ril: Some(opcodes::LLHRL) }, // Load32ZExt16
    RegisterRows { rx: Some(opcodes::LH as u8), rxy: Some(opcodes::LHY), ril: Some(opcodes::LHRL) }, // Load32SExt16
    RegisterRows { rx: None, rxy: Some(opcodes::LG), ril: Some(opcodes::LGRL) }, // Load64
    RegisterRows { rx: None, rxy: Some(opcodes::LLGC), ril: None }, // Load64ZExt8
    RegisterRows { rx: None, rxy: Some(opcodes::LGB), ril: None }, // Load64SExt8
    RegisterRows { rx: None, rxy: Some(opcodes::LLGH), ril: Some(opcodes::LLGHRL) }, // Load64ZExt16
    RegisterRows { rx: None, rxy: Some(opcodes::LGH), ril: Some(opcodes::LGHRL) }, // Load64SExt16
    RegisterRows { rx: None, rxy: Some(opcodes::LLGF), ril: Some(opcodes::LLGFRL) }, // Load64ZExt32
    RegisterRows { rx: None, rxy: Some(opcodes::LGF), ril: Some(opcodes::LGFRL) }, // Load64SExt32
    RegisterRows { rx: None, rxy: Some(opcodes::LRVH), ril: None }, // LoadRev16
    RegisterRows { rx: None, rxy: Some(opcodes::LRV), ril: None }, // LoadRev32
    RegisterRows { rx: None, rxy: Some(opcodes::LRVG), ril: None }, // LoadRev64
];

/// The rows by store (the same).
#[rattlefmt::skip]
pub const STORE_ROWS: [RegisterRows; STORE_COUNT] = [
    RegisterRows { rx: Some(opcodes::STC as u8), rxy: Some(opcodes::STCY), ril: None }, // Store8
    RegisterRows { rx: Some(opcodes::STH as u8), rxy: Some(opcodes::STHY), ril: Some(opcodes::STHRL) }, // Store16
    RegisterRows { rx: Some(opcodes::ST as u8), rxy: Some(opcodes::STY), ril: Some(opcodes::STRL) }, // Store32
    RegisterRows { rx: None, rxy: Some(opcodes::STG), ril: Some(opcodes::STGRL) }, // Store64
    RegisterRows { rx: None, rxy: Some(opcodes::STRVH), ril: None }, // StoreRev16
    RegisterRows { rx: None, rxy: Some(opcodes::STRV), ril: None }, // StoreRev32
    RegisterRows { rx: None, rxy: Some(opcodes::STRVG), ril: None }, // StoreRev64
];

/// The rows by layout (the same).
#[rattlefmt::skip]
pub const WHOLE_ROWS: [WholeRows; LAYOUT_COUNT] = [
    WholeRows { load_opcode: opcodes::VL, store_opcode: opcodes::VST, mask: 0 }, // Straight
    WholeRows { load_opcode: opcodes::VLBR, store_opcode: opcodes::VSTBR, mask: 4 }, // Reversed
    WholeRows { load_opcode: opcodes::VLBR, store_opcode: opcodes::VSTBR, mask: 1 }, // Bytes16
    WholeRows { load_opcode: opcodes::VLBR, store_opcode: opcodes::VSTBR, mask: 2 }, // Bytes32
    WholeRows { load_opcode: opcodes::VLBR, store_opcode: opcodes::VSTBR, mask: 3 }, // Bytes64
    WholeRows { load_opcode: opcodes::VLER, store_opcode: opcodes::VSTER, mask: 1 }, // Elements16
    WholeRows { load_opcode: opcodes::VLER, store_opcode: opcodes::VSTER, mask: 2 }, // Elements32
    WholeRows { load_opcode: opcodes::VLER, store_opcode: opcodes::VSTER, mask: 3 }, // Elements64
];

/// The rows of a load.
#[inline(always)]
pub fn rows_of_load(op: LoadOp) -> RegisterRows
    ensures { result ≡ load_rows op }
{
    (&LOAD_ROWS)[op.place()]
}

/// The rows of a store.
#[inline(always)]
pub fn rows_of_store(op: StoreOp) -> RegisterRows
    ensures { result ≡ store_rows op }
{
    (&STORE_ROWS)[op.place()]
}

/// The rows of loads and stores of a whole vector register in a layout.
pub fn rows_of_layout(layout: WholeLayout) -> WholeRows
    ensures { result ≡ layout_rows layout }
{
    (&WHOLE_ROWS)[layout.place()]
}
