//! Loads and stores of a whole vector register: one view of their variants.
//!
//! What differs by layout stands in tables, one row a layout, at the place that `WholeLayout::place` tells.
ghost use Rattle.std.specs.Prelude.{◌≡◌, ◌<◌, Some};
ghost use Rattle.s390x_inst.specs.Wholes.{as_whole, layout_place, whole_instruction};

use crate::args::MemArg;
use crate::vec_inst::VecInst;
use crate::vector_table;
use s390x_base::{Reg, Writable};

/// Whether a register becomes what lies in memory, or the memory becomes the register.
#[derive(Clone, Copy, PartialEq, Eq, Debug)]
pub enum Direction {
    Load,
    Store,
}

/// How the 128 bits of a vector register lie in memory.
#[derive(Clone, Copy, PartialEq, Eq, Debug)]
pub enum WholeLayout {
    /// As they stand in the register.
    Straight,
    /// Their bytes reversed.
    Reversed,
    /// The bytes of each lane of 16 bits reversed.
    Bytes16,
    /// The bytes of each lane of 32 bits reversed.
    Bytes32,
    /// The bytes of each lane of 64 bits reversed.
    Bytes64,
    /// The lanes of 16 bits reversed.
    Elements16,
    /// The lanes of 32 bits reversed.
    Elements32,
    /// The lanes of 64 bits reversed.
    Elements64,
}

/// How many layouts there are, and so rows in each table of them.
pub const LAYOUT_COUNT: usize = WholeLayout::Elements64 as usize + 1;

/// A load or a store of a whole vector register: `rd` is written by a load, and read by a store.
#[derive(Clone, Copy)]
pub struct WholeAccess {
    pub direction: Direction,
    pub layout: WholeLayout,
    pub rd: Reg,
    pub mem: MemArg,
}

// The load or the store of a whole register that an instruction is.
macro_rules! viewed {
    (($inst:expr) loads { $($load:ident $from:ident $read:tt)* } stores { $($store:ident $to:ident $written:tt)* } $($rest:tt)*) => {
        match $inst {
            $(VecInst::$load { rd, mem } => some_load(WholeLayout::$from, rd, mem),)*
            $(VecInst::$store { rd, mem } => some_store(WholeLayout::$to, rd, mem),)*
            _ => None,
        }
    };
}

// The load of a layout.
macro_rules! loaded {
    (($layout:expr, $rd:expr, $mem:expr) loads { $($load:ident $from:ident $fields:tt)* } $($rest:tt)*) => {
        match $layout {
            $(WholeLayout::$from => VecInst::$load { rd: $rd, mem: $mem },)*
        }
    };
}

// The store of a layout.
macro_rules! stored {
    (($layout:expr, $rd:expr, $mem:expr) loads $loads:tt stores { $($store:ident $to:ident $fields:tt)* } $($rest:tt)*) => {
        match $layout {
            $(WholeLayout::$to => VecInst::$store { rd: $rd, mem: $mem },)*
        }
    };
}

// A load, of operands that are borrowed.
#[inline(always)]
fn some_load(layout: WholeLayout, rd: &Writable<Reg>, mem: &MemArg) -> Option<WholeAccess>
    ensures { result ≡ Some (record {
      direction = Direction.Load;
      layout = layout;
      rd = rd.now;
      mem = mem.now;
    }) }
{
    Some(WholeAccess {
        direction: Direction::Load,
        layout,
        rd: rd.to_reg(),
        mem: *mem,
    })
}

// A store, likewise.
#[inline(always)]
fn some_store(layout: WholeLayout, rd: &Reg, mem: &MemArg) -> Option<WholeAccess>
    ensures { result ≡ Some (record {
      direction = Direction.Store;
      layout = layout;
      rd = rd.now;
      mem = mem.now;
    }) }
{
    Some(WholeAccess {
        direction: Direction::Store,
        layout,
        rd: *rd,
        mem: *mem,
    })
}

impl VecInst {
    /// The load or the store of a whole register that the instruction is. None where it is none.
    #[inline(always)]
    pub fn as_whole(&self) -> Option<WholeAccess>
        ensures { result ≡ as_whole self.now }
    {
        vector_table!(viewed, self)
    }
}

// The load of a whole register.
fn load_of(layout: WholeLayout, rd: Writable<Reg>, mem: MemArg) -> VecInst
    ensures { result ≡ whole_instruction Direction.Load layout rd mem }
{
    vector_table!(loaded, layout, rd, mem)
}

// The store of a whole register.
fn store_of(layout: WholeLayout, rd: Reg, mem: MemArg) -> VecInst
    ensures { result ≡ whole_instruction Direction.Store layout rd mem }
{
    vector_table!(stored, layout, rd, mem)
}

impl WholeAccess {
    /// The instruction that it is: a load writes `rd`.
    pub fn instruction(self) -> VecInst
        ensures { result ≡ whole_instruction self.direction self.layout self.rd self.mem }
    {
        match self.direction {
            Direction::Load => load_of(self.layout, Writable::from_reg(self.rd), self.mem),
            Direction::Store => store_of(self.layout, self.rd, self.mem),
        }
    }
}

impl WholeLayout {
    /// The layout's row in each table of layouts.
    pub fn place(self) -> usize
        ensures place { result ≡ layout_place self }
        ensures listed { result < LAYOUT_COUNT }
    {
        self as usize
    }
}
