//! Loads of a general register: one view of their variants.
//!
//! What differs by load stands in tables, one row a load, at the place that `load_place` tells.
ghost use Rattle.std.specs.Prelude.{◌≡◌, ◌<◌, Some};
ghost use Rattle.s390x_inst.specs.Loads.{as_load, load_instruction, load_place};

use crate::args::MemArg;
use crate::inst::Inst;
use crate::inst_table;
use s390x_base::{Reg, Writable};

/// A load of a general register from memory.
#[derive(Clone, Copy, PartialEq, Eq, Debug)]
pub enum LoadOp {
    Load32,
    Load32ZExt8,
    Load32SExt8,
    Load32ZExt16,
    Load32SExt16,
    Load64,
    Load64ZExt8,
    Load64SExt8,
    Load64ZExt16,
    Load64SExt16,
    Load64ZExt32,
    Load64SExt32,
    LoadRev16,
    LoadRev32,
    LoadRev64,
}

/// How many loads there are, and so rows in each table of loads.
pub const LOAD_COUNT: usize = LoadOp::LoadRev64 as usize + 1;

/// A load with its operands: `rd` is written.
#[derive(Clone, Copy)]
pub struct Load {
    pub op: LoadOp,
    pub rd: Writable<Reg>,
    pub mem: MemArg,
}

// The load that an instruction is.
macro_rules! viewed {
    (($inst:expr) operators $operators:tt moves $moves:tt loads { $($load:ident $fields:tt)* } $($rest:tt)*) => {
        match $inst {
            $(Inst::$load { rd, mem } => some_load(LoadOp::$load, rd, mem),)*
            _ => None,
        }
    };
}

// The instruction that a load is.
macro_rules! made {
    (($op:expr, $rd:expr, $mem:expr) operators $operators:tt moves $moves:tt loads { $($load:ident $fields:tt)* } $($rest:tt)*) => {
        match $op {
            $(LoadOp::$load => Inst::$load { rd: $rd, mem: $mem },)*
        }
    };
}

// A load, of operands that are borrowed.
#[inline(always)]
fn some_load(op: LoadOp, rd: &Writable<Reg>, mem: &MemArg) -> Option<Load>
    ensures { result ≡ Some (record { op = op; rd = rd.now; mem = mem.now }) }
{
    Some(Load {
        op,
        rd: *rd,
        mem: *mem,
    })
}

impl Inst {
    /// The load that the instruction is. None where it is none.
    #[inline(always)]
    pub fn as_load(&self) -> Option<Load>
        ensures { result ≡ as_load self.now }
    {
        inst_table!(viewed, self)
    }
}

impl LoadOp {
    /// The load of a register from an operand.
    pub fn instruction(self, rd: Writable<Reg>, mem: MemArg) -> Inst
        ensures { result ≡ load_instruction self rd mem }
    {
        inst_table!(made, self, rd, mem)
    }

    /// The load's row in each table of loads.
    pub fn place(self) -> usize
        ensures place { result ≡ load_place self }
        ensures listed { result < LOAD_COUNT }
    {
        self as usize
    }
}
