//! Stores of a general register: one view of their variants, as `load` has one of the loads.
ghost use Rattle.std.specs.Prelude.{◌≡◌, ◌<◌, Some};
ghost use Rattle.s390x_inst.specs.Stores.{as_store, store_instruction, store_place};

use crate::args::MemArg;
use crate::inst::Inst;
use crate::inst_table;
use s390x_base::Reg;

/// A store of a general register to memory.
#[derive(Clone, Copy, PartialEq, Eq, Debug)]
pub enum StoreOp {
    Store8,
    Store16,
    Store32,
    Store64,
    StoreRev16,
    StoreRev32,
    StoreRev64,
}

/// How many stores there are, and so rows in each table of stores.
pub const STORE_COUNT: usize = StoreOp::StoreRev64 as usize + 1;

/// A store with its operands.
#[derive(Clone, Copy)]
pub struct Store {
    pub op: StoreOp,
    pub rd: Reg,
    pub mem: MemArg,
}

// The store that an instruction is.
macro_rules! viewed {
    (($inst:expr) operators $operators:tt moves $moves:tt loads $loads:tt stores { $($store:ident $fields:tt)* } $($rest:tt)*) => {
        match $inst {
            $(Inst::$store { rd, mem } => some_store(StoreOp::$store, rd, mem),)*
            _ => None,
        }
    };
}

// The instruction that a store is.
macro_rules! made {
    (($op:expr, $rd:expr, $mem:expr) operators $operators:tt moves $moves:tt loads $loads:tt stores { $($store:ident $fields:tt)* } $($rest:tt)*) => {
        match $op {
            $(StoreOp::$store => Inst::$store { rd: $rd, mem: $mem },)*
        }
    };
}

// A store, of operands that are borrowed.
#[inline(always)]
fn some_store(op: StoreOp, rd: &Reg, mem: &MemArg) -> Option<Store>
    ensures { result ≡ Some (record { op = op; rd = rd.now; mem = mem.now }) }
{
    Some(Store {
        op,
        rd: *rd,
        mem: *mem,
    })
}

impl Inst {
    /// The store that the instruction is. None where it is none.
    #[inline(always)]
    pub fn as_store(&self) -> Option<Store>
        ensures { result ≡ as_store self.now }
    {
        inst_table!(viewed, self)
    }
}

impl StoreOp {
    /// The store of a register to an operand.
    pub fn instruction(self, rd: Reg, mem: MemArg) -> Inst
        ensures { result ≡ store_instruction self rd mem }
    {
        inst_table!(made, self, rd, mem)
    }

    /// The store's row in each table of stores.
    pub fn place(self) -> usize
        ensures place { result ≡ store_place self }
        ensures listed { result < STORE_COUNT }
    {
        self as usize
    }
}
