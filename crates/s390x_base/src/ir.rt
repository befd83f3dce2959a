//! Types, names, labels, memory flags, relocations and constants.
ghost use Rattle.std.specs.Prelude.{◌≡◌, true};
ghost use Rattle.s390x_base.specs.Types.{bits_of, is_vector_type};

use crate::trap::TrapCode;
use std::fmt;
use std::marker::Model;

/// The type of a value.
#[derive(Clone, Copy, PartialEq, Eq, Debug)]
pub enum ValueType {
    I8,
    I16,
    I32,
    I64,
    I128,
    F16,
    F32,
    F64,
    F128,
    I8X8,
    I8X16,
    I16X8,
    I32X4,
    I64X2,
    F32X4,
    F64X2,
}

impl ValueType {
    /// The size in bits.
    pub fn bits(self) -> u32
        ensures { result ≡ bits_of self }
    {
        match self {
            ValueType::I8 => 8,
            ValueType::I16 | ValueType::F16 => 16,
            ValueType::I32 | ValueType::F32 => 32,
            ValueType::I64 | ValueType::F64 | ValueType::I8X8 => 64,
            ValueType::I128
            | ValueType::F128
            | ValueType::I8X16
            | ValueType::I16X8
            | ValueType::I32X4
            | ValueType::I64X2
            | ValueType::F32X4
            | ValueType::F64X2 => 128,
        }
    }

    /// Whether it is a vector of lanes.
    pub fn is_vector(self) -> bool
        ensures { result ≡ is_vector_type self }
    {
        match self {
            ValueType::I8X8
            | ValueType::I8X16
            | ValueType::I16X8
            | ValueType::I32X4
            | ValueType::I64X2
            | ValueType::F32X4
            | ValueType::F64X2 => true,
            _ => false,
        }
    }
}

/// The name of a symbol, by its number.
#[derive(Clone, Copy, PartialEq, Eq, Debug)]
pub struct ExternalName(pub u32);

impl fmt::Display for ExternalName {
    /// `u` and the number.
    fn fmt<W: fmt::Write>(&self, f: &mut fmt::Formatter<W>) -> fmt::Result {
        write!(f, "u{}", self.0)
    }
}

/// A label of a buffer, by its number.
#[derive(Clone, Copy, PartialEq, Eq, Debug)]
pub struct MachLabel(pub u32);

impl fmt::Display for MachLabel {
    /// `label` and the number.
    fn fmt<W: fmt::Write>(&self, f: &mut fmt::Formatter<W>) -> fmt::Result {
        write!(f, "label{}", self.0)
    }
}

/// A declared constant, by its number in the order of declaration.
#[derive(Clone, Copy, PartialEq, Eq, Debug)]
pub struct VCodeConstant(pub u32);

/// A place in code, in bytes from its beginning.
pub type CodeOffset = u32;

/// What a relocation adds to its symbol's address.
pub type Addend = i64;

/// The kinds of relocation.
#[derive(Clone, Copy, PartialEq, Eq, Debug)]
pub enum Reloc {
    /// Half of symbol plus addend less the field's address, in four bytes.
    S390xPCRel32Dbl,
    /// Half of symbol plus addend less the field's address, in four bytes, for a call.
    S390xPLTRel32Dbl,
    /// Symbol plus addend, in eight bytes.
    Abs8,
}

/// What is known of a memory access. Contracts see it as a value of two fields, since each operand in memory has one.
#[derive(Clone, Copy, PartialEq, Eq, Debug)]
pub struct MachMemFlags {
    /// Whether the address is a multiple of the width.
    pub aligned: bool,
    /// The code of a trap at this access; where there is none, the access doesn't fault.
    pub trap: Option<TrapCode>,
}

impl Model for MachMemFlags {
    ghost use Rattle.s390x_base.specs.AccessFlags.{AccessFlags};

    ghost Value = { AccessFlags };

    ghost view = { λ f. record { aligned = f.aligned; trap = f.trap } };

    ghost inverse = { λ f. record { aligned = f.aligned; trap = f.trap } };
}

impl MachMemFlags {
    /// An aligned access that doesn't trap.
    pub fn trusted() -> MachMemFlags
        ensures { result ≡ record { aligned = true; trap = None } }
    {
        MachMemFlags {
            aligned: true,
            trap: None,
        }
    }

    /// Whether the address is a multiple of the width.
    pub fn aligned(self) -> bool
        ensures { result ≡ self.aligned }
    {
        self.aligned
    }

    /// The code of a trap at this access.
    pub fn trap_code(self) -> Option<TrapCode>
        ensures { result ≡ self.trap }
    {
        self.trap
    }
}

/// A constant that stands behind the code.
#[derive(Drop)]
pub struct ConstantData {
    pub bytes: Vec<u8>,
    /// The alignment in bytes: 1, 2, 4, 8 or 16.
    pub align: u32,
}
