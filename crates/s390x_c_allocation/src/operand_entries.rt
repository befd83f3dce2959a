//! What instructions report, as flat entries.
ghost use Rattle.std.specs.Prelude.{◌≡◌, ◌++◌, ◌∷◌, [], OnOk, map};
ghost use Rattle.s390x_c_allocation.specs.OperandEntries.{constraint_of, items_entries, item_entries, lost_entry, no_register, number_of_class, number_of_kind, number_of_pos, real_entry, register_of};

use s390x_base::{PReg, Reg, RegClass};
use s390x_job_fields::sets::set_members;
use s390x_operands::{OperandConstraint, OperandKind, OperandPos, Reported};
use std::alloc::{AllocError, Global};

/// A register.
#[repr(C)]
#[derive(Clone, Copy)]
pub struct Register {
    /// 1 where it is virtual, 0 where it is real.
    pub is_virtual: u32,
    /// 1 where it is a vector register, 0 where it is a general one.
    pub is_vector: u32,
    pub number: u32,
}

/// Where an operand may stand.
#[repr(C)]
#[derive(Clone, Copy)]
pub struct Constraint {
    /// 0: it has no choice. 1: in a register or on the stack. 2: in a register of its class. 3: in the register `fixed`.
    /// 4: in the register of the operand `reused`.
    pub kind: u32,
    /// With 3.
    pub fixed: Register,
    /// With 4: the number of an entry of the same instruction, counted from 0.
    pub reused: usize,
}

/// What an instruction reports to a register allocator. What an entry doesn't speak of is 0.
#[repr(C)]
#[derive(Clone, Copy)]
pub struct OperandEntry {
    /// The block, counted from 0.
    pub block: usize,
    /// The instruction in the block, counted from 0. A `Loop` reports for all of its members.
    pub instruction: usize,
    /// 0: the register is read. 1: it is written. 2: it is real, and the instruction reads or writes it. 3: it is real, and its value is lost.
    pub kind: u32,
    /// With 0 and 1: 0 before the instruction's effects, 1 after them.
    pub is_late: u32,
    pub register: Register,
    /// With 0 and 1.
    pub constraint: Constraint,
}

/// The instruction of an entry.
#[derive(Clone, Copy)]
pub struct Spot {
    pub block: usize,
    pub instruction: usize,
}

// 0 or 1.
fn class_number(class: RegClass) -> u32
    ensures { result ≡ number_of_class class }
{
    match class {
        RegClass::Int => 0,
        RegClass::Float => 1,
    }
}

fn real_register(preg: PReg) -> Register
    ensures { result ≡ register_of (Reg.Real preg) }
{
    Register {
        is_virtual: 0,
        is_vector: class_number(preg.class()),
        number: u32::from(preg.hw_enc()),
    }
}

fn flat_register(reg: Reg) -> Register
    ensures { result ≡ register_of reg }
{
    match reg {
        Reg::Real(preg) => real_register(preg),
        Reg::Virtual { num, class } => Register {
            is_virtual: 1,
            is_vector: class_number(class),
            number: num,
        },
    }
}

fn no_register() -> Register
    ensures { result ≡ no_register }
{
    Register {
        is_virtual: 0,
        is_vector: 0,
        number: 0,
    }
}

fn free_constraint(kind: u32) -> Constraint
    ensures { result ≡ record { kind = kind; fixed = no_register; reused = 0 } }
{
    Constraint {
        kind,
        fixed: no_register(),
        reused: 0,
    }
}

fn flat_constraint(constraint: OperandConstraint) -> Constraint
    ensures { result ≡ constraint_of constraint }
{
    match constraint {
        OperandConstraint::Any => free_constraint(1),
        OperandConstraint::Reg => free_constraint(2),
        OperandConstraint::FixedReg(preg) => Constraint {
            kind: 3,
            fixed: real_register(preg),
            reused: 0,
        },
        OperandConstraint::Reuse(index) => Constraint {
            kind: 4,
            fixed: no_register(),
            reused: index,
        },
    }
}

fn kind_number(kind: OperandKind) -> u32
    ensures { result ≡ number_of_kind kind }
{
    match kind {
        OperandKind::Use => 0,
        OperandKind::Def => 1,
    }
}

fn pos_number(pos: OperandPos) -> u32
    ensures { result ≡ number_of_pos pos }
{
    match pos {
        OperandPos::Early => 0,
        OperandPos::Late => 1,
    }
}

// The entry of a real register that has no choice.
fn real_entry(spot: Spot, kind: u32, preg: PReg) -> OperandEntry
    ensures { result ≡ real_entry spot kind preg }
{
    OperandEntry {
        block: spot.block,
        instruction: spot.instruction,
        kind,
        is_late: 0,
        register: real_register(preg),
        constraint: free_constraint(0),
    }
}

// Appends an entry.
fn push(out: &mut Vec<OperandEntry>, entry: OperandEntry) -> Result<(), AllocError>
    ensures { OnOk result (out.new.items ≡ out.old.items ++ entry ∷ []) }
{
    out.push(entry)?;
    Ok(())
}

// Appends the entries of registers whose values are lost.
fn put_lost(out: &mut Vec<OperandEntry>, spot: Spot, regs: &[PReg]) -> Result<(), AllocError>
    ensures { OnOk result (out.new.items ≡ out.old.items ++ map (lost_entry spot) regs.now) }
{
    for preg in regs {
        push(out, real_entry(spot, 3, *preg))?;
    }
    Ok(())
}

// Appends the entries of one item.
fn put_item(
    alloc: Global,
    out: &mut Vec<OperandEntry>,
    spot: Spot,
    item: &Reported,
) -> Result<(), AllocError>
    ensures { OnOk result (out.new.items ≡ out.old.items ++ item_entries spot item.now) }
{
    match item {
        Reported::Operand {
            reg,
            constraint: place,
            kind,
            pos,
        } => push(
            out,
            OperandEntry {
                block: spot.block,
                instruction: spot.instruction,
                kind: kind_number(*kind),
                is_late: pos_number(*pos),
                register: flat_register(*reg),
                constraint: flat_constraint(*place),
            },
        ),
        Reported::Fixed(preg) => push(out, real_entry(spot, 2, *preg)),
        Reported::Clobbers(regs) => {
            let members = set_members(alloc, *regs)?;
            put_lost(out, spot, &members)
        }
    }
}

/// Appends the entries of what an instruction reports.
pub fn put_items(
    alloc: Global,
    out: &mut Vec<OperandEntry>,
    spot: Spot,
    items: &[Reported],
) -> Result<(), AllocError>
    ensures { OnOk result (out.new.items ≡ out.old.items ++ items_entries spot items.now) }
{
    for item in items {
        put_item(alloc, out, spot, item)?;
    }
    Ok(())
}
