//! The line of an instruction's items.
ghost use Rattle.std.specs.Prelude.{◌≡◌, ◌++◌, ◌∷◌, [], OnOk, map, string_bytes};
ghost use Rattle.s390x_operands.specs.declared.constraint.OperandConstraint.TheVariants.{Reuse};
ghost use Rattle.s390x_operands.specs.declared.constraint.OperandKind.TheVariants.{Def};
ghost use Rattle.s390x_operands.specs.declared.constraint.Reported.TheVariants.{Fixed};
ghost use Rattle.s390x_job_fields.specs.Atoms.{reg_text, real_text};
ghost use Rattle.s390x_listing.specs.Lists.{items_in};
ghost use Rattle.s390x_listing.specs.Operands.{item_text, items_text, kind_text, more_items, operand_text};

use crate::item_list::ItemList;
use crate::members::put_clobbers;
use s390x_base::{PReg, Reg, RegClass};
use s390x_job_fields::number::put_char;
use s390x_operands::{OperandConstraint, OperandKind, Reported};
use s390x_text_rows::{Operand, put, put_natural, put_real, put_small};
use std::alloc::AllocError;

/// Appends the items joined by `, `, or `none`, and a line feed.
pub fn put_line(out: &mut String, list: &ItemList) -> Result<(), AllocError>
    ensures { OnOk result
        (string_bytes out.new
        ≡ string_bytes out.old ++ (items_text (items_in list.now) ++ 10 ∷ [])) }
{
    put_list(out, list)?;
    put_char(out, '\n')
}

// The items joined by `, `, or `none`.
#[inline(always)]
fn put_list(out: &mut String, list: &ItemList) -> Result<(), AllocError>
    ensures { OnOk result
        (string_bytes out.new ≡ string_bytes out.old ++ items_text (items_in list.now)) }
{
    match list.fixed() {
        [] => put_items(out, list.others()),
        [first, rest @ ..] => put_from_fixed(out, *first, rest, list.others()),
    }
}

// Real registers that no operand stands for, and the items behind them.
#[inline(always)]
fn put_from_fixed(
    out: &mut String,
    first: PReg,
    rest: &[PReg],
    others: &[Reported],
) -> Result<(), AllocError>
    ensures { OnOk result
        (string_bytes out.new
        ≡ string_bytes out.old
        ++ (item_text (Reported.Fixed first) ++ more_items (map Fixed rest.now ++ others.now))) }
{
    put_fixed(out, first)?;
    put_more_fixed(out, rest)?;
    put_more(out, others)
}

// Real registers that no operand stands for, each behind a comma.
#[inline(always)]
fn put_more_fixed(out: &mut String, pregs: &[PReg]) -> Result<(), AllocError>
    ensures { OnOk result
        (string_bytes out.new ≡ string_bytes out.old ++ more_items (map Fixed pregs.now)) }
{
    for preg in pregs {
        put_next_fixed(out, *preg)?;
    }
    Ok(())
}

// A real register that no operand stands for, behind a comma.
#[inline(always)]
fn put_next_fixed(out: &mut String, preg: PReg) -> Result<(), AllocError>
    ensures { OnOk result
        (string_bytes out.new ≡ string_bytes out.old ++ more_items (Reported.Fixed preg ∷ [])) }
{
    match preg.class() {
        RegClass::Int => put(out, ", fixed %r")?,
        RegClass::Float => put(out, ", fixed %v")?,
    }
    put_small(out, preg.hw_enc())
}

// A real register that no operand stands for.
#[inline(always)]
fn put_fixed(out: &mut String, preg: PReg) -> Result<(), AllocError>
    ensures { OnOk result
        (string_bytes out.new ≡ string_bytes out.old ++ item_text (Reported.Fixed preg)) }
{
    match preg.class() {
        RegClass::Int => put(out, "fixed %r")?,
        RegClass::Float => put(out, "fixed %v")?,
    }
    put_small(out, preg.hw_enc())
}

// Items joined by `, `, or `none`.
fn put_items(out: &mut String, items: &[Reported]) -> Result<(), AllocError>
    ensures { OnOk result (string_bytes out.new ≡ string_bytes out.old ++ items_text items.now) }
{
    match items {
        [] => put(out, "none"),
        [first, rest @ ..] => {
            put_item(out, first)?;
            put_more(out, rest)
        }
    }
}

// Each item behind a comma.
fn put_more(out: &mut String, items: &[Reported]) -> Result<(), AllocError>
    ensures { OnOk result (string_bytes out.new ≡ string_bytes out.old ++ more_items items.now) }
{
    for item in items {
        put(out, ", ")?;
        put_item(out, item)?;
    }
    Ok(())
}

// An item.
fn put_item(out: &mut String, item: &Reported) -> Result<(), AllocError>
    ensures { OnOk result (string_bytes out.new ≡ string_bytes out.old ++ item_text item.now) }
{
    match item {
        Reported::Operand {
            reg,
            constraint,
            kind,
            ..
        } => put_operand(out, *reg, *constraint, *kind),
        Reported::Fixed(preg) => put_fixed(out, *preg),
        Reported::Clobbers(regs) => put_clobbers(out, regs),
    }
}

// An operand with its constraint.
fn put_operand(
    out: &mut String,
    reg: Reg,
    constraint: OperandConstraint,
    kind: OperandKind,
) -> Result<(), AllocError>
    ensures { OnOk result
        (string_bytes out.new ≡ string_bytes out.old ++ operand_text constraint kind reg) }
{
    match constraint {
        OperandConstraint::Reg => {
            put(out, kind_name(kind))?;
            reg.put(out)
        }
        OperandConstraint::Any => {
            put(out, "any ")?;
            reg.put(out)
        }
        OperandConstraint::FixedReg(preg) => put_placed(out, reg, preg, kind),
        OperandConstraint::Reuse(index) => put_reuse(out, reg, index),
    }
}

// An operand in a register that it has to have.
fn put_placed(out: &mut String, reg: Reg, preg: PReg, kind: OperandKind) -> Result<(), AllocError>
    ensures { OnOk result
        (string_bytes out.new
        ≡ string_bytes out.old ++ (kind_text kind ++ (reg_text reg ++ 61 ∷ real_text preg))) }
{
    put(out, kind_name(kind))?;
    reg.put(out)?;
    put(out, "=")?;
    put_real(out, preg)
}

// An operand in the register of another one.
fn put_reuse(out: &mut String, reg: Reg, index: usize) -> Result<(), AllocError>
    ensures { OnOk result
        (string_bytes out.new
        ≡ string_bytes out.old ++ operand_text (Reuse index) Def reg) }
{
    put(out, "reuse(")?;
    put_natural(out, index as u64)?;
    put(out, ") ")?;
    reg.put(out)
}

// Whether an operand is read or written.
fn kind_name(kind: OperandKind) -> &'static str
    ensures { result.now ≡ kind_text kind }
{
    match kind {
        OperandKind::Use => "use ",
        OperandKind::Def => "def ",
    }
}
