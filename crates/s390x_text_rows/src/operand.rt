//! The operands of a text.
ghost use Rattle.std.specs.Prelude.{◌≡◌, ℕ, List, ◌++◌, OnOk, string_bytes};
ghost use Rattle.std.specs.Fmt.{decimal, signed_decimal};
ghost use Rattle.s390x_job_fields.specs.Atoms.{reg_text, real_text};
ghost use Rattle.s390x_text_rows.specs.Operands.{reused_text, rotated_text, halves_text, pair_text, reused_pair_text, reused_low_text, is_zero, bracketed_register, amount_text, access_register_text, float_text, cond_text, label_text, name_text, indexed_text};

use crate::piece::{put, put_integer, put_natural};
use crate::register_names::{put_real, put_real_behind, put_reg, put_virtual};
use s390x_base::{
    Cond, ExternalName, MachLabel, PReg, Reg, RegClass, RegPair, SImm20, UImm16Shifted,
    UImm32Shifted, Writable, zero_reg,
};
use std::alloc::AllocError;

/// A value that a text shows as one operand.
pub trait Operand {
    ghost shown: { Self → List ℕ };

    /// Appends the operand.
    fn put(&self, out: &mut String) -> Result<(), AllocError>
        ensures { OnOk result (string_bytes out.new ≡ string_bytes out.old ++ shown self.now) };
}

impl Operand for Reg {
    ghost shown = { reg_text };

    #[inline(always)]
    fn put(&self, out: &mut String) -> Result<(), AllocError> {
        put_reg(out, self)
    }
}

impl Operand for Writable<Reg> {
    ghost shown = { reg_text };

    #[inline(always)]
    fn put(&self, out: &mut String) -> Result<(), AllocError> {
        put_reg(out, &self.to_reg())
    }
}

impl Operand for PReg {
    ghost shown = { real_text };

    fn put(&self, out: &mut String) -> Result<(), AllocError> {
        put_real(out, *self)
    }
}

impl Operand for u8 {
    ghost shown = { decimal };

    fn put(&self, out: &mut String) -> Result<(), AllocError> {
        put_natural(out, u64::from(*self))
    }
}

impl Operand for u16 {
    ghost shown = { decimal };

    fn put(&self, out: &mut String) -> Result<(), AllocError> {
        put_natural(out, u64::from(*self))
    }
}

impl Operand for u32 {
    ghost shown = { decimal };

    fn put(&self, out: &mut String) -> Result<(), AllocError> {
        put_natural(out, u64::from(*self))
    }
}

impl Operand for i16 {
    ghost shown = { signed_decimal };

    fn put(&self, out: &mut String) -> Result<(), AllocError> {
        put_integer(out, i64::from(*self))
    }
}

impl Operand for i32 {
    ghost shown = { signed_decimal };

    fn put(&self, out: &mut String) -> Result<(), AllocError> {
        put_integer(out, i64::from(*self))
    }
}

impl Operand for i64 {
    ghost shown = { signed_decimal };

    fn put(&self, out: &mut String) -> Result<(), AllocError> {
        put_integer(out, *self)
    }
}

impl Operand for UImm16Shifted {
    ghost shown = { λ i. decimal i.bits };

    fn put(&self, out: &mut String) -> Result<(), AllocError> {
        put_natural(out, u64::from(self.bits))
    }
}

impl Operand for UImm32Shifted {
    ghost shown = { λ i. decimal i.bits };

    fn put(&self, out: &mut String) -> Result<(), AllocError> {
        put_natural(out, u64::from(self.bits))
    }
}

impl Operand for MachLabel {
    ghost shown = { λ l. label_text l.0 };

    fn put(&self, out: &mut String) -> Result<(), AllocError> {
        put(out, "label")?;
        put_natural(out, u64::from(self.0))
    }
}

impl Operand for ExternalName {
    ghost shown = { λ n. name_text n.0 };

    fn put(&self, out: &mut String) -> Result<(), AllocError> {
        put(out, "u")?;
        put_natural(out, u64::from(self.0))
    }
}

/// An output that is also an input.
#[derive(Clone, Copy)]
pub struct Reused {
    pub rd: Reg,
    pub ri: Reg,
}

impl Operand for Reused {
    ghost shown = { λ r. reused_text r.rd r.ri };

    fn put(&self, out: &mut String) -> Result<(), AllocError> {
        put_reg(out, &self.rd)?;
        if self.rd == self.ri {
            return Ok(());
        }
        put(out, "<-")?;
        put_reg(out, &self.ri)
    }
}

/// The bits of a rotation.
#[derive(Clone, Copy)]
pub struct RotatedBits {
    /// The first bit, with 128 added where the bits are tested alone.
    pub start: u16,
    /// The last bit.
    pub end: u8,
    /// By how many bits it rotates.
    pub amount: u8,
}

impl Operand for RotatedBits {
    ghost shown = { λ b. rotated_text b.start b.end b.amount };

    fn put(&self, out: &mut String) -> Result<(), AllocError> {
        put_natural(out, u64::from(self.start))?;
        put(out, ", ")?;
        put_natural(out, u64::from(self.end))?;
        put(out, ", ")?;
        put_natural(out, u64::from(self.amount))
    }
}

// Both registers of a pair.
fn put_halves(out: &mut String, pair: RegPair) -> Result<(), AllocError>
    ensures { OnOk result
        (string_bytes out.new ≡ string_bytes out.old ++ halves_text pair.hi pair.lo) }
{
    put_reg(out, &pair.hi)?;
    put(out, "/")?;
    put_reg(out, &pair.lo)
}

impl Operand for RegPair {
    ghost shown = { λ p. pair_text p.hi p.lo };

    fn put(&self, out: &mut String) -> Result<(), AllocError> {
        match (self.hi.to_real_reg(), self.lo.to_real_reg()) {
            (Some(_), Some(_)) => put_reg(out, &self.hi),
            _ => put_halves(out, *self),
        }
    }
}

/// A pair that is also an input.
#[derive(Clone, Copy)]
pub struct ReusedPair {
    pub rd: RegPair,
    pub ri: RegPair,
}

impl Operand for ReusedPair {
    ghost shown = { λ p. reused_pair_text p.rd.hi p.rd.lo p.ri.hi p.ri.lo };

    fn put(&self, out: &mut String) -> Result<(), AllocError> {
        if self.rd.hi == self.ri.hi {
            return put_reg(out, &self.rd.hi);
        }
        put_halves(out, self.rd)?;
        put(out, "<-")?;
        put_halves(out, self.ri)
    }
}

/// A pair whose second register is also an input.
#[derive(Clone, Copy)]
pub struct ReusedLow {
    pub rd: RegPair,
    pub ri: Reg,
}

impl Operand for ReusedLow {
    ghost shown = { λ p. reused_low_text p.rd.hi p.rd.lo p.ri };

    fn put(&self, out: &mut String) -> Result<(), AllocError> {
        if self.rd.lo == self.ri {
            return put_reg(out, &self.rd.hi);
        }
        put_halves(out, self.rd)?;
        put(out, "<-_/")?;
        put_reg(out, &self.ri)
    }
}

/// A float register: the left half of a vector register below 16.
#[derive(Clone, Copy)]
pub struct Float(pub Reg);

impl Operand for Float {
    ghost shown = { λ f. float_text f.0 };

    fn put(&self, out: &mut String) -> Result<(), AllocError> {
        match self.0 {
            Reg::Real(real) => {
                put(out, "%f")?;
                put_natural(out, u64::from(real.hw_enc()))
            }
            Reg::Virtual { .. } => Ok(()),
        }
    }
}

/// Whether a register is `%r0`, which counts as zero where an address or an amount is summed.
pub fn is_zero(r: &Reg) -> bool
    ensures { result ≡ is_zero r.now }
{
    *r == zero_reg()
}

// Appends a real register in brackets; nothing for `%r0`.
fn put_bracketed_real(out: &mut String, real: PReg) -> Result<(), AllocError>
    ensures { OnOk result
        (string_bytes out.new ≡ string_bytes out.old ++ bracketed_register (Reg.Real real)) }
{
    if is_zero(&Reg::Real(real)) {
        return Ok(());
    }
    put_real_behind(out, "(", "(%r", real)?;
    put(out, ")")
}

// Appends a virtual register in brackets.
#[inline(never)]
fn put_bracketed_virtual(out: &mut String, num: u32, class: RegClass) -> Result<(), AllocError>
    ensures { OnOk result
        (string_bytes out.new
        ≡ string_bytes out.old ++ bracketed_register (Reg.Virtual num class)) }
{
    put(out, "(")?;
    put_virtual(out, num, class)?;
    put(out, ")")
}

/// Appends a register in brackets; nothing for `%r0`. Its number alone is handed on, so that a copy of it needs no place in memory.
#[inline(always)]
pub fn put_bracketed(out: &mut String, r: &Reg) -> Result<(), AllocError>
    ensures { OnOk result
        (string_bytes out.new ≡ string_bytes out.old ++ bracketed_register r.now) }
{
    match r {
        Reg::Real(real) => put_bracketed_real(out, *real),
        Reg::Virtual { num, class } => put_bracketed_virtual(out, *num, *class),
    }
}

/// A number and the register that is added to it: a shift's amount, or a lane.
#[derive(Clone, Copy)]
pub struct Amount {
    pub imm: u8,
    pub reg: Reg,
}

impl Operand for Amount {
    ghost shown = { λ a. amount_text a.imm a.reg };

    fn put(&self, out: &mut String) -> Result<(), AllocError> {
        put_natural(out, u64::from(self.imm))?;
        put_bracketed(out, &self.reg)
    }
}

/// A sum of an offset, an index and a base, as an indexed address has it.
#[derive(Clone, Copy)]
pub struct Indexed {
    pub offset: SImm20,
    pub index: Reg,
    pub base: Reg,
}

impl Operand for Indexed {
    ghost shown = { λ a. indexed_text a.offset a.index a.base };

    fn put(&self, out: &mut String) -> Result<(), AllocError> {
        put_integer(out, i64::from(self.offset.value()))?;
        put(out, "(")?;
        put_reg(out, &self.index)?;
        put(out, ",")?;
        put_reg(out, &self.base)?;
        put(out, ")")
    }
}

/// An access register.
#[derive(Clone, Copy)]
pub struct AccessRegister(pub u8);

impl Operand for AccessRegister {
    ghost shown = { λ a. access_register_text a.0 };

    fn put(&self, out: &mut String) -> Result<(), AllocError> {
        put(out, "%a")?;
        put_natural(out, u64::from(self.0))
    }
}

/// The name of a condition.
pub fn cond_name(cond: Cond) -> &'static str
    ensures { result.now ≡ cond_text cond }
{
    match cond.bits() {
        1 => "o",
        2 => "h",
        3 => "nle",
        4 => "l",
        5 => "nhe",
        6 => "lh",
        7 => "ne",
        8 => "e",
        9 => "nlh",
        10 => "he",
        11 => "nl",
        12 => "le",
        13 => "nh",
        _ => "no",
    }
}

/// Appends the name of a condition by a literal, which is copied without a call.
#[inline(always)]
pub fn put_cond(out: &mut String, cond: Cond) -> Result<(), AllocError>
    ensures { OnOk result (string_bytes out.new ≡ string_bytes out.old ++ cond_text cond) }
{
    match cond.bits() {
        1 => put(out, "o"),
        2 => put(out, "h"),
        3 => put(out, "nle"),
        4 => put(out, "l"),
        5 => put(out, "nhe"),
        6 => put(out, "lh"),
        7 => put(out, "ne"),
        8 => put(out, "e"),
        9 => put(out, "nlh"),
        10 => put(out, "he"),
        11 => put(out, "nl"),
        12 => put(out, "le"),
        13 => put(out, "nh"),
        _ => put(out, "no"),
    }
}
