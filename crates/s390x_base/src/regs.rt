//! Registers, pairs and sets of registers.
ghost use Rattle.std.specs.Prelude.{◌≡◌, ◌<◌, ◌↔◌, IsTrue, MatchOption};
ghost use Rattle.s390x_base.specs.Registers.{general, vector, register_count};
ghost use Rattle.s390x_base.specs.Regs.{class_of, real_of, number_of, is_pair, IsReal};
ghost use Rattle.s390x_base.specs.declared.regs.RegClass.TheVariants.{Float};

use std::marker::Model;

/// The class of a register: the 16 general registers, or the 32 vector registers.
///
/// A vector register below 16 overlaps the float register of its number, which is its leftmost 64 bits.
#[derive(Clone, Copy, PartialEq, Eq, Debug)]
pub enum RegClass {
    Int,
    Float,
}

/// A real register: an Int one with a number below 16, or a Float one with a number below 32.
#[derive(Clone, Copy, PartialEq, Eq, Debug)]
pub struct PReg {
    class: RegClass,
    number: u8,
}

impl Model for PReg {
    ghost use Rattle.std.specs.Prelude.{◌<◌};
    ghost use Rattle.s390x_base.specs.Registers.{RealRegister, register_count};

    ghost Value = { RealRegister };

    ghost view = { λ p. record { class = p.class; number = p.number } };

    ghost invariant = { λ p. p.number < register_count p.class };

    ghost inverse = { λ r. record { class = r.class; number = r.number } };
}

impl PReg {
    /// The number that an instruction encodes.
    pub fn hw_enc(self) -> u8
        ensures value { result ≡ self.number }
        ensures below { result < register_count self.class }
    {
        self.number
    }

    /// The class.
    pub fn class(self) -> RegClass
        ensures { result ≡ self.class }
    {
        self.class
    }
}

/// A register: a real one, or a virtual one that an allocator has yet to place.
#[derive(Clone, Copy, PartialEq, Eq, Debug)]
pub enum Reg {
    Real(PReg),
    Virtual { num: u32, class: RegClass },
}

impl Reg {
    /// The class.
    pub fn class(self) -> RegClass
        ensures { result ≡ class_of self }
    {
        match self {
            Reg::Real(preg) => preg.class(),
            Reg::Virtual { class, .. } => class,
        }
    }

    /// The real register; None exactly for a virtual one.
    pub fn to_real_reg(self) -> Option<PReg>
        ensures value { result ≡ real_of self }
        ensures below { MatchOption result (Unit {0}) (λ p. p.number < register_count p.class) }
    {
        match self {
            Reg::Real(preg) => {
                let _number = preg.hw_enc();
                Some(preg)
            }
            Reg::Virtual { .. } => None,
        }
    }
}

/// A register that an instruction writes. Contracts see it as the register.
#[derive(Clone, Copy, PartialEq, Eq, Debug)]
pub struct Writable<R> {
    reg: R,
}

impl<R> Model for Writable<R> {
    ghost Value = { R };

    ghost view = { λ w. w.reg };

    ghost inverse = { λ r. record { reg = r } };
}

impl<R> Writable<R> {
    /// The register as one that is written.
    pub fn from_reg(reg: R) -> Writable<R>
        ensures { result ≡ reg }
    {
        Writable { reg }
    }

    /// The register.
    pub fn to_reg(self) -> R
        ensures { result ≡ self }
    {
        self.reg
    }
}

/// The Int register of the number.
pub fn gpr(num: u8) -> Reg
    requires { num < 16 }
    ensures { result ≡ Reg.Real (general num) }
{
    Reg::Real(gpr_preg(num))
}

/// The Int register of the number, to be written.
pub fn writable_gpr(num: u8) -> Writable<Reg>
    requires { num < 16 }
    ensures { result ≡ Reg.Real (general num) }
{
    Writable::from_reg(gpr(num))
}

/// The real Int register of the number.
pub fn gpr_preg(num: u8) -> PReg
    requires { num < 16 }
    ensures { result ≡ general num }
{
    PReg {
        class: RegClass::Int,
        number: num,
    }
}

/// The Float register of the number.
pub fn vr(num: u8) -> Reg
    requires { num < 32 }
    ensures { result ≡ Reg.Real (vector num) }
{
    Reg::Real(vr_preg(num))
}

/// The Float register of the number, to be written.
pub fn writable_vr(num: u8) -> Writable<Reg>
    requires { num < 32 }
    ensures { result ≡ Reg.Real (vector num) }
{
    Writable::from_reg(vr(num))
}

/// The real Float register of the number.
pub fn vr_preg(num: u8) -> PReg
    requires { num < 32 }
    ensures { result ≡ vector num }
{
    PReg {
        class: RegClass::Float,
        number: num,
    }
}

/// Whether a real Float register is also a float register: whether its number is below 16.
pub fn is_fpr(r: Reg) -> bool
    requires { IsReal Float r }
    ensures { IsTrue result ↔ (number_of r < 16) }
{
    match r {
        Reg::Real(preg) => preg.hw_enc() < 16,
        Reg::Virtual { .. } => false,
    }
}

/// The stack pointer, `%r15`.
pub fn stack_reg() -> Reg
    ensures { result ≡ Reg.Real (general 15) }
{
    gpr(15)
}

/// The stack pointer, `%r15`, to be written.
pub fn writable_stack_reg() -> Writable<Reg>
    ensures { result ≡ Reg.Real (general 15) }
{
    writable_gpr(15)
}

/// The register that emission may overwrite, `%r1`.
pub fn spilltmp_reg() -> Reg
    ensures { result ≡ Reg.Real (general 1) }
{
    gpr(1)
}

/// The register that emission may overwrite, `%r1`, to be written.
pub fn writable_spilltmp_reg() -> Writable<Reg>
    ensures { result ≡ Reg.Real (general 1) }
{
    writable_gpr(1)
}

/// `%r0`, which counts as zero where it stands as a base or an index.
pub fn zero_reg() -> Reg
    ensures { result ≡ Reg.Real (general 0) }
{
    gpr(0)
}

/// Whether the two are an even-odd pair: both real Int registers, `hi` even, `lo` the next one.
pub fn valid_regpair(hi: Reg, lo: Reg) -> bool
    ensures { result ≡ is_pair hi lo }
{
    match (hi.to_real_reg(), lo.to_real_reg()) {
        (Some(high), Some(low)) => {
            high.class() == RegClass::Int
                && low.class() == RegClass::Int
                && high.hw_enc() % 2 == 0
                && low.hw_enc() == high.hw_enc() + 1
        }
        _ => false,
    }
}

/// A pair of registers that holds one value, its high half in `hi`.
#[derive(Clone, Copy, PartialEq, Eq, Debug)]
pub struct RegPair {
    pub hi: Reg,
    pub lo: Reg,
}

/// A pair of registers that an instruction writes.
#[derive(Clone, Copy, PartialEq, Eq, Debug)]
pub struct WritableRegPair {
    pub hi: Writable<Reg>,
    pub lo: Writable<Reg>,
}

impl WritableRegPair {
    /// The pair.
    pub fn to_regpair(&self) -> RegPair
        ensures { result ≡ record { hi = self.now.hi; lo = self.now.lo } }
    {
        RegPair {
            hi: self.hi.to_reg(),
            lo: self.lo.to_reg(),
        }
    }
}
