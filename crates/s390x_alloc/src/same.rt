//! Registers that are the same.
ghost use Rattle.std.specs.Prelude.{◌≡◌};
ghost use Rattle.s390x_alloc.specs.Same.{is_reserved, same_class, same_real, same_register};

use s390x_base::{PReg, Reg, RegClass};

/// Whether two classes are the same.
pub fn same_class(a: RegClass, b: RegClass) -> bool
    ensures { result ≡ same_class a b }
{
    match (a, b) {
        (RegClass::Int, RegClass::Int) | (RegClass::Float, RegClass::Float) => true,
        _ => false,
    }
}

/// Whether two real registers are the same.
pub fn same_real(a: PReg, b: PReg) -> bool
    ensures { result ≡ same_real a b }
{
    same_class(a.class(), b.class()) && a.hw_enc() == b.hw_enc()
}

// Whether a register is this real one.
fn is_real(reg: Reg, wanted: PReg) -> bool
    ensures { result ≡ same_register (Reg.Real wanted) reg }
{
    match reg {
        Reg::Real(preg) => same_real(wanted, preg),
        Reg::Virtual { .. } => false,
    }
}

// Whether a register is this virtual one.
fn is_virtual(reg: Reg, wanted: u32, wanted_class: RegClass) -> bool
    ensures { result ≡ same_register (Reg.Virtual wanted wanted_class) reg }
{
    match reg {
        Reg::Real(_) => false,
        Reg::Virtual { num, class } => wanted == num && same_class(wanted_class, class),
    }
}

/// Whether two registers are the same.
pub fn same_register(a: Reg, b: Reg) -> bool
    ensures { result ≡ same_register a b }
{
    match a {
        Reg::Real(a) => is_real(b, a),
        Reg::Virtual { num, class } => is_virtual(b, num, class),
    }
}

/// Whether the register is `%r0`, `%r1` or `%r15`, which no virtual register is given.
pub fn is_reserved(preg: PReg) -> bool
    ensures { result ≡ is_reserved preg }
{
    match preg.class() {
        RegClass::Int => matches!(preg.hw_enc(), 0 | 1 | 15),
        RegClass::Float => false,
    }
}
