//! Registers of a text, whose numbers have at most two digits.
ghost use Rattle.std.specs.Prelude.{◌≡◌, ◌++◌, codes, OnOk, string_bytes};
ghost use Rattle.s390x_job_fields.specs.Atoms.{real_text, reg_text};

use crate::piece::{put, put_natural, put_small};
use s390x_base::{PReg, Reg, RegClass};
use std::alloc::AllocError;

/// Appends a real register.
pub fn put_real(out: &mut String, r: PReg) -> Result<(), AllocError>
    ensures { OnOk result (string_bytes out.new ≡ string_bytes out.old ++ real_text r) }
{
    match r.class() {
        RegClass::Int => put(out, "%r")?,
        RegClass::Float => put(out, "%v")?,
    }
    put_small(out, r.hw_enc())
}

/// Appends a virtual register.
pub fn put_virtual(out: &mut String, num: u32, class: RegClass) -> Result<(), AllocError>
    ensures { OnOk result
        (string_bytes out.new ≡ string_bytes out.old ++ reg_text (Reg.Virtual num class)) }
{
    match class {
        RegClass::Int => put(out, "%i")?,
        RegClass::Float => put(out, "%x")?,
    }
    put_natural(out, u64::from(num))
}

// Appends a text and a real register behind it, whose name is taken apart.
#[cold]
fn put_text_and_real(out: &mut String, text: &str, r: PReg) -> Result<(), AllocError>
    ensures { OnOk result
        (string_bytes out.new ≡ string_bytes out.old ++ (text.now ++ real_text r)) }
{
    put(out, text)?;
    put_real(out, r)
}

/// Appends a text and a real register behind it. `general` is the text and what a general register begins with, so that both are copied at once.
#[inline(always)]
pub fn put_real_behind(
    out: &mut String,
    text: &str,
    general: &str,
    r: PReg,
) -> Result<(), AllocError>
    requires { general.now ≡ text.now ++ codes "%r" }
    ensures { OnOk result
        (string_bytes out.new ≡ string_bytes out.old ++ (text.now ++ real_text r)) }
{
    match r.class() {
        RegClass::Int => {
            put(out, general)?;
            put_small(out, r.hw_enc())
        }
        RegClass::Float => put_text_and_real(out, text, r),
    }
}

// Likewise, of a vector register.
#[inline(always)]
fn put_real_vector_behind(
    out: &mut String,
    text: &str,
    vector: &str,
    r: PReg,
) -> Result<(), AllocError>
    requires { vector.now ≡ text.now ++ codes "%v" }
    ensures { OnOk result
        (string_bytes out.new ≡ string_bytes out.old ++ (text.now ++ real_text r)) }
{
    match r.class() {
        RegClass::Int => put_text_and_real(out, text, r),
        RegClass::Float => {
            put(out, vector)?;
            put_small(out, r.hw_enc())
        }
    }
}

// Appends a text and a virtual register behind it.
#[cold]
fn put_virtual_behind(
    out: &mut String,
    text: &str,
    num: u32,
    class: RegClass,
) -> Result<(), AllocError>
    ensures { OnOk result
        (string_bytes out.new
        ≡ string_bytes out.old ++ (text.now ++ reg_text (Reg.Virtual num class))) }
{
    put(out, text)?;
    put_virtual(out, num, class)
}

/// Appends a text and a register behind it, likewise.
#[inline(always)]
pub fn put_reg_behind(
    out: &mut String,
    text: &str,
    general: &str,
    r: &Reg,
) -> Result<(), AllocError>
    requires { general.now ≡ text.now ++ codes "%r" }
    ensures { OnOk result
        (string_bytes out.new ≡ string_bytes out.old ++ (text.now ++ reg_text r.now)) }
{
    match r {
        Reg::Real(real) => put_real_behind(out, text, general, *real),
        Reg::Virtual { num, class } => put_virtual_behind(out, text, *num, *class),
    }
}

/// Appends a text and a register behind it. `vector` is the text and what a vector register begins with.
#[inline(always)]
pub fn put_vector_behind(
    out: &mut String,
    text: &str,
    vector: &str,
    r: &Reg,
) -> Result<(), AllocError>
    requires { vector.now ≡ text.now ++ codes "%v" }
    ensures { OnOk result
        (string_bytes out.new ≡ string_bytes out.old ++ (text.now ++ reg_text r.now)) }
{
    match r {
        Reg::Real(real) => put_real_vector_behind(out, text, vector, *real),
        Reg::Virtual { num, class } => put_virtual_behind(out, text, *num, *class),
    }
}

/// Appends a register, which is read where it stands.
#[inline(always)]
pub fn put_reg(out: &mut String, r: &Reg) -> Result<(), AllocError>
    ensures { OnOk result (string_bytes out.new ≡ string_bytes out.old ++ reg_text r.now) }
{
    match r {
        Reg::Real(real) => put_real(out, *real),
        Reg::Virtual { num, class } => put_virtual(out, *num, *class),
    }
}
