//! The registers of a set, as text.
ghost use Rattle.std.specs.Prelude.{◌≡◌, ◌<◌, ◌++◌, ◌∷◌, [], not, true, OnOk, string_bytes, if◌then◌else◌};
ghost use Rattle.s390x_base.specs.Registers.{general, vector};
ghost use Rattle.s390x_base.specs.Sets.{has};
ghost use Rattle.s390x_operands.specs.declared.constraint.Reported.TheVariants.{Clobbers};
ghost use Rattle.s390x_job_fields.specs.Atoms.{real_text};
ghost use Rattle.s390x_listing.specs.Members.{Listed, general_members, members_text, no_member, vector_members};
ghost use Rattle.s390x_listing.specs.Operands.{item_text};

use s390x_base::{PReg, PRegSet, RegClass, gpr_preg, vr_preg};
use s390x_job_fields::number::put_char;
use s390x_text_rows::{put, put_small};
use std::alloc::AllocError;

/// Appends real registers whose values are lost, as an item.
pub fn put_clobbers(out: &mut String, set: &PRegSet) -> Result<(), AllocError>
    ensures { OnOk result
        (string_bytes out.new ≡ string_bytes out.old ++ item_text (Clobbers set.now)) }
{
    put(out, "clobber [")?;
    let is_first = put_general(out, set)?;
    put_vector(out, set, is_first)?;
    put_char(out, ']')
}

// The general registers of a set.
fn put_general(out: &mut String, set: &PRegSet) -> Result<bool, AllocError>
    ensures { Listed true (general_members (has set.now)) (string_bytes out.old)
        (string_bytes out.new) result }
{
    let mut is_first = true;
    for n in 0..16 {
        let register = gpr_preg(n);
        is_first = put_possible_member(out, set.contains(register), register, is_first)?;
    }
    Ok(is_first)
}

// The vector registers of a set. Most have none.
fn put_vector(out: &mut String, set: &PRegSet, is_first: bool) -> Result<(), AllocError>
    ensures { OnOk result
        (string_bytes out.new
        ≡ string_bytes out.old ++ members_text is_first (vector_members (has set.now))) }
{
    if has_vector(set) {
        let _ = put_each_vector(out, set, is_first)?;
    }
    Ok(())
}

// Whether a set has a vector register.
fn has_vector(set: &PRegSet) -> bool
    ensures { result ≡ not (no_member (vector_members (has set.now))) }
{
    let mut found = false;
    for n in 0..32 {
        found |= set.contains(vr_preg(n));
    }
    found
}

// The vector registers of a set, one by one.
fn put_each_vector(out: &mut String, set: &PRegSet, begins_list: bool) -> Result<bool, AllocError>
    ensures { Listed begins_list (vector_members (has set.now)) (string_bytes out.old)
        (string_bytes out.new) result }
{
    let mut is_first = begins_list;
    for n in 0..32 {
        let register = vr_preg(n);
        is_first = put_possible_member(out, set.contains(register), register, is_first)?;
    }
    Ok(is_first)
}

// A register where it is a member.
#[inline(always)]
fn put_possible_member(
    out: &mut String,
    is_member: bool,
    register: PReg,
    is_first: bool,
) -> Result<bool, AllocError>
    ensures { Listed is_first (if is_member then register ∷ [] else []) (string_bytes out.old)
        (string_bytes out.new) result }
{
    if !is_member {
        return Ok(is_first);
    }
    put_member(out, register, is_first)?;
    Ok(false)
}

// A register, behind a comma unless it is the first one. It stands once, not in each turn of the loops, of which few have a member.
#[inline(never)]
fn put_member(out: &mut String, register: PReg, is_first: bool) -> Result<(), AllocError>
    ensures { OnOk result
        (string_bytes out.new ≡ string_bytes out.old ++ members_text is_first (register ∷ [])) }
{
    if is_first {
        put_register(out, register)
    } else {
        put_char(out, ',')?;
        put_register(out, register)
    }
}

// A register, which is written where it stands: a call for it takes a fifth of a list of one.
#[inline(always)]
fn put_register(out: &mut String, register: PReg) -> Result<(), AllocError>
    ensures { OnOk result (string_bytes out.new ≡ string_bytes out.old ++ real_text register) }
{
    match register.class() {
        RegClass::Int => put_general_register(out, register.hw_enc()),
        RegClass::Float => put_vector_register(out, register.hw_enc()),
    }
}

// The general register of a number, whose first digit of two is a one.
#[inline(always)]
fn put_general_register(out: &mut String, n: u8) -> Result<(), AllocError>
    requires { n < 16 }
    ensures { OnOk result
        (string_bytes out.new ≡ string_bytes out.old ++ real_text (general n)) }
{
    if n < 10 {
        put(out, "%r")?;
        return put_char(out, char::from(b'0' + n));
    }
    put(out, "%r1")?;
    put_char(out, char::from(b'0' + (n - 10)))
}

// The vector register of a number.
#[inline(always)]
fn put_vector_register(out: &mut String, n: u8) -> Result<(), AllocError>
    requires { n < 32 }
    ensures { OnOk result
        (string_bytes out.new ≡ string_bytes out.old ++ real_text (vector n)) }
{
    put(out, "%v")?;
    put_small(out, n)
}
