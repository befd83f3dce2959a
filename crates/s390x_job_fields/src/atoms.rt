//! Registers, numbers, conditions and trap codes as parts of a line.
ghost use Rattle.std.specs.Prelude.{◌≡◌, ◌++◌, ◌∷◌, [], ◌<◌, OnOk, string_bytes, drop};
ghost use Rattle.s390x_job_fields.specs.Atoms.{real_text, real_register_of, reg_text, reg_of, mask_of, trap_text, trap_of, user_number_of, access_text, access_of, aligned_text, trap_suffix, suffix_of, bool_text, bool_of, name_of};
ghost use Rattle.std.specs.Fmt.{decimal};

use crate::number::{first_byte, natural, natural32, put, put_char, put_natural, second, tail};
use crate::separators::{rest_behind, word};
use s390x_base::{
    Cond, ExternalName, MachMemFlags, PReg, Reg, RegClass, TrapCode, TrapKind, Writable, gpr_preg,
    vr_preg,
};
use std::alloc::AllocError;

/// Appends a real register.
pub fn put_real(out: &mut String, r: PReg) -> Result<(), AllocError>
    ensures { OnOk result (string_bytes out.new ≡ string_bytes out.old ++ real_text r) }
{
    put_char(out, '%')?;
    match r.class() {
        RegClass::Int => put_char(out, 'r')?,
        RegClass::Float => put_char(out, 'v')?,
    }
    put_natural(out, u64::from(r.hw_enc()))
}

/// Appends a register.
pub fn put_reg(out: &mut String, r: Reg) -> Result<(), AllocError>
    ensures { OnOk result (string_bytes out.new ≡ string_bytes out.old ++ reg_text r) }
{
    match r {
        Reg::Real(real) => put_real(out, real),
        Reg::Virtual { num, class } => put_virtual(out, num, class),
    }
}

fn put_virtual(out: &mut String, num: u32, class: RegClass) -> Result<(), AllocError>
    ensures { OnOk result
        (string_bytes out.new ≡ string_bytes out.old ++ reg_text (Reg.Virtual num class)) }
{
    match class {
        RegClass::Int => put(out, "%i")?,
        RegClass::Float => put(out, "%x")?,
    }
    put_natural(out, u64::from(num))
}

/// The real register of a word, some register for any other word.
#[inline(always)]
pub fn real(w: &[u8]) -> PReg
    ensures { result ≡ real_register_of w.now }
{
    let number = natural(tail(w, 2));
    if second(w) == b'v' {
        vr_preg((number % 32) as u8)
    } else {
        gpr_preg((number % 16) as u8)
    }
}

/// The register of a word, some register for any other word.
#[inline(always)]
pub fn reg(w: &[u8]) -> Reg
    ensures { result ≡ reg_of w.now }
{
    let letter = second(w);
    if letter == b'i' {
        Reg::Virtual {
            num: natural32(tail(w, 2)),
            class: RegClass::Int,
        }
    } else if letter == b'x' {
        Reg::Virtual {
            num: natural32(tail(w, 2)),
            class: RegClass::Float,
        }
    } else {
        Reg::Real(real(w))
    }
}

/// The register that a word writes, as one that is written.
#[inline(always)]
pub fn written_reg(w: &[u8]) -> Writable<Reg>
    ensures { result ≡ reg_of w.now }
{
    Writable::from_reg(reg(w))
}

/// The condition of a mask, some condition for any other word.
pub fn cond(w: &[u8]) -> Cond
    ensures { result ≡ mask_of w.now }
{
    let mask = natural(w);
    if 0 < mask && mask < 15 {
        Cond::from_mask(mask as u8)
    } else {
        Cond::from_mask(1)
    }
}

/// Appends a trap code.
pub fn put_trap(out: &mut String, t: TrapCode) -> Result<(), AllocError>
    ensures { OnOk result (string_bytes out.new ≡ string_bytes out.old ++ trap_text t) }
{
    match t.kind() {
        TrapKind::StackOverflow => put(out, "stk_ovf"),
        TrapKind::IntegerOverflow => put(out, "int_ovf"),
        TrapKind::HeapOutOfBounds => put(out, "heap_oob"),
        TrapKind::IntegerDivisionByZero => put(out, "int_divz"),
        TrapKind::BadConversionToInteger => put(out, "bad_toint"),
        TrapKind::User(code) => {
            put(out, "user")?;
            put_natural(out, u64::from(code))
        }
    }
}

/// The trap code of a word, some code for any other word.
pub fn trap(w: &[u8]) -> TrapCode
    ensures { result ≡ trap_of w.now }
{
    if w == b"stk_ovf".as_slice() {
        TrapCode::STACK_OVERFLOW
    } else if w == b"int_ovf".as_slice() {
        TrapCode::INTEGER_OVERFLOW
    } else if w == b"heap_oob".as_slice() {
        TrapCode::HEAP_OUT_OF_BOUNDS
    } else if w == b"int_divz".as_slice() {
        TrapCode::INTEGER_DIVISION_BY_ZERO
    } else if w == b"bad_toint".as_slice() {
        TrapCode::BAD_CONVERSION_TO_INTEGER
    } else {
        user_trap(w)
    }
}

fn user_trap(w: &[u8]) -> TrapCode
    ensures { result ≡ TrapKind.User (user_number_of w.now) }
{
    match TrapCode::user(user_number(w)) {
        Some(code) => code,
        None => TrapCode::STACK_OVERFLOW,
    }
}

fn user_number(w: &[u8]) -> u8
    ensures value { result ≡ user_number_of w.now }
    ensures least { 0 < result }
    ensures greatest { result < 251 }
{
    let number = natural(tail(w, 4));
    if 0 < number && number < 251 {
        number as u8
    } else {
        1
    }
}

fn put_aligned(out: &mut String, aligned: bool) -> Result<(), AllocError>
    ensures { OnOk result (string_bytes out.new ≡ string_bytes out.old ++ aligned_text aligned) }
{
    if aligned {
        put_char(out, 'a')
    } else {
        put_char(out, 'u')
    }
}

fn put_suffix(out: &mut String, t: Option<TrapCode>) -> Result<(), AllocError>
    ensures { OnOk result (string_bytes out.new ≡ string_bytes out.old ++ trap_suffix t) }
{
    match t {
        None => Ok(()),
        Some(code) => {
            put_char(out, '!')?;
            put_trap(out, code)
        }
    }
}

/// Appends what is known of an access.
pub fn put_access(out: &mut String, flags: MachMemFlags) -> Result<(), AllocError>
    ensures { OnOk result (string_bytes out.new ≡ string_bytes out.old ++ access_text flags) }
{
    put_aligned(out, flags.aligned)?;
    put_suffix(out, flags.trap)
}

fn suffix(s: &[u8]) -> Option<TrapCode>
    ensures { result ≡ suffix_of s.now }
{
    if first_byte(s) == b'!' {
        Some(trap(word(s)))
    } else {
        None
    }
}

/// What is known of an access, after one mark.
pub fn access(s: &[u8]) -> MachMemFlags
    ensures { result ≡ access_of s.now }
{
    let known = word(s);
    MachMemFlags {
        aligned: first_byte(known) == b'a',
        trap: suffix(rest_behind(s, known)),
    }
}

/// Appends `true` or `false`.
pub fn put_bool(out: &mut String, b: bool) -> Result<(), AllocError>
    ensures { OnOk result (string_bytes out.new ≡ string_bytes out.old ++ bool_text b) }
{
    if b {
        put(out, "true")
    } else {
        put(out, "false")
    }
}

/// Whether the word is `true`.
pub fn truth(w: &[u8]) -> bool
    ensures { result ≡ bool_of w.now }
{
    w == b"true".as_slice()
}

/// Appends a symbol's name.
pub fn put_name(out: &mut String, name: ExternalName) -> Result<(), AllocError>
    ensures { OnOk result (string_bytes out.new ≡ string_bytes out.old ++ 117 ∷ decimal name.0) }
{
    put_char(out, 'u')?;
    put_natural(out, u64::from(name.0))
}

/// The name of a word, some name for any other word.
pub fn name(w: &[u8]) -> ExternalName
    ensures { result ≡ record { 0 = name_of w.now } }
{
    ExternalName(natural32(tail(w, 1)))
}
