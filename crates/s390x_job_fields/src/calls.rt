//! The parts of calls: printing and reading.
ghost use Rattle.std.specs.Prelude.{◌≡◌, ◌++◌, ◌∷◌, [], OnOk, IfOk, string_bytes};
ghost use Rattle.s390x_job_fields.specs.Calls.{arg_text, arg_of, ret_text, ret_of, use_text, use_of, label_text, label_of, target_text, call_target_of, reloc_text, reloc_of, pair_text, location_text, location_of, result_text, call_result_of, handler_text, handler_of, try_part, try_text, try_of};
ghost use Rattle.s390x_job_fields.specs.Atoms.{real_text, real_register_of};
ghost use Rattle.s390x_job_fields.specs.Marks.{word};

use crate::atoms::{name, put_name, put_real, put_reg, real, reg, written_reg};
use crate::list::{Element, list, put_list};
use crate::number::{
    first_byte, integer64, natural32, put, put_integer, put_natural, second, tail,
};
use crate::operators::value_type;
use crate::separators::{after_word, word};
use crate::word::Word;
use s390x_base::{MachLabel, PReg, Reg, ValueType};
use s390x_inst::{
    ArgPair, CallArgPair, CallInstDest, CallRetPair, RetLocation, RetPair, SymbolReloc,
    TryCallHandler, TryCallInfo,
};
use std::alloc::{AllocError, Global};

/// Appends the target of a call.
pub fn put_target(out: &mut String, target: CallInstDest) -> Result<(), AllocError>
    ensures { OnOk result (string_bytes out.new ≡ string_bytes out.old ++ target_text target) }
{
    match target {
        CallInstDest::Direct { name } => put_name(out, name),
        CallInstDest::Indirect { reg } => put_reg(out, reg),
    }
}

/// The target of a word, some target for any other word.
pub fn target(w: &[u8]) -> CallInstDest
    ensures { result ≡ call_target_of w.now }
{
    if first_byte(w) == b'%' {
        CallInstDest::Indirect { reg: reg(w) }
    } else {
        CallInstDest::Direct { name: name(w) }
    }
}

/// Appends what a relocation names.
pub fn put_reloc(out: &mut String, reloc: SymbolReloc) -> Result<(), AllocError>
    ensures { OnOk result (string_bytes out.new ≡ string_bytes out.old ++ reloc_text reloc) }
{
    match reloc {
        SymbolReloc::Absolute { name, offset } => {
            put(out, "Absolute(")?;
            put_name(out, name)?;
            put(out, ",")?;
            put_integer(out, offset)?;
            put(out, ")")
        }
    }
}

/// What a relocation names, after one mark.
pub fn reloc(s: &[u8]) -> SymbolReloc
    ensures { result ≡ reloc_of s.now }
{
    let t = after_word(s);
    SymbolReloc::Absolute {
        name: name(word(t)),
        offset: integer64(word(after_word(t))),
    }
}

fn put_pair(out: &mut String, vreg: Reg, preg: Reg) -> Result<(), AllocError>
    ensures { OnOk result (string_bytes out.new ≡ string_bytes out.old ++ pair_text vreg preg) }
{
    put_reg(out, vreg)?;
    put(out, "=")?;
    put_reg(out, preg)
}

impl Element for ArgPair {
    ghost spelling = { arg_text };

    ghost reading = { arg_of };

    fn put(self, out: &mut String) -> Result<(), AllocError> {
        put_pair(out, self.vreg.to_reg(), self.preg)
    }

    fn read(s: &[u8]) -> ArgPair {
        ArgPair {
            vreg: written_reg(word(s)),
            preg: reg(word(after_word(s))),
        }
    }
}

impl Element for RetPair {
    ghost spelling = { ret_text };

    ghost reading = { ret_of };

    fn put(self, out: &mut String) -> Result<(), AllocError> {
        put_pair(out, self.vreg, self.preg)
    }

    fn read(s: &[u8]) -> RetPair {
        RetPair {
            vreg: reg(word(s)),
            preg: reg(word(after_word(s))),
        }
    }
}

impl Element for CallArgPair {
    ghost spelling = { use_text };

    ghost reading = { use_of };

    fn put(self, out: &mut String) -> Result<(), AllocError> {
        put_pair(out, self.vreg, self.preg)
    }

    fn read(s: &[u8]) -> CallArgPair {
        CallArgPair {
            vreg: reg(word(s)),
            preg: reg(word(after_word(s))),
        }
    }
}

impl Element for MachLabel {
    ghost spelling = { label_text };

    ghost reading = { label_of };

    fn put(self, out: &mut String) -> Result<(), AllocError> {
        put_natural(out, u64::from(self.0))
    }

    fn read(s: &[u8]) -> MachLabel {
        MachLabel(natural32(word(s)))
    }
}

impl Element for PReg {
    ghost spelling = { real_text };

    ghost reading = { λ s. real_register_of (word s) };

    fn put(self, out: &mut String) -> Result<(), AllocError> {
        put_real(out, self)
    }

    fn read(s: &[u8]) -> PReg {
        real(word(s))
    }
}

fn put_location(out: &mut String, location: RetLocation) -> Result<(), AllocError>
    ensures { OnOk result (string_bytes out.new ≡ string_bytes out.old ++ location_text location) }
{
    match location {
        RetLocation::Reg(reg, ty) => {
            put(out, "=")?;
            put_reg(out, reg)?;
            put(out, ":")?;
            put(out, ty.text())
        }
        RetLocation::Stack(off, ty) => {
            put(out, "=@")?;
            put_integer(out, off)?;
            put(out, ":")?;
            put(out, ty.text())
        }
    }
}

fn location(s: &[u8]) -> RetLocation
    ensures { result ≡ location_of s.now }
{
    if second(s) == b'@' {
        let t = tail(s, 1);
        RetLocation::Stack(integer64(word(t)), value_type(word(after_word(t))))
    } else {
        RetLocation::Reg(reg(word(s)), value_type(word(after_word(s))))
    }
}

impl Element for CallRetPair {
    ghost spelling = { result_text };

    ghost reading = { call_result_of };

    fn put(self, out: &mut String) -> Result<(), AllocError> {
        put_reg(out, self.vreg.to_reg())?;
        put_location(out, self.location)
    }

    fn read(s: &[u8]) -> CallRetPair {
        CallRetPair {
            vreg: written_reg(word(s)),
            location: location(after_word(s)),
        }
    }
}

impl Element for TryCallHandler {
    ghost spelling = { handler_text };

    ghost reading = { handler_of };

    fn put(self, out: &mut String) -> Result<(), AllocError> {
        match self {
            TryCallHandler::Tag { tag, label } => {
                put_natural(out, u64::from(tag))?;
                put(out, ":")?;
                put_natural(out, u64::from(label.0))
            }
            TryCallHandler::Default { label } => {
                put(out, "*:")?;
                put_natural(out, u64::from(label.0))
            }
        }
    }

    fn read(s: &[u8]) -> TryCallHandler {
        let label = MachLabel(natural32(word(after_word(s))));
        if word(s) == b"*".as_slice() {
            TryCallHandler::Default { label }
        } else {
            TryCallHandler::Tag {
                tag: natural32(word(s)),
                label,
            }
        }
    }
}

/// Appends where a call goes on, and its handlers.
pub fn put_try(out: &mut String, info: &Option<TryCallInfo>) -> Result<(), AllocError>
    ensures { OnOk result
        (string_bytes out.new ≡ string_bytes out.old ++ try_text (try_part info.now)) }
{
    match info {
        None => put(out, "-"),
        Some(t) => {
            put_natural(out, u64::from(t.continuation.0))?;
            put_list(out, &t.exception_handlers)
        }
    }
}

/// Where a call goes on, and its handlers, after one mark.
pub fn handlers(alloc: Global, s: &[u8]) -> Result<Option<TryCallInfo>, AllocError>
    ensures { IfOk result (λ t. try_part t ≡ try_of s.now) }
{
    if word(s) == b"-".as_slice() {
        return Ok(None);
    }
    Ok(Some(TryCallInfo {
        continuation: MachLabel(natural32(word(s))),
        exception_handlers: list(alloc, after_word(s))?,
    }))
}
