//! What the machine rows of an instruction take as an operand.
ghost use Rattle.std.specs.Prelude.{◌≡◌, ◌&&◌, not};
ghost use Rattle.s390x_typed_steps.specs.Operands.{is_numbered, needs_address, is_relative, has_form, with_long_displacement};

use s390x_base::{Reg, RegClass, SImm20};
use s390x_inst::MemArg;
use s390x_typed_steps::MemInstType;

/// Whether it is the real general register of a number.
pub fn is_numbered(number: u8, r: &Reg) -> bool
    ensures { result ≡ is_numbered number r.now }
{
    match r {
        Reg::Real(preg) => preg.class() == RegClass::Int && preg.hw_enc() == number,
        Reg::Virtual { .. } => false,
    }
}

// Whether the rows have no form for an index that is there.
fn lacks_index(mi: MemInstType, index: &Reg) -> bool
    ensures { result ≡ (not mi.have_index && not (is_numbered 0 index.now)) }
{
    !mi.have_index && !is_numbered(0, index)
}

/// Whether the rows have no form for the operand, so that its address has to be loaded first.
#[inline]
pub fn needs_address(mi: MemInstType, mem: &MemArg) -> bool
    ensures { result ≡ needs_address mi mem.now }
{
    match mem {
        MemArg::Label { .. } | MemArg::Constant { .. } => !mi.have_pcrel,
        MemArg::Symbol { flags, .. } => {
            !mi.have_pcrel || (!flags.aligned() && !mi.have_unaligned_pcrel)
        }
        MemArg::BXD12 { index, .. } => lacks_index(mi, index),
        MemArg::BXD20 { index, .. } => !mi.have_d20 || lacks_index(mi, index),
        _ => false,
    }
}

/// Whether the address is relative to the instruction.
pub fn is_relative(mem: &MemArg) -> bool
    ensures { result ≡ is_relative mem.now }
{
    match mem {
        MemArg::Label { .. } | MemArg::Constant { .. } | MemArg::Symbol { .. } => true,
        _ => false,
    }
}

/// Whether the rows have a form for the operand, perhaps after a helper.
pub fn has_form(mi: MemInstType, mem: &MemArg) -> bool
    ensures { result ≡ has_form mi mem.now }
{
    mi.have_d12 || mi.have_d20 || (is_relative(mem) && !needs_address(mi, mem))
}

/// The operand with a displacement of 20 bits in place of one of 12 bits, where the rows have that alone.
pub fn widen(mi: MemInstType, mem: &MemArg) -> MemArg
    ensures { result ≡ with_long_displacement mi mem.now }
{
    match mem {
        MemArg::BXD12 {
            base,
            index,
            disp,
            flags,
        } => {
            if !mi.have_d12 && mi.have_d20 {
                MemArg::BXD20 {
                    base: *base,
                    index: *index,
                    disp: SImm20::from_uimm12(*disp),
                    flags: *flags,
                }
            } else {
                *mem
            }
        }
        _ => *mem,
    }
}
