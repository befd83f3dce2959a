//! Operands that name a symbol.
ghost use Rattle.std.specs.Prelude.{◌≡◌};
ghost use Rattle.s390x_address.specs.Lowerings.{is_linkable};

use s390x_inst::MemArg;

/// Whether it is a symbol plus an offset which, with 2 added for the place of its field, fits the addend of a relocation.
#[inline(always)]
pub fn is_linkable(operand: &MemArg) -> bool
    ensures { result ≡ is_linkable operand.now }
{
    match operand {
        MemArg::Symbol { offset, .. } => *offset <= 2147483645,
        _ => false,
    }
}
