//! What stands in the unused places of a list of instructions, and their debug text.
use crate::inst::Inst;
use std::fmt;

impl Default for Inst {
    ghost use Rattle.std.specs.Prelude.{◌≡◌};
    ghost use Rattle.s390x_inst.specs.declared.inst.Inst.TheVariants.{Nop0};

    ghost is_default = { λ inst. inst ≡ Nop0 };

    /// Nothing: what stands in the unused places of a list.
    fn default() -> Inst {
        Inst::Nop0
    }
}

impl fmt::Debug for Inst {
    fn fmt<W: fmt::Write>(&self, f: &mut fmt::Formatter<W>) -> fmt::Result {
        f.write_str("Inst")
    }
}
