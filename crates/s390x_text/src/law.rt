//! Facts about texts that the crates above cite.
ghost use Rattle.std.specs.Prelude.{Bool};
ghost use Rattle.s390x_inst.specs.Emission.{Emission};
ghost use Rattle.s390x_inst.specs.declared.inst.Inst.{Inst};
ghost use Rattle.s390x_text.specs.Agreement.{RowsAgree};

/// A text has no row exactly where emission has none, for instructions on general registers, on immediates and on operands in memory, whether the machine has
/// accesses relative to the instruction or lacks them.
pub fn rows_agree()
    ensures { (has : Bool) (e : Emission) (i : Inst) → RowsAgree has e i }
{}
