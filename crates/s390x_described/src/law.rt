//! A fact about descriptions.
ghost use Rattle.std.specs.Prelude.{◌≡◌, Some};
ghost use Rattle.s390x_inst.specs.declared.inst.Inst.{Inst};
ghost use Rattle.s390x_described.specs.Instructions.{description_of};
ghost use Rattle.s390x_described.specs.Roles.{Described};

/// An instruction's description, with the roles that it has, is the instruction.
pub fn descriptions_give_instructions()
    ensures { (i : Inst) (d : Described Inst) → description_of i ≡ Some d → d.again d.roles ≡ i }
{}
