//! Facts about lines that the crates above cite.
ghost use Rattle.std.specs.Prelude.{◌≡◌};
ghost use Rattle.s390x_inst.specs.declared.inst.Inst.{Inst};
ghost use Rattle.s390x_job_lines.specs.Contents.{contents};
ghost use Rattle.s390x_job_lines.specs.Instructions.{inst_line};

/// Two instructions with the same line hold the same: all their fields are equal, lists by their items and sets by their members.
/// Of a loop the line tells the condition alone.
pub fn lines_tell_instructions()
    ensures { (i j : Inst) → inst_line i ≡ inst_line j → contents i ≡ contents j }
{}
