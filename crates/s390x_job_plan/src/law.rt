//! Texts of planned jobs, and what lines name of registers.
ghost use Rattle.s390x_job_plan.specs.Example.{NoBlocksAreText, SomeLinesAreText};
ghost use Rattle.s390x_job_plan.specs.Registers.{DescriptionsNameEachRegister};

/// Some lines are the text of a planned job: a job without blocks, and a plan of one block with a pair, a move and an instruction.
pub fn some_lines_are_text()
    ensures { SomeLinesAreText }
{}

/// A job and a plan without blocks have a text, and nothing else has it.
pub fn no_blocks_are_text()
    ensures { NoBlocksAreText }
{}

/// An instruction's line names each register of its description, by which operands are reported and assigned, and in the order
/// of the fields; and no other register but the ends of a range, where a return leads, and what stands beside a list.
pub fn descriptions_name_each_register()
    ensures { DescriptionsNameEachRegister }
{}
