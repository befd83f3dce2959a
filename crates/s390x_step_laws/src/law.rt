//! The laws of a function's typed steps beside its instructions as they are given.
ghost use Rattle.s390x_step_laws.specs.Available.{AccessesAreAllowed, SinglesAreAllowed};
ghost use Rattle.s390x_step_laws.specs.Given.{BlocksBeginAsGiven, FunctionsDoAsGiven, InstructionsDoAsGiven};
ghost use Rattle.s390x_step_laws.specs.Relative.{FunctionsAccessNothingRelative, InstructionsAccessNothingRelative};

/// The typed steps of a function are those of its instructions as they are given, one by one, and its blocks begin at the same numbers. A step does what the given
/// one does: only the need of `%r1` and the alignment of an operand can differ, where a machine without rows relative to the instruction has the operand's address
/// loaded first. So are the steps of an instruction by itself, which `emit` appends.
pub fn functions_do_as_given()
    ensures steps { FunctionsDoAsGiven }
    ensures numbers { BlocksBeginAsGiven }
    ensures instructions { InstructionsDoAsGiven }
{}

/// On a machine that lacks the loads, stores and comparisons relative to the instruction no step of a function has one, and none of an instruction by itself, which
/// `emit` appends: of an operand that is relative they take the address alone.
pub fn no_relative_access_without_rows()
    ensures functions { FunctionsAccessNothingRelative }
    ensures instructions { InstructionsAccessNothingRelative }
{}

/// An instruction that is available by the flags needs no facility that the flags lack: that of its row in the table of machine rows is the one that is asked for,
/// or the base. So it is where it is one machine instruction on registers and immediates, and for each row that an instruction with an operand in memory may have.
pub fn available_instructions_need_no_more()
    ensures singles { SinglesAreAllowed }
    ensures accesses { AccessesAreAllowed }
{}
