//! The theorem about emitted and linked code.
ghost use Rattle.std.specs.Prelude.{◌≡◌, ℕ, List, None};
ghost use Rattle.s390x_buffer.specs.State.{Constant};
ghost use Rattle.s390x_buffer.specs.declared.entries.MachBufferFinalized.{MachBufferFinalized};
ghost use Rattle.s390x_image.specs.Causes.{link_cause};
ghost use Rattle.s390x_machine.specs.CodeAt.{AllCodeAt};
ghost use Rattle.s390x_machine.specs.Functions.{function_layout};
ghost use Rattle.s390x_image.specs.Symbols.{Symbols};
ghost use Rattle.s390x_typed_steps.specs.Folding.{folded_trees};
ghost use Rattle.s390x_typed_steps.specs.Ranges.{BlocksInRange};
ghost use Rattle.s390x_inst.specs.declared.state.IsaFlags.{IsaFlags};
ghost use Rattle.s390x_typed_steps.specs.Tree.{Tree};
ghost use Rattle.s390x_emit_int.specs.Function.{checked_cause, IsFinishedCode};
ghost use Rattle.s390x_emit_int.specs.Headline.{linked_environment, linked_image, RunsAsTyped};
ghost use Rattle.s390x_emit_int.specs.Example.{LinkedLoopRuns, LinkedTrapRuns, LinkedCallStands};

/// Where emission finds no cause in the blocks as they are given, and linking none, the linked code at the base is that of the blocks as their ends have folded
/// them: each step's bytes stand at its offset with its entries in the table of traps and no others, as emission has checked it, and blocks, constants and
/// symbols stand where the layout says.
pub fn linked_code_is_placed()
    ensures { (flags : IsaFlags) (ts : List Tree) (cs : List Constant) (f : MachBufferFinalized)
        (base : ℕ) (symbols : Symbols) → checked_cause flags ts cs ≡ None → BlocksInRange ts
        → IsFinishedCode (folded_trees ts) cs f → link_cause f base symbols ≡ None
        → AllCodeAt
        (function_layout (linked_environment symbols base (folded_trees ts) cs) (folded_trees ts)
        (linked_image f base symbols)) }
{}

/// Where emission finds no cause and linking none, a machine that fetches the linked code at the base does only what the typed
/// instructions allow, from any block's start and from any call's return place, in every state in which the code lies in memory,
/// and under every list of others' writes, until it returns, calls, stops by a trap or at a `Debugtrap`, or a typed step is wrong.
pub fn linked_code_runs_as_typed()
    ensures { (flags : IsaFlags) (ts : List Tree) (cs : List Constant) (f : MachBufferFinalized)
        (base : ℕ) (symbols : Symbols) → checked_cause flags ts cs ≡ None → BlocksInRange ts
        → IsFinishedCode (folded_trees ts) cs f → link_cause f base symbols ≡ None
        → RunsAsTyped symbols (folded_trees ts) cs (linked_image f base symbols) }
{}

/// The premises can be met: by the finished code of a function of two blocks, linked at 4096 and lying in memory there, of which the
/// machine has a run that goes round a loop, leaves it and returns; by that of a function with a constant, a symbol and a trap, of
/// which it has a run that loads the constant and the symbol's address, and ends by the trap; and by that of a function with a call,
/// which is its first step.
pub fn premises_can_be_met()
    ensures goes_round { LinkedLoopRuns }
    ensures stops { LinkedTrapRuns }
    ensures calls { LinkedCallStands }
{}
