//! The laws of what emission lets pass, of where branches lead, and of an instruction by itself.
ghost use Rattle.std.specs.Prelude.{◌≡◌, ℕ, ◌<◌, List, [], ◌∷◌, ◌++◌, length, Some, None, slice_get};
ghost use Rattle.s390x_buffer.specs.Constants.{constant_bytes};
ghost use Rattle.s390x_buffer.specs.Finish.{unpatched_bytes};
ghost use Rattle.s390x_buffer.specs.Patch.{patch_all};
ghost use Rattle.s390x_buffer.specs.State.{BufferState, Constant};
ghost use Rattle.s390x_buffer.specs.declared.entries.MachBufferFinalized.{MachBufferFinalized};
ghost use Rattle.s390x_image.specs.Causes.{link_cause};
ghost use Rattle.s390x_image.specs.Symbols.{Symbols};
ghost use Rattle.s390x_inst.specs.Emission.{Emission};
ghost use Rattle.s390x_inst.specs.declared.inst.Inst.{Inst};
ghost use Rattle.s390x_inst.specs.declared.state.IsaFlags.{IsaFlags};
ghost use Rattle.s390x_typed_steps.specs.Causes.{aligns_of};
ghost use Rattle.s390x_typed_steps.specs.Folding.{folded_trees};
ghost use Rattle.s390x_typed_steps.specs.Image.{code};
ghost use Rattle.s390x_typed_steps.specs.Ranges.{BlocksInRange};
ghost use Rattle.s390x_typed_steps.specs.Rows.{LinkEnvironment};
ghost use Rattle.s390x_typed_steps.specs.Steps.{Step, function_steps};
ghost use Rattle.s390x_typed_steps.specs.Tree.{Tree};
ghost use Rattle.s390x_operations.specs.State.{CodeImage};
ghost use Rattle.s390x_machine.specs.CodeAt.{AllCodeAt, IsValidStep};
ghost use Rattle.s390x_machine.specs.Functions.{StandsAsCode, function_layout};
ghost use Rattle.s390x_machine.specs.Layout.{Layout};
ghost use Rattle.s390x_machine.specs.OneStep.{StepHolds};
ghost use Rattle.s390x_emit_int.specs.Function.{IsFinishedCode, checked_cause};
ghost use Rattle.s390x_emit_int.specs.Headline.{linked_environment, linked_image};
ghost use Rattle.s390x_emit_int.specs.Resolve.{UsesWithin};
ghost use Rattle.s390x_emit_laws.specs.Alone.{IsAppended, StandsAlone, alone, emitted_buffer, layout_alone, patched_bytes, placed_offsets};
ghost use Rattle.s390x_emit_laws.specs.Baseline.{LoadsCallsAndLeaves};
ghost use Rattle.s390x_emit_laws.specs.Behind.{StandsBehind, layout_behind};
ghost use Rattle.s390x_emit_laws.specs.Built.{IsBuilt};
ghost use Rattle.s390x_emit_laws.specs.Example.{AdditionStands, JumpIsAppended, JumpStands, LoadIsAppended, TableIsAppended};
ghost use Rattle.s390x_emit_laws.specs.Places.{StepLeads};

/// A step that emission lets pass is built.
pub fn valid_steps_are_built()
    ensures { (L : Layout) (s : Step) → IsValidStep L s → IsBuilt L s }
{}

/// So is each step of a function that no cause refuses, as the ends of its blocks leave them: none is an instruction, an operator, a size or an element without a row.
pub fn functions_are_built()
    ensures { (flags : IsaFlags) (ts : List Tree) (cs : List Constant)
        (environment : LinkEnvironment) (image : CodeImage) → checked_cause flags ts cs ≡ None
        → BlocksInRange ts → environment.aligns ≡ aligns_of cs → (k : ℕ) (s : Step)
        → slice_get (function_steps (folded_trees ts)) k ≡ Some s
        → IsBuilt (function_layout environment (folded_trees ts) image) s }
{}

/// The branches of placed code, and the words of its tables, lead where its layout says.
pub fn placed_branches_lead()
    ensures { (L : Layout) → AllCodeAt L → (k : ℕ) (s : Step) → slice_get L.steps k ≡ Some s
        → StepLeads L k s }
{}

/// So do those of a function's finished code, linked at any base: a block's address is the base plus its start in the table of blocks.
pub fn linked_branches_lead()
    ensures branches { (flags : IsaFlags) (ts : List Tree) (cs : List Constant)
        (f : MachBufferFinalized) (base : ℕ) (symbols : Symbols) → checked_cause flags ts cs ≡ None
        → BlocksInRange ts → IsFinishedCode (folded_trees ts) cs f
        → link_cause f base symbols ≡ None → (k : ℕ) (s : Step)
        → slice_get (function_steps (folded_trees ts)) k ≡ Some s
        → StepLeads
        (function_layout (linked_environment symbols base (folded_trees ts) cs) (folded_trees ts)
        (linked_image f base symbols)) k s }
    ensures starts { (ts : List Tree) (cs : List Constant) (f : MachBufferFinalized)
        (environment : LinkEnvironment) (image : CodeImage) → IsFinishedCode ts cs f → (b : ℕ)
        → b < length ts
        → slice_get f.block_starts.items b
        ≡ Some ((function_layout environment ts image).offsets.block b) }
{}

/// The premises of `each_step_anywhere` of `s390x_machine` can be met with no function around the step: by a jump behind bytes that no typed step has, to a block before it.
pub fn a_jump_stands_anywhere()
    ensures { JumpStands }
{}

/// What `emit` appends to any buffer, with each use of a label patched, are the bytes of the instruction's steps at their places, each distance counted to where its label stands.
/// The table of traps gets those of these steps. Finishing puts the constants behind a buffer's patched bytes.
pub fn emitted_bytes_are_the_steps()
    ensures appended { (off : ℕ → ℕ) (flags : IsaFlags) (e : Emission) (s : BufferState) (i : Inst)
        → IsAppended off flags e s i
        → patched_bytes off (emitted_buffer flags e s i)
        ≡ patched_bytes off s
        ++ code (placed_offsets off s (alone flags e i)) 0 (function_steps (alone flags e i)) }
    ensures traps { (off : ℕ → ℕ) (flags : IsaFlags) (e : Emission) (s : BufferState) (i : Inst)
        (image : CodeImage)
        → (emitted_buffer flags e s i).traps
        ≡ s.traps ++ (layout_behind off flags e s i image).traps }
    ensures finished { (off : ℕ → ℕ) (s : BufferState) → UsesWithin (length s.bytes) s.uses
        → patch_all off s.uses (unpatched_bytes s)
        ≡ patched_bytes off s ++ constant_bytes (length s.bytes) s.constants }
{}

/// Where these bytes stand in memory at an even address, the machine's runs from each of the instruction's steps are as that step says, whatever stands around. The instruction names no
/// block and no symbol by its distance, and a function may have it alone.
pub fn emitted_instructions_run_anywhere()
    ensures { (off : ℕ → ℕ) (flags : IsaFlags) (e : Emission) (s : BufferState) (i : Inst)
        (image : CodeImage) → IsAppended off flags e s i → StandsAlone off flags e s i image
        → (k : ℕ) (x : Step) → slice_get (function_steps (alone flags e i)) k ≡ Some x
        → StepHolds (layout_alone off flags e s i image) k }
{}

/// Where one instruction's linked code stands in memory at an even address, the machine's runs from each of its steps
/// are as that step says; emission lets each step pass, and its distances lead to the symbols.
pub fn linked_instructions_run_anywhere()
    ensures { (environment : LinkEnvironment) (t : Tree) (image : CodeImage)
        → StandsAsCode environment (t ∷ []) image → (k : ℕ) (x : Step)
        → slice_get (function_steps (t ∷ [])) k ≡ Some x
        → StepHolds (function_layout environment (t ∷ []) image) k }
{}

/// Each step of an instruction that `emit` appends to any buffer runs as typed in the image of the whole buffer, where all blocks stand at even offsets: of branches to blocks, of jumps by
/// a table and of accesses of a block too. Each constant that it names by its distance stands on its boundary, and each symbol where the distance leads.
pub fn emitted_instructions_run_in_a_buffer()
    ensures { (off : ℕ → ℕ) (flags : IsaFlags) (e : Emission) (s : BufferState) (i : Inst)
        (image : CodeImage) → IsAppended off flags e s i → StandsBehind off flags e s i image
        → (k : ℕ) (x : Step) → slice_get (function_steps (alone flags e i)) k ≡ Some x
        → StepHolds (layout_behind off flags e s i image) k }
{}

/// The premises can be met: by an addition behind four bytes of a caller's, and by a jump, a jump by a table and a load behind them that name a block before them, in any state of emission.
pub fn instructions_stand_behind_others()
    ensures addition { AdditionStands }
    ensures jump { JumpIsAppended }
    ensures table { TableIsAppended }
    ensures load { LoadIsAppended }
{}

/// The premises of `linked_code_runs_as_typed` of `s390x_emit_int` can also be met by a function on a machine without relative loads, stores and compares: by a run from its block, which
/// loads the address of an operand, the operand, and calls; and by one from the call's return place, which leaves by a tail call.
pub fn premises_are_met_by_calls()
    ensures { LoadsCallsAndLeaves }
{}
