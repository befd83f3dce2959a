//! The laws of the typed steps and the machine.
ghost use Rattle.std.specs.Prelude.{◌≡◌, ℕ, List, length, Option, Some, None, is_some, true, IsTrue, slice_get};
ghost use Rattle.s390x_inst.specs.declared.state.IsaFlags.{IsaFlags};
ghost use Rattle.s390x_typed_steps.specs.Rows.{LinkEnvironment};
ghost use Rattle.s390x_typed_steps.specs.Tree.{Tree};
ghost use Rattle.s390x_machine.specs.Functions.{function_layout, StandsAsCode};
ghost use Rattle.s390x_typed_steps.specs.Causes.{blocks_cause};
ghost use Rattle.s390x_typed_steps.specs.Folding.{folded_trees};
ghost use Rattle.s390x_typed_steps.specs.Ranges.{OperandInRange, BlocksInRange};
ghost use Rattle.s390x_typed_steps.specs.Steps.{Step, Plain, LoadedStep, function_steps};
ghost use Rattle.s390x_machine.specs.Layout.{Layout};
ghost use Rattle.s390x_machine.specs.CodeAt.{AllCodeAt, IsBlock, IsFoldedRight, IsValidStep, IsValidMemory, StepAt, ValidMemoryOr};
ghost use Rattle.s390x_machine.specs.Match.{EveryRun, EveryReturnRun, EveryBlockRun};
ghost use Rattle.s390x_machine.specs.OneStep.{StepRuns, StepHolds};
ghost use Rattle.s390x_machine.specs.Fetch.{Fetched, Fetches};
ghost use Rattle.s390x_machine.specs.Semantics.{semantics_of};
ghost use Rattle.s390x_format.specs.Fetch.{IsFetch};
ghost use Rattle.s390x_format.specs.declared.decoder.Decoded.{Decoded};
ghost use Rattle.s390x_operations.specs.State.{CodeImage, Memory};
ghost use Rattle.s390x_machine.specs.Example.{LoopRuns};
ghost use Rattle.s390x_machine.specs.RelativeExample.{RelativeRuns};
ghost use Rattle.s390x_inst.specs.declared.args.MemArg.{MemArg};
ghost use Rattle.s390x_inst.specs.declared.inst.Inst.{Inst};
ghost use Rattle.s390x_typed_steps.specs.Causes.{is_helped, boundary};
ghost use Rattle.s390x_typed_steps.specs.Operands.{finalized_operand, has_form, operand_general, offset_fits};
ghost use Rattle.s390x_typed_steps.specs.declared.mem_inst_type.MemInstType.{MemInstType};
ghost use Rattle.s390x_machine.specs.Storage.{operand_address, needs_scratch, operand_step};
ghost use Rattle.s390x_machine.specs.Aligned.{IsOwn, OwnOperand, IsOnBoundary, relative_row_of, StepAccesses, NeverMisaligned};
ghost use Rattle.s390x_machine.specs.StepKinds.{performed_in_memory};
ghost use Rattle.s390x_typed_steps.specs.Memory.{MemoryInstruction, memory, loaded_memory, type_of};
ghost use Rattle.s390x_typed_steps.specs.Storage.{relative_bytes};
ghost use Rattle.s390x_machine.specs.Helpers.{IsAddressable, HelpersKeep, TakesOperand};

/// Wherever a step's bytes lie in an image at their address, every machine run from there is allowed by at most that step, or begins with a group of transitions that is that step.
pub fn each_step()
    ensures { (L : Layout) → AllCodeAt L → (k : ℕ) (s : Step) → slice_get L.steps k ≡ Some s
        → StepHolds L k }
{}

/// Wherever a step's bytes lie in an image at their address, every machine run from there is allowed by at most that
/// step, or begins with a group of transitions that is that step, with all that it stores and every stop.
pub fn each_step_tells()
    ensures { (L : Layout) → AllCodeAt L → (k : ℕ) (s : Step) → slice_get L.steps k ≡ Some s
        → StepRuns L k }
{}

/// So does a step whose own bytes stand at its place, whatever stands around them: of other steps and of blocks the places alone are told. Each step of placed code stands so.
pub fn each_step_anywhere()
    ensures holds { (L : Layout) (k : ℕ) (s : Step) → StepAt L k s → StepHolds L k }
    ensures tells { (L : Layout) (k : ℕ) (s : Step) → StepAt L k s → StepRuns L k }
    ensures placed { (L : Layout) → AllCodeAt L → (k : ℕ) (s : Step) → slice_get L.steps k ≡ Some s
        → StepAt L k s }
{}

/// Where an image begins with a function's code, and emission lets each step pass, the premises hold of the function's layout.
pub fn code_is_placed()
    ensures { (environment : LinkEnvironment) (ts : List Tree) (image : CodeImage)
        → StandsAsCode environment ts image → AllCodeAt (function_layout environment ts image) }
{}

/// Emission lets each step pass of a function that has no cause of refusal, with n labels in use.
pub fn checked_steps_are_valid()
    ensures { (flags : IsaFlags) (environment : LinkEnvironment) (ts : List Tree) (n : ℕ)
        (image : CodeImage)
        → blocks_cause flags (record { blocks = length ts; aligns = environment.aligns }) n ts
        ≡ None → BlocksInRange ts → (k : ℕ) (s : Step) → slice_get (function_steps ts) k ≡ Some s
        → IsValidStep (function_layout environment ts image) s }
{}

/// Emission lets each of the steps pass that the ends of blocks left of a function without a cause of refusal, and
/// each that has lost branches leads on.
pub fn folded_steps_are_valid()
    ensures valid { (flags : IsaFlags) (environment : LinkEnvironment) (ts : List Tree) (n : ℕ)
        (image : CodeImage)
        → blocks_cause flags (record { blocks = length ts; aligns = environment.aligns }) n ts
        ≡ None → BlocksInRange ts → (k : ℕ) (s : Step)
        → slice_get (function_steps (folded_trees ts)) k ≡ Some s
        → IsValidStep (function_layout environment (folded_trees ts) image) s }
    ensures folded { (environment : LinkEnvironment) (ts : List Tree) (image : CodeImage)
        → BlocksInRange ts → (k : ℕ) (s : Step)
        → slice_get (function_steps (folded_trees ts)) k ≡ Some s
        → IsFoldedRight (function_layout environment (folded_trees ts) image) k s }
{}

/// Every machine run from a step's place, in every state in which the image lies in memory and under every list of others' writes, is allowed by the typed
/// steps.
pub fn every_run()
    ensures { (L : Layout) → AllCodeAt L → (k : ℕ) → EveryRun L k }
{}

/// Every machine run from where a call returns to, in every state in which the image lies in memory and under every
/// list of others' writes, is allowed by the typed steps.
pub fn every_return_run()
    ensures { (L : Layout) → AllCodeAt L → (k : ℕ) → EveryReturnRun L k }
{}

/// Every machine run from the start of a block, in every state in which the image lies in memory and under every list
/// of others' writes, is allowed by the typed steps.
pub fn every_block_run()
    ensures { (L : Layout) → AllCodeAt L → (b : ℕ) → IsBlock L b → EveryBlockRun L b }
{}

/// What stands at a place is one thing: no bytes belong to two machine rows.
pub fn one_instruction()
    ensures { (m : Memory) (p : ℕ) (f g : Fetched) → Fetches m p f → Fetches m p g → f ≡ g }
{}

/// Each row of the table has a meaning.
pub fn each_row_has_semantics()
    ensures { (bytes : List ℕ) (d : Decoded) → IsFetch bytes d
        → is_some (semantics_of d.row.opcode) ≡ true }
{}

/// The premises can be met: the code of a function of two blocks in memory, and a run of it that goes round a loop, leaves it and returns.
pub fn a_loop_runs()
    ensures { LoopRuns }
{}

/// They can also be met with a constant and a symbol that are named by their distances, and a trap: the code in memory, and a run that loads both and stops
/// with the trap's code.
pub fn a_constant_is_loaded()
    ensures { RelativeRuns }
{}

/// Helpers come before an access exactly where its step needs `%r1`.
pub fn helpers_where_needed()
    ensures { (mi : MemInstType) (m : MemArg) → IsTrue (operand_general m) → IsTrue (offset_fits m)
        → is_helped (finalized_operand mi m).helpers ≡ needs_scratch mi m }
{}

/// Helpers change nothing but `%r1`, and behind them the operand of the access has the address that the given one had before them.
pub fn helpers_keep_the_address()
    ensures { (L : Layout) (mi : MemInstType) (m : MemArg) → IsAddressable L mi m
        → HelpersKeep L mi m }
{}

/// The operand of each step that accesses memory is one whose address helpers keep.
pub fn operands_are_addressable()
    ensures whole { (L : Layout) → AllCodeAt L → (k : ℕ) (i : Inst) (x : MemoryInstruction)
        → slice_get L.steps k ≡ Some (Plain i) → memory i ≡ Some x
        → IsAddressable L (type_of x.form x.accesses) x.operand }
    ensures loaded { (L : Layout) → AllCodeAt L → (k : ℕ) (i : Inst) (x : MemoryInstruction)
        → slice_get L.steps k ≡ Some (LoadedStep i) → loaded_memory i ≡ Some x
        → IsAddressable L (type_of x.form x.accesses) x.operand }
{}

/// Where the rows have a form for an operand, the one that stands in the access is of a form that they take, and its displacement lies in its range.
pub fn access_takes_its_operand()
    ensures { (mi : MemInstType) (m : MemArg) → IsTrue (has_form mi m) → IsTrue (operand_general m)
        → IsTrue (offset_fits m) → OperandInRange m
        → TakesOperand mi (finalized_operand mi m).operand
        × OperandInRange (finalized_operand mi m).operand }
{}

/// A block or a constant that an instruction names relative to itself stands on the boundary that emission asks of it.
pub fn relative_accesses_are_aligned()
    ensures { (L : Layout) → AllCodeAt L → (x : MemoryInstruction) → IsValidMemory L x
        → IsOwn x.operand → IsOnBoundary (operand_address L x.operand) (boundary x) }
{}

/// An access that has a row relative to the instruction reads or stores as many bytes as are told of that row's opcode.
pub fn relative_rows_access_their_bytes()
    ensures { (i : Inst) (opcode : ℕ) → relative_row_of (memory i) ≡ Some opcode
        → StepAccesses (operand_step i) (relative_bytes opcode) }
{}

/// The typed step of an access that has a row relative to the instruction never stops by alignment where it names a block or a constant.
pub fn relative_accesses_never_misalign()
    ensures { (L : Layout) → AllCodeAt L → (i : Inst) (opcode : ℕ)
        → relative_row_of (memory i) ≡ Some opcode → ValidMemoryOr L (memory i) ⊥
        → OwnOperand (memory i) → NeverMisaligned (performed_in_memory L i) }
{}
