//! What the check of causes lets pass can be finished, and what the emitters of operands have to do with it.
ghost use Rattle.std.specs.Prelude.{◌≡◌, ◌+◌, List, Some, None, true, length};
ghost use Rattle.s390x_inst.specs.declared.inst.Inst.{Inst};
ghost use Rattle.s390x_typed_steps.specs.Memory.{MemoryInstruction, memory};
ghost use Rattle.s390x_emit_int.specs.Emitters.{IsEmitted};
ghost use Rattle.s390x_buffer.specs.State.{Constant, fresh_buffer};
ghost use Rattle.s390x_buffer.specs.Finish.{finish_cause};
ghost use Rattle.s390x_inst.specs.declared.state.IsaFlags.{IsaFlags};
ghost use Rattle.s390x_typed_steps.specs.Folding.{folded_trees};
ghost use Rattle.s390x_typed_steps.specs.Tree.{Tree};
ghost use Rattle.s390x_emit_int.specs.Emission.{function_fragments};
ghost use Rattle.s390x_emit_int.specs.Function.{checked_cause};
ghost use Rattle.s390x_emit_int.specs.Fragments.{apply_all};

/// Where the check finds no cause, none keeps the buffer that emission makes from being finished.
pub fn checked_functions_finish()
    ensures { (flags : IsaFlags) (ts : List Tree) (cs : List Constant)
        → checked_cause flags ts cs ≡ None
        → finish_cause
        (apply_all (fresh_buffer (length (folded_trees ts)) cs)
        (function_fragments (length (folded_trees ts) + length cs) 0 (folded_trees ts)))
        ≡ None }
{}

/// An instruction with a memory operand, whose registers may stand there, is what the emitter of its rows' format puts, with the registers or the
/// immediate of a call: so the emitters and `emit` can't drift apart.
pub fn accesses_are_emitted()
    ensures { (i : Inst) (x : MemoryInstruction) → memory i ≡ Some x → x.operands_valid ≡ true
        → IsEmitted x }
{}
