//! Facts about trees that the crates above cite.
ghost use Rattle.std.specs.Prelude.{◌≡◌, ℕ, false, suc, ◌+◌, ◌<◌, ◌≤◌, List, get_or, slice_get, drop, length, Some, None};
ghost use Rattle.s390x_base.specs.declared.error.EmitError.{EmitError};
ghost use Rattle.s390x_inst.specs.Emission.{Emission};
ghost use Rattle.s390x_inst.specs.declared.inst.Inst.{Inst};
ghost use Rattle.s390x_inst.specs.declared.state.IsaFlags.{IsaFlags};
ghost use Rattle.s390x_typed_steps.specs.Tree.{Tree, empty, leaves, prepend, tree};
ghost use Rattle.s390x_typed_steps.specs.Calls.{call_bodies, tail_bodies};
ghost use Rattle.s390x_base.specs.declared.regs.Reg.{Reg};
ghost use Rattle.s390x_inst.specs.declared.calls.CallInfo.{CallInfo};
ghost use Rattle.s390x_inst.specs.declared.calls.CallInstDest.{CallInstDest};
ghost use Rattle.s390x_typed_steps.specs.Baseline.{tree_for};
ghost use Rattle.s390x_typed_steps.specs.Stack.{nominal_after};
ghost use Rattle.s390x_typed_steps.specs.Causes.{Declared, tree_cause, first_emit_cause, fresh_labels};
ghost use Rattle.s390x_typed_steps.specs.Steps.{Step, function_steps};
ghost use Rattle.s390x_typed_steps.specs.Image.{step_offset};
ghost use Rattle.s390x_typed_steps.specs.Traps.{step_traps, function_traps, first_code};

/// A member's cause comes before those of the members behind it.
pub fn members_in_order()
    ensures { (flags : IsaFlags) (e : Emission) (D : Declared) (n nominal depth : ℕ) (i : Inst)
        (rest : Tree)
        → tree_cause flags D n nominal depth (prepend e i rest)
        ≡ first_emit_cause (tree_cause flags D n nominal depth (prepend e i empty))
        (tree_cause flags D (n + fresh_labels (prepend e i empty)) (nominal_after nominal i)
        depth rest) }
{}

/// On a machine by its flags a member's cause comes before those of the members behind it.
pub fn members_in_order_on_a_machine()
    ensures { (flags : IsaFlags) (e : Emission) (D : Declared) (n nominal depth : ℕ) (i : Inst)
        (rest : Tree)
        → tree_cause flags D n nominal depth (tree_for flags (prepend e i rest))
        ≡ first_emit_cause (tree_cause flags D n nominal depth (tree_for flags (prepend e i empty)))
        (tree_cause flags D (n + fresh_labels (prepend e i empty)) (nominal_after nominal i)
        depth (tree_for flags rest)) }
{}

/// The steps of a call and of a tail call are the same on each machine.
pub fn calls_keep_their_steps()
    ensures calls { (flags : IsaFlags) (e : Emission) (link : Reg) (info : CallInfo)
        → tree_for flags (leaves (call_bodies e link info) empty)
        ≡ leaves (call_bodies e link info) empty }
    ensures tail_calls { (flags : IsaFlags) (e : Emission) (popped : ℕ) (dest : CallInstDest)
        → tree_for flags (leaves (tail_bodies e popped dest) empty)
        ≡ leaves (tail_bodies e popped dest) empty }
{}

/// A machine that has relative loads, stores and compares loads no such operand's address first.
pub fn relative_machines_keep_trees()
    ensures { (flags : IsaFlags) (t : Tree) → flags.no_relative_memory ≡ false
        → tree_for flags t ≡ t }
{}

/// Inside the bytes of a step the table of traps has what the step recorded there: its code where it recorded one, and no code elsewhere.
pub fn codes_of_steps()
    ensures { (ts : List Tree) (k : ℕ) (s : Step) → slice_get (function_steps ts) k ≡ Some s
        → (o : ℕ) → step_offset (function_steps ts) k ≤ o
        → o < step_offset (function_steps ts) (suc k)
        → first_code (function_traps ts) o
        ≡ first_code (step_traps (step_offset (function_steps ts) k) s) o }
{}
