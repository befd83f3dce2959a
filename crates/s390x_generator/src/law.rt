//! That emission and linking have no cause to refuse a generated function.
ghost use Rattle.std.specs.Prelude.{◌≡◌, ◌≤◌, ◌*◌, ℕ, [], None, length};
ghost use Rattle.s390x_inst.specs.Emission.{Emission};
ghost use Rattle.s390x_inst.specs.declared.state.IsaFlags.{IsaFlags};
ghost use Rattle.s390x_typed_steps.specs.Causes.{blocks_cause, declared_of};
ghost use Rattle.s390x_typed_steps.specs.Relocs.{function_relocs};
ghost use Rattle.s390x_typed_steps.specs.Sizes.{blocks_size};
ghost use Rattle.s390x_generator.specs.Generator.{generated_trees, most_blocks};

/// A generated function of at most 100000 blocks: it has that many, no instruction has a cause of refusal, whatever facilities the
/// machine has, a block has at most 24 bytes, and nothing is left for linking.
pub fn generated_functions_are_valid()
    ensures count { (e : Emission) (n start : ℕ) → length (generated_trees e n start) ≡ n }
    ensures valid { (flags : IsaFlags) (e : Emission) (n start : ℕ) → n ≤ most_blocks
        → blocks_cause flags (declared_of (generated_trees e n start) []) n
        (generated_trees e n start) ≡ None }
    ensures size { (e : Emission) (n start : ℕ) → blocks_size (generated_trees e n start) ≤ 24 * n }
    ensures relocs { (e : Emission) (n start : ℕ)
        → function_relocs (generated_trees e n start) ≡ [] }
{}
