//! Facts about texts and causes that the crates above cite.
ghost use Rattle.std.specs.Prelude.{◌≡◌, ℕ, List, map, All, None};
ghost use Rattle.s390x_inst.specs.Emission.{Emission};
ghost use Rattle.s390x_inst.specs.declared.function.Block.{Block};
ghost use Rattle.s390x_inst.specs.declared.state.IsaFlags.{IsaFlags};
ghost use Rattle.s390x_typed_steps.specs.Causes.{Declared, blocks_cause};
ghost use Rattle.s390x_text.specs.Laws.{AllHaveTexts, HasTextsInOrder, tree_of_block};
ghost use Rattle.s390x_text.specs.Rows.{RowsAgreeExactly, RowsAgreeInOrder};

/// Where emission has no cause to refuse an instruction of the blocks, from a state in which no arguments are allocated and none
/// are left behind by a call, each instruction has a text in the state behind those before it in its block, so that
/// `pretty_print_inst` answers that text or wants memory, and this state is the one in which emission meets it, but for the stack
/// map, which no text shows. So all texts of a block, in order, aren't refused either.
pub fn valid_blocks_have_texts()
    ensures texts { (flags : IsaFlags) (D : Declared) (n : ℕ) (e : Emission) (blocks : List Block)
        → e.nominal ≡ 0 → e.outgoing ≡ 0
        → blocks_cause flags D n (map (tree_of_block flags e) blocks) ≡ None
        → All (AllHaveTexts flags e) blocks }
    ensures in_order { (flags : IsaFlags) (D : Declared) (n : ℕ) (e : Emission)
        (blocks : List Block) → e.nominal ≡ 0 → e.outgoing ≡ 0
        → blocks_cause flags D n (map (tree_of_block flags e) blocks) ≡ None
        → All (HasTextsInOrder flags e) blocks }
{}

/// An instruction that is neither a loop nor a call has no row for its text exactly where it has none for its bytes: on vectors too, and of those that go elsewhere none lacks one.
/// A loop, a call with the loads of its results or a tail call is refused a text for want of a row only where a step of it has none, or loops are nested too deep, and it has no text there.
pub fn texts_have_rows_as_bytes()
    ensures exactly { RowsAgreeExactly }
    ensures in_order { RowsAgreeInOrder }
{}
