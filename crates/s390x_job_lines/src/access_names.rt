//! The names of loads and stores: of general registers, and of whole vector registers.
ghost use Rattle.std.specs.Prelude.{◌≡◌, ◌<◌, length, map};
ghost use Rattle.s390x_job_lines.specs.Names.{load_name_text, name_in, store_name_text, whole_name_text};

use crate::rows::texts;
use s390x_inst::{
    Direction, LAYOUT_COUNT, LOAD_COUNT, LoadOp, STORE_COUNT, StoreOp, WholeLayout, inst_table,
    vector_table,
};

/// The names by load.
pub const LOAD_NAMES: [&str; LOAD_COUNT] = inst_table!(texts, loads);

/// The names by store.
pub const STORE_NAMES: [&str; STORE_COUNT] = inst_table!(texts, stores);

/// The names of loads of a whole vector register, by layout.
pub const WHOLE_LOAD_NAMES: [&str; LAYOUT_COUNT] = vector_table!(texts, whole_loads);

/// The names of stores of a whole vector register, by layout.
pub const WHOLE_STORE_NAMES: [&str; LAYOUT_COUNT] = vector_table!(texts, whole_stores);

// The name at a place in a list of them.
fn name_in(names: &[&'static str], at: usize) -> &'static str
    requires { at < length names.now }
    ensures { result.now ≡ name_in (map (λ name. name.now) names.now) at }
{
    names[at]
}

/// The name of a load.
pub fn load_name(op: LoadOp) -> &'static str
    ensures { result.now ≡ load_name_text op }
{
    name_in(&LOAD_NAMES, op.place())
}

/// The name of a store.
pub fn store_name(op: StoreOp) -> &'static str
    ensures { result.now ≡ store_name_text op }
{
    name_in(&STORE_NAMES, op.place())
}

/// The name of a load or a store of a whole vector register.
pub fn whole_name(direction: Direction, layout: WholeLayout) -> &'static str
    ensures { result.now ≡ whole_name_text direction layout }
{
    match direction {
        Direction::Load => name_in(&WHOLE_LOAD_NAMES, layout.place()),
        Direction::Store => name_in(&WHOLE_STORE_NAMES, layout.place()),
    }
}
