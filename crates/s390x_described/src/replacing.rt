//! An instruction with other registers.
ghost use Rattle.std.specs.Prelude.{◌≡◌};
ghost use Rattle.s390x_described.specs.Roles.{again_or_none, described_again};
ghost use Rattle.s390x_described.specs.Instructions.{description_of, described_move, described_storage, described_store, described_rest, described_control, described_wide, described_vector};

use crate::replacer::Replacer;
use crate::rows::{again, again_rows, in_role, vector_again, with_roles};
use s390x_inst::{Inst, VecInst, inst_table, vector_table};

// One on vector or float registers.
fn replace_vector<R: Replacer>(inst: &VecInst, r: &mut R) -> VecInst
    ensures value { result
        ≡ (described_again R.role_at (described_vector inst.now) (R.state r.old)).0 }
    ensures after { R.state r.new
        ≡ (described_again R.role_at (described_vector inst.now) (R.state r.old)).1 }
{
    vector_table!(vector_again, inst, r)
}

// One on vector or float registers, as the `Inst` that holds it.
fn replace_wide<R: Replacer>(inst: &Inst, r: &mut R) -> Option<Inst>
    ensures value { result
        ≡ (again_or_none R.role_at (described_wide inst.now) (R.state r.old)).0 }
    ensures after { R.state r.new
        ≡ (again_or_none R.role_at (described_wide inst.now) (R.state r.old)).1 }
{
    match inst {
        Inst::Vector(vector) => Some(Inst::Vector(replace_vector(vector, r))),
        _ => None,
    }
}

// One that has no operand in memory, and is no operator and no move.
fn replace_control<R: Replacer>(inst: &Inst, r: &mut R) -> Option<Inst>
    ensures value { result
        ≡ (again_or_none R.role_at (described_control inst.now) (R.state r.old)).0 }
    ensures after { R.state r.new
        ≡ (again_or_none R.role_at (described_control inst.now) (R.state r.old)).1 }
{
    inst_table!(again, addresses, inst, r, replace_wide(inst, r))
}

// One that is no operator, no move, and no load or store of one register.
fn replace_rest<R: Replacer>(inst: &Inst, r: &mut R) -> Option<Inst>
    ensures value { result
        ≡ (again_or_none R.role_at (described_rest inst.now) (R.state r.old)).0 }
    ensures after { R.state r.new
        ≡ (again_or_none R.role_at (described_rest inst.now) (R.state r.old)).1 }
{
    inst_table!(again, memory, inst, r, replace_control(inst, r))
}

// One that is no operator, no move and no load of one register.
fn replace_store<R: Replacer>(inst: &Inst, r: &mut R) -> Option<Inst>
    ensures value { result
        ≡ (again_or_none R.role_at (described_store inst.now) (R.state r.old)).0 }
    ensures after { R.state r.new
        ≡ (again_or_none R.role_at (described_store inst.now) (R.state r.old)).1 }
{
    match inst.as_store() {
        Some(store) => {
            let rd = r.input(store.rd);
            let mem = r.memory(store.mem);
            Some(store.op.instruction(rd, mem))
        }
        None => replace_rest(inst, r),
    }
}

// One that is neither an operator nor a move.
fn replace_storage<R: Replacer>(inst: &Inst, r: &mut R) -> Option<Inst>
    ensures value { result
        ≡ (again_or_none R.role_at (described_storage inst.now) (R.state r.old)).0 }
    ensures after { R.state r.new
        ≡ (again_or_none R.role_at (described_storage inst.now) (R.state r.old)).1 }
{
    match inst.as_load() {
        Some(load) => {
            let rd = r.output(load.rd);
            let mem = r.memory(load.mem);
            Some(load.op.instruction(rd, mem))
        }
        None => replace_store(inst, r),
    }
}

// One that is no operator.
fn replace_move<R: Replacer>(inst: &Inst, r: &mut R) -> Option<Inst>
    ensures value { result
        ≡ (again_or_none R.role_at (described_move inst.now) (R.state r.old)).0 }
    ensures after { R.state r.new
        ≡ (again_or_none R.role_at (described_move inst.now) (R.state r.old)).1 }
{
    inst_table!(again, moves, inst, r, replace_storage(inst, r))
}

/// The instruction with other registers in its roles; nothing where it has none, or lists or members.
pub fn replace<R: Replacer>(inst: &Inst, r: &mut R) -> Option<Inst>
    ensures value { result
        ≡ (again_or_none R.role_at (description_of inst.now) (R.state r.old)).0 }
    ensures after { R.state r.new
        ≡ (again_or_none R.role_at (description_of inst.now) (R.state r.old)).1 }
{
    inst_table!(again, operators, inst, r, replace_move(inst, r))
}
