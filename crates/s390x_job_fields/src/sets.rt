//! Sets of registers: their members in order, and a set of given members.
ghost use Rattle.std.specs.Prelude.{◌≡◌, ◌++◌, ◌∷◌, [], IfOk, OnOk, if◌then◌else◌};
ghost use Rattle.s390x_base.specs.Registers.{RealRegister, general, vector};
ghost use Rattle.s390x_base.specs.Sets.{has};
ghost use Rattle.s390x_job_fields.specs.Sets.{members_of, members_below, is_in};

use s390x_base::{PReg, PRegSet, gpr_preg, vr_preg};
use std::alloc::{AllocError, Global};

fn push_general(v: &mut Vec<PReg>, set: PRegSet) -> Result<(), AllocError>
    ensures { OnOk result (v.new.items ≡ v.old.items ++ members_below general (has set) 16) }
{
    for n in 0..16 {
        push_if(v, set, gpr_preg(n))?;
    }
    Ok(())
}

fn push_vector(v: &mut Vec<PReg>, set: PRegSet) -> Result<(), AllocError>
    ensures { OnOk result (v.new.items ≡ v.old.items ++ members_below vector (has set) 32) }
{
    for n in 0..32 {
        push_if(v, set, vr_preg(n))?;
    }
    Ok(())
}

fn push_if(v: &mut Vec<PReg>, set: PRegSet, r: PReg) -> Result<(), AllocError>
    ensures { OnOk result (v.new.items ≡ v.old.items ++ (if has set r then r ∷ [] else [])) }
{
    if set.contains(r) {
        v.push(r)?;
    }
    Ok(())
}

/// The members, general registers first, numbers rising.
pub fn set_members(alloc: Global, set: PRegSet) -> Result<Vec<PReg>, AllocError>
    ensures { IfOk result (λ v. v.items ≡ members_of (has set)) }
{
    let mut v = Vec::new(alloc);
    push_general(&mut v, set)?;
    push_vector(&mut v, set)?;
    Ok(v)
}

/// The set of these members.
pub fn set_of(rs: &[PReg]) -> PRegSet
    ensures { (r : RealRegister) → has result r ≡ is_in rs.now r }
{
    let mut set = PRegSet::empty();
    for r in rs {
        set.add(*r);
    }
    set
}
