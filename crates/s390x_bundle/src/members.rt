//! Functions of a text as members.
ghost use Rattle.std.specs.Prelude.{◌≡◌, IfOk, map};
ghost use Rattle.s390x_bundle.specs.Members.{member_of};

use crate::member::Member;
use s390x_job_bundle::NamedJob;
use std::alloc::{AllocError, Global};

// The function as a member of a bundle.
fn member(function: NamedJob) -> Member
    ensures { result ≡ member_of function }
{
    let job = function.job;
    Member {
        name: function.name,
        function: job.function,
        info: job.info,
        state: job.state,
        symbols: job.symbols,
    }
}

/// The functions as members of a bundle; an error where there is no memory for their list.
pub fn members_of(alloc: Global, functions: Vec<NamedJob>) -> Result<Vec<Member>, AllocError>
    ensures { IfOk result (λ members. members.items ≡ map member_of functions.items) }
{
    functions.into_iter().map(member).collect(alloc)
}
