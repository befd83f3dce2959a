//! What takes the functions of a text.
ghost use Rattle.std.specs.Prelude.{◌≡◌, ◌∷◌, ◌++◌, [], List, IfOk};
ghost use Rattle.s390x_job_bundle.specs.declared.named_job.NamedJob.{NamedJob as Function};

use crate::named_job::NamedJob;
use std::alloc::{AllocError, Global};

/// What takes the functions of a text, one behind the other.
pub trait FunctionSink {
    /// These functions are all that it has taken.
    ghost HasTaken: { Self → List Function → Type 0 };

    /// Takes one function more. An error comes for want of memory alone.
    fn take(&mut self, alloc: Global, function: NamedJob) -> Result<(), AllocError>
        ensures { (before : List Function) → HasTaken self.old before
            → IfOk result (λ _. HasTaken self.new (before ++ function ∷ [])) };
}

/// A list keeps them.
impl FunctionSink for Vec<NamedJob> {
    ghost HasTaken = { λ list functions. list.items ≡ functions };

    fn take(&mut self, _alloc: Global, function: NamedJob) -> Result<(), AllocError> {
        self.push(function)?;
        Ok(())
    }
}
