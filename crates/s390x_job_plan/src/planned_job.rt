//! A job with a plan of its registers.

use s390x_alloc::Plan;
use s390x_job::Job;

/// A job, and what an allocator plans for its function.
#[derive(Drop)]
pub struct PlannedJob {
    pub job: Job,
    pub plan: Plan,
}
