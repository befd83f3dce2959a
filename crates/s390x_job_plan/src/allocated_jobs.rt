//! What a plan's function makes of its job.
ghost use Rattle.s390x_job_plan.specs.Jobs.{AnsweredIsJob, AnsweredIsReadBack};

/// Of a job and a plan in their ranges: where the plan has no fault, the job with the function that it gives in place of its own is a job again. Each of its lines
/// has its fields in their ranges, and the lines stand in their order.
pub fn answered_jobs_are_jobs()
    ensures { AnsweredIsJob }
{}

/// And no other job has that job's text, up to equal lines: what `lines_of_job` prints of it is read by `read_lines` as that job.
pub fn answered_jobs_are_read_back()
    ensures { AnsweredIsReadBack }
{}
