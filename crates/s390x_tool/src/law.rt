//! That what the top call's clauses ask for can be.
ghost use Rattle.std.specs.Prelude.{◌≡◌, ℕ, ◌+◌, ◌%◌, ◌≤◌, ◌^◌, codes};
ghost use Rattle.s390x_tool.specs.declared.words.JobCommand.{JobCommand};
ghost use Rattle.s390x_job.specs.Completions.{text_of_lines};
ghost use Rattle.s390x_job_plan.specs.Example.{no_blocks};
ghost use Rattle.s390x_tool.specs.Allocated.{IsPlanAccepted};
ghost use Rattle.s390x_tool.specs.Answers.{IsAccepted};
ghost use Rattle.s390x_tool.specs.Bundled.{IsBundleAccepted};
ghost use Rattle.s390x_tool.specs.Example.{HasRoom, one_function, one_job, one_step};
ghost use Rattle.s390x_tool.specs.Lines.{line};

/// Some functions are kept from standing in one image by nothing, at any base: none at all.
pub fn no_functions_are_accepted()
    ensures { (base : ℕ) → IsBundleAccepted base (line (codes "close")) }
{}

/// A function that returns at once is kept from standing in an image by nothing, at any base that is a multiple of 4 and has room for its two bytes below 2^64.
pub fn one_function_is_accepted()
    ensures { (base : ℕ) → base % 4 ≡ 0 → base + 2 ≤ 2 ^ 64
        → IsBundleAccepted base (text_of_lines one_function) }
{}

/// Some plan has no fault: that of a job without blocks.
pub fn no_blocks_are_accepted()
    ensures { IsPlanAccepted (text_of_lines no_blocks) }
{}

/// A plan of a job that returns at once, whose one edit is that instruction, has no fault.
pub fn one_step_is_accepted()
    ensures { IsPlanAccepted (text_of_lines one_step) }
{}

/// A job that returns at once is refused by no command on a job: where the command links it, at any base that is a multiple of 4 and has room for its two bytes below 2^64.
pub fn one_job_is_accepted()
    ensures { (command : JobCommand) → HasRoom command
        → IsAccepted command (text_of_lines one_job) }
{}
