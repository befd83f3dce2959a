//! The laws of progress.
ghost use Rattle.std.specs.Prelude.{List};
ghost use Rattle.s390x_operations.specs.State.{State, IsState, CodeImage, Write, MayWrite};
ghost use Rattle.s390x_machine.specs.Machine.{Event, MachineStep, Transition, Run, after_all};
ghost use Rattle.s390x_machine.specs.Example.{image, core};
ghost use Rattle.s390x_machine.specs.Progress.{HasStep, HasTransition, MayWriteEach, HasRun};

/// In every state whose numbers lie in their ranges the machine has a step.
pub fn every_state_has_a_step()
    ensures { (s : State) → IsState s → HasStep s }
{}

/// It also has one after all writes that others may make there.
pub fn every_write_leaves_a_step()
    ensures { (image : CodeImage) (s : State) (writes : List Write) → IsState s
        → MayWrite image s.core.memory.has writes → HasTransition image s writes }
{}

/// A step of the machine leaves the numbers in their ranges.
pub fn steps_keep_ranges()
    ensures { (s : State) (event : Event) (after : State) → IsState s → MachineStep s event after
        → IsState after }
{}

/// So does a run, whatever others write in it.
pub fn runs_keep_ranges()
    ensures { (image : CodeImage) (s : State) (trace : List Transition) → IsState s
        → Run image s trace → IsState (after_all s trace) }
{}

/// So every run goes on: after it the machine has a step, whatever others write before that.
pub fn every_run_goes_on()
    ensures { (image : CodeImage) (s : State) (trace : List Transition) (writes : List Write)
        → IsState s → Run image s trace → MayWrite image (after_all s trace).core.memory.has writes
        → HasTransition image (after_all s trace) writes }
{}

/// And whatever others may write, however often, the machine has a run of so many steps in which they write just that.
pub fn all_writes_have_a_run()
    ensures { (image : CodeImage) (s : State) (others : List (List Write)) → IsState s
        → MayWriteEach image s.core.memory.has others → HasRun image s others }
{}

/// The ranges can be met: the numbers lie in them in the state in which the run of `a_loop_runs` of `s390x_machine` begins.
pub fn a_state_is_in_range()
    ensures { IsState (record { core = core; address = image.base }) }
{}
