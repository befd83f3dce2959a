//! The theorem about the joint runs of several functions in one image.
ghost use Rattle.std.specs.Prelude.{List};
ghost use Rattle.s390x_operations.specs.State.{CodeImage};
ghost use Rattle.s390x_machine.specs.Layout.{Layout};
ghost use Rattle.s390x_schedule.specs.Example.{CallsAndReturns};
ghost use Rattle.s390x_schedule.specs.Joint.{AreMembers};
ghost use Rattle.s390x_schedule.specs.JointMatch.{EveryJointBlockRun, EveryJointReturnRun, EveryJointRun};

/// Where each member's code lies in the whole image, every machine run from a step of a member, in every state in which the whole image lies in memory and
/// under every list of others' writes outside it, is allowed by the joint typed steps.
pub fn every_joint_run()
    ensures { (whole : CodeImage) (members : List Layout) → AreMembers whole members
        → EveryJointRun whole members }
{}

/// Every machine run from the start of a block of a member is allowed by the joint typed steps, where each member's
/// code lies in the whole image, under every list of others' writes outside it.
pub fn every_joint_block_run()
    ensures { (whole : CodeImage) (members : List Layout) → AreMembers whole members
        → EveryJointBlockRun whole members }
{}

/// Every machine run from where a call of a member returns to is allowed by the joint typed steps, where each
/// member's code lies in the whole image, under every list of others' writes outside it.
pub fn every_joint_return_run()
    ensures { (whole : CodeImage) (members : List Layout) → AreMembers whole members
        → EveryJointReturnRun whole members }
{}

/// The premises can be met: by two functions at 4096, of which the first one calls the second one. The machine has a run through both and back to the
/// first one's caller, and so have the joint steps.
pub fn premises_can_be_met()
    ensures { CallsAndReturns }
{}
