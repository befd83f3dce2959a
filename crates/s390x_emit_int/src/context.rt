//! What stands around instructions while they are emitted or checked.
use s390x_base::MachLabel;
use s390x_inst::IsaFlags;

/// What stands around instructions: the machine's facilities, how many loops they stand in, and the label behind the innermost of these, for which the
/// check doesn't ask. Outside of loops it is 0.
#[derive(Clone, Copy)]
pub struct Context {
    pub flags: IsaFlags,
    pub depth: u32,
    pub after: MachLabel,
}
