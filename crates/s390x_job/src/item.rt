//! The parts of a job, as one line tells each.

use crate::job::{MemLine, SymbolLine};
use s390x_base::{Cond, ConstantData};
use s390x_inst::{CallConv, FrameLayout, Inst, IsaFlags};
use s390x_job_fields::{GeneralStart, VectorStart};

/// A convention and a layout, as the line `frame` tells them.
#[derive(Clone, Copy)]
pub struct Frame {
    pub conv: CallConv,
    pub layout: FrameLayout,
}

/// A part of a job, as one line tells it.
#[derive(Drop)]
pub enum Item {
    Flags(IsaFlags),
    Frame(Frame),
    Constant(ConstantData),
    Symbol(SymbolLine),
    General(GeneralStart),
    Vector(VectorStart),
    Memory(MemLine),
    Block,
    Open(Cond),
    Close,
    End,
    One(Inst),
}
