//! The first cause in the blocks of a function.
ghost use Rattle.std.specs.Prelude.{◌≡◌, ◌≤◌, ◌&&◌, nat_eq, length, IfOk, None};
ghost use Rattle.s390x_buffer.specs.State.{fresh_buffer, label_limit};
ghost use Rattle.s390x_typed_steps.specs.Causes.{declared_in};
ghost use Rattle.s390x_emit_int.specs.Function.{constants_of};
ghost use Rattle.s390x_refusal.specs.Refusal.{opening_cause};
ghost use Rattle.s390x_refusal.specs.Search.{IsBlockChecked, IsOpened, IsPositionIn};

use crate::members::{Checked, Scope, path_among};
use crate::position::Position;
use s390x_base::{EmitError, NoMemory};
use s390x_buffer::MachBuffer;
use s390x_emit_int::{CodeSize, check_block};
use s390x_inst::{AllocatedFunction, Block, EmitState, IsaFlags};
use std::alloc::Global;

/// The most blocks that have labels.
const MOST_BLOCKS: usize = 4_294_967_295;

// Whether the stack sizes at the beginning are 0.
fn begins_empty(state: &EmitState) -> bool
    ensures { result ≡ nat_eq state.now.nominal 0 && nat_eq state.now.outgoing 0 }
{
    state.nominal() == 0 && state.outgoing() == 0
}

/// A buffer for the blocks and the constants, by which the causes of the steps are found; none where the function is refused before its blocks.
pub fn open_buffer(
    alloc: Global,
    function: &AllocatedFunction,
    state: &EmitState,
) -> Result<Option<MachBuffer>, NoMemory>
    ensures { IfOk result (λ sink. IsOpened state.now function.now sink) }
{
    let count = function.blocks.len();
    if !begins_empty(state) || count > MOST_BLOCKS {
        return Ok(None);
    }
    match MachBuffer::new(alloc, count as u32, &function.constants) {
        Ok(sink) => Ok(Some(sink)),
        Err(EmitError::NoMemory) => Err(NoMemory),
        Err(_) => Ok(None),
    }
}

// The first cause of a block, or how many labels are in use behind it.
fn check_whole_block(
    alloc: Global,
    flags: IsaFlags,
    sink: &MachBuffer,
    state: &EmitState,
    labels: u64,
    block: &Block,
) -> Result<Checked, NoMemory>
    requires few { labels ≤ label_limit }
    requires start { state.now.nominal ≡ 0 }
    ensures { IfOk result
        (λ checked. IsBlockChecked flags (declared_in sink.now) labels state.now block.now
        checked) }
{
    let before = CodeSize { labels, bytes: 0 };
    match check_block(alloc, flags, state, sink, before, block) {
        Ok(behind) => Ok(Checked::Passed(behind.labels)),
        Err(EmitError::NoMemory) => Err(NoMemory),
        Err(error) => Ok(Checked::Refused(error)),
    }
}

/// Where the first cause stands in the blocks, or behind them.
pub fn position_in_blocks(
    alloc: Global,
    flags: IsaFlags,
    sink: &MachBuffer,
    state: &EmitState,
    function: &AllocatedFunction,
) -> Result<Position, NoMemory>
    requires opening { opening_cause state.now function.now ≡ None }
    requires fresh { sink.now
        ≡ fresh_buffer (length function.now.blocks.items) (constants_of function.now) }
    ensures { IfOk result (λ position. IsPositionIn flags state.now function.now position) }
{
    let mut labels = function.blocks.len() as u64 + function.constants.len() as u64;
    for (number, block) in function.blocks.iter().enumerate() {
        match check_whole_block(alloc, flags, sink, state, labels, block)? {
            Checked::Passed(behind) => labels = behind,
            Checked::Refused(_) => {
                let scope = Scope { labels, depth: 0 };
                return match path_among(alloc, flags, sink, state, scope, &block.insts)? {
                    Some(path) => Ok(Position::Instruction {
                        block: number,
                        path,
                    }),
                    None => Ok(Position::BlockEnd { block: number }),
                };
            }
        }
    }
    Ok(Position::Length)
}
