//! The first cause of a function, with its place.
ghost use Rattle.std.specs.Prelude.{IfOk};
ghost use Rattle.s390x_refusal.specs.Refusal.{IsFirstRefusal};
ghost use Rattle.s390x_refusal.specs.Search.{IsPositionIn};

use crate::blocks::{open_buffer, position_in_blocks};
use crate::position::{Position, Refusal};
use s390x_base::{EmitError, NoMemory};
use s390x_emit_int::emit_function;
use s390x_inst::{AllocatedFunction, EmitInfo, EmitState, IsaFlags};
use std::alloc::Global;

// Where the first cause of a function stands, where it has one.
fn position_of(
    alloc: Global,
    flags: IsaFlags,
    state: &EmitState,
    function: &AllocatedFunction,
) -> Result<Position, NoMemory>
    ensures { IfOk result (λ position. IsPositionIn flags state.now function.now position) }
{
    match open_buffer(alloc, function, state)? {
        Some(sink) => position_in_blocks(alloc, flags, &sink, state, function),
        None => Ok(Position::Start),
    }
}

/// The first cause by which `emit_function` refuses a function, and where it stands; none exactly where emission refuses nothing.
///
/// Nothing before that place has a cause: not the function's beginning, no earlier block, no earlier member of its block and of each loop around it, and no such
/// loop itself. A function has no place for a cause of its whole code's length, nor for one that stands before its blocks.
pub fn first_refusal(
    alloc: Global,
    function: &AllocatedFunction,
    info: &EmitInfo,
    state: EmitState,
) -> Result<Option<Refusal>, NoMemory>
    ensures { IfOk result
        (λ refusal. IsFirstRefusal info.now.isa_flags state function.now refusal) }
{
    match emit_function(alloc, function, info, state) {
        Ok(_) => Ok(None),
        Err(EmitError::NoMemory) => Err(NoMemory),
        Err(error) => {
            let position = position_of(alloc, info.isa_flags, &state, function)?;
            Ok(Some(Refusal { error, position }))
        }
    }
}
