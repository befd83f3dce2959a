//! A function's code, linked.
ghost use Rattle.std.specs.Prelude.{IfOk};
ghost use Rattle.s390x_emit_int.specs.Function.{IsFinishedCode, constants_of, folded_trees_of};
ghost use Rattle.s390x_emit_int.specs.Headline.{RunsAsTyped};

use s390x_base::EmitError;
use s390x_buffer::MachBufferFinalized;
use s390x_emit_int::emit_function;
use s390x_image::{Image, LinkError, SymbolTable, link};
use s390x_inst::{AllocatedFunction, EmitInfo, EmitState};
use std::alloc::Global;

/// A function's code with its tables, and its image.
#[derive(Drop)]
pub struct Linked {
    pub code: MachBufferFinalized,
    pub image: Image,
}

/// Why there is nothing to print.
#[derive(Clone, Copy, PartialEq, Debug)]
pub enum Failure {
    /// There is no memory.
    NoMemory,
    /// Emission refuses the function, or wants memory.
    Emission(EmitError),
    /// Linking refuses its code, or wants memory.
    Linking(LinkError),
}

/// The code of a function for a machine, and its image at a base.
///
/// A machine that fetches the image there does only what the function's instructions allow: the theorem, as a clause of a
/// caller's own function.
pub fn emit_and_link(
    alloc: Global,
    function: &AllocatedFunction,
    info: &EmitInfo,
    state: EmitState,
    base: u64,
    symbols: &SymbolTable,
) -> Result<Linked, Failure>
    ensures code { IfOk result
        (λ it. IsFinishedCode (folded_trees_of info.now.isa_flags state function.now)
        (constants_of function.now) it.code) }
    ensures runs { IfOk result
        (λ it. RunsAsTyped symbols.now (folded_trees_of info.now.isa_flags state function.now)
        (constants_of function.now) (record { base = base; bytes = it.image.bytes.items })) }
{
    match emit_function(alloc, function, info, state) {
        Ok(code) => match link(alloc, &code, base, symbols) {
            Ok(image) => Ok(Linked { code, image }),
            Err(error) => Err(Failure::Linking(error)),
        },
        Err(error) => Err(Failure::Emission(error)),
    }
}
