//! The image of a function: its code, emitted and linked.
ghost use Rattle.std.specs.Prelude.{◌≡◌, IfErr, IfOk};
ghost use Rattle.s390x_emit_int.specs.FunctionImage.{HasNoImage, IsImageOf};

use crate::function::emit_function;
use s390x_base::EmitError;
use s390x_image::{Image, LinkError, SymbolTable, link};
use s390x_inst::{AllocatedFunction, EmitInfo, EmitState};
use std::alloc::Global;

/// Why a function has no image.
#[derive(Clone, Copy, PartialEq, Debug)]
pub enum ImageError {
    /// Emission refuses the function by this cause, or wants memory.
    Refused(EmitError),
    /// Linking refuses its code by this cause, or wants memory.
    Link(LinkError),
}

/// The image of a function: `emit_function` and then `link` at the base, with these symbols.
///
/// A machine that fetches it there, from the start of any block, in every state in which it lies in memory, and under every list of
/// others' writes, does only what the function's instructions allow, until it returns, stops by a trap or at a `Debugtrap`, or a typed
/// step is wrong. Refused by the first cause of emission, or else by that of linking.
pub fn emit_image(
    alloc: Global,
    function: &AllocatedFunction,
    info: &EmitInfo,
    state: EmitState,
    base: u64,
    symbols: &SymbolTable,
) -> Result<Image, ImageError>
    ensures base { IfOk result (λ image. image.base ≡ base) }
    ensures image { IfOk result
        (λ image. IsImageOf info.now.isa_flags state function.now base symbols.now
        image.bytes.items) }
    ensures refused { IfErr result
        (λ error. HasNoImage info.now.isa_flags state function.now base symbols.now error) }
{
    match emit_function(alloc, function, info, state) {
        Ok(code) => match link(alloc, &code, base, symbols) {
            Ok(image) => Ok(image),
            Err(error) => Err(ImageError::Link(error)),
        },
        Err(error) => Err(ImageError::Refused(error)),
    }
}
