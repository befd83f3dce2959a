//! The theorem about retry loops, over the answers of `emit_function` with `link`.
ghost use Rattle.std.specs.Prelude.{◌≡◌, IfErr, IfOk, List, None, ℕ};
ghost use Rattle.s390x_buffer.specs.State.{Constant};
ghost use Rattle.s390x_buffer.specs.declared.entries.MachBufferFinalized.{MachBufferFinalized};
ghost use Rattle.s390x_image.specs.Causes.{link_cause};
ghost use Rattle.s390x_image.specs.Symbols.{Symbols};
ghost use Rattle.s390x_inst.specs.Emission.{Emission};
ghost use Rattle.s390x_inst.specs.declared.function.AllocatedFunction.{AllocatedFunction as Allocated};
ghost use Rattle.s390x_inst.specs.declared.state.IsaFlags.{IsaFlags};
ghost use Rattle.s390x_typed_steps.specs.Folding.{folded_trees};
ghost use Rattle.s390x_typed_steps.specs.Ranges.{BlocksInRange};
ghost use Rattle.s390x_typed_steps.specs.Tree.{Tree};
ghost use Rattle.s390x_emit_int.specs.Function.{checked_cause, constants_of, folded_trees_of, trees_of, IsFinishedCode};
ghost use Rattle.s390x_emit_int.specs.FunctionImage.{HasNoImage, IsImageOf};
ghost use Rattle.s390x_emit_int.specs.Headline.{linked_image};
ghost use Rattle.s390x_interference.specs.Linked.{GuardsFunction};

use s390x_emit_int::{ImageError, emit_function};
use s390x_image::{Image, SymbolTable, link};
use s390x_inst::{AllocatedFunction, EmitInfo, EmitState};
use std::alloc::Global;

/// Where emission finds no cause and linking none, the retry loops of the linked code store by their swaps alone, under every schedule of processors
/// that don't store into it.
pub fn linked_retry_loops()
    ensures { (flags : IsaFlags) (ts : List Tree) (cs : List Constant) (f : MachBufferFinalized)
        (base : ℕ) (symbols : Symbols) → checked_cause flags ts cs ≡ None → BlocksInRange ts
        → IsFinishedCode (folded_trees ts) cs f → link_cause f base symbols ≡ None
        → GuardsFunction symbols (folded_trees ts) cs (linked_image f base symbols) }
{}

/// The retry loops of a function's image, whoever made it, store by their swaps alone, under every schedule of
/// processors that don't store into it. The function's numbers lie in their ranges, as those of a value of the
/// program do.
pub fn image_retry_loops()
    ensures { (flags : IsaFlags) (state : Emission) (f : Allocated) (base : ℕ) (symbols : Symbols)
        (bytes : List ℕ) → BlocksInRange (trees_of flags state f)
        → IsImageOf flags state f base symbols bytes
        → GuardsFunction symbols (folded_trees_of flags state f) (constants_of f)
        (record { base = base; bytes = bytes }) }
{}

/// The image of a function for several processors: `emit_function` and then `link` at the base, with these symbols.
///
/// It is the image that `s390x_emit_int::emit_image` gives, and refused likewise: by the first cause of emission, or else by that of linking. Under every
/// schedule of processors of which none stores into the image, its retry loops store by their swaps alone.
pub fn emit_guarded_image(
    alloc: Global,
    function: &AllocatedFunction,
    info: &EmitInfo,
    state: EmitState,
    base: u64,
    symbols: &SymbolTable,
) -> Result<Image, ImageError>
    ensures base { IfOk result (λ image. image.base ≡ base) }
    ensures image { IfOk result
        (λ image. IsImageOf info.now.isa_flags state function.now base symbols.now
        image.bytes.items) }
    ensures guards { IfOk result
        (λ image. GuardsFunction symbols.now (folded_trees_of info.now.isa_flags state function.now)
        (constants_of function.now) (record { base = base; bytes = image.bytes.items })) }
    ensures refused { IfErr result
        (λ error. HasNoImage info.now.isa_flags state function.now base symbols.now error) }
{
    match emit_function(alloc, function, info, state) {
        Ok(code) => match link(alloc, &code, base, symbols) {
            Ok(image) => Ok(image),
            Err(error) => Err(ImageError::Link(error)),
        },
        Err(error) => Err(ImageError::Refused(error)),
    }
}
