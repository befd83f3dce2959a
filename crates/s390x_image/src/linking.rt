//! Linking.
ghost use Rattle.std.specs.Prelude.{◌≡◌, ℕ, ◌+◌, ◌-◌, ◌≤◌, ◌⊎◌, Some, None, IfOk, MatchResult, length, slice_index, []};
ghost use Rattle.std.specs.List.{All};
ghost use Rattle.s390x_image.specs.Fields.{LiesIn, IsOutside, with_fields_filled};
ghost use Rattle.s390x_image.specs.Causes.{base_cause, link_cause};

use crate::error::LinkError;
use crate::fields::fill_all;
use crate::image::Image;
use crate::symbols::SymbolTable;
use s390x_buffer::MachBufferFinalized;
use std::alloc::Global;

/// Whether code of some bytes with an alignment may stand at a base.
fn check_base(base: u64, alignment: u32, size: usize) -> Result<(), LinkError>
    ensures { MatchResult result (λ _. base_cause alignment size base ≡ None)
        (λ e. base_cause alignment size base ≡ Some e) }
{
    if !base.is_multiple_of(u64::from(alignment)) {
        return Err(LinkError::MisalignedBase);
    }
    if u128::from(base) + size as u128 > 1 << 64 {
        return Err(LinkError::ImageTooHigh);
    }
    Ok(())
}

/// The image of code at a base address: its bytes, with each relocation's field filled in order.
/// Half of symbol plus addend less the field's address stands in four bytes (`S390xPCRel32Dbl`,
/// `S390xPLTRel32Dbl`), or symbol plus addend in eight (`Abs8`), the most significant byte first.
/// A refusal tells the first cause: the base's, then each relocation's in order.
pub fn link(
    alloc: Global,
    code: &MachBufferFinalized,
    base: u64,
    symbols: &SymbolTable,
) -> Result<Image, LinkError>
    requires { All (LiesIn (length code.now.bytes.items)) code.now.relocs.items }
    ensures answer { MatchResult result
        (λ image. (link_cause code.now base symbols.now ≡ None) × (image.base ≡ base)
        × (image.bytes.items
        ≡ with_fields_filled base symbols.now code.now.relocs.items code.now.bytes.items))
        (λ e. (e ≡ LinkError.NoMemory) ⊎ (link_cause code.now base symbols.now ≡ Some e)) }
    ensures size { IfOk result (λ image. length image.bytes.items ≡ length code.now.bytes.items) }
    ensures others { IfOk result
        (λ image. (k : ℕ) → All (IsOutside k) code.now.relocs.items
        → slice_index image.bytes.items k ≡ slice_index code.now.bytes.items k) }
    ensures unlinked { IfOk result
        (λ image. code.now.relocs.items ≡ [] → image.bytes.items ≡ code.now.bytes.items) }
{
    check_base(base, code.alignment, code.bytes.len())?;
    let mut bytes = Vec::new(alloc);
    if bytes.extend_from_slice(&code.bytes).is_err() {
        return Err(LinkError::NoMemory);
    }
    fill_all(&mut bytes, base, symbols, &code.relocs)?;
    Ok(Image { base, bytes })
}
