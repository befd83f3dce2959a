//! The fields of relocations.
ghost use Rattle.std.specs.Prelude.{◌≡◌, ◌+◌, ◌≤◌, pos, ◌-ℤ◌, Some, None, MatchResult, length};
ghost use Rattle.std.specs.List.{All};
ghost use Rattle.std.specs.Int.RustNames.{int_div};
ghost use Rattle.s390x_image.specs.Fields.{LiesIn, target_of, field_distance, with_bytes_at, fill, with_fields_filled, half_field, target_field, address_or_zero};
ghost use Rattle.s390x_image.specs.Symbols.{address_of};
ghost use Rattle.s390x_image.specs.Causes.{absolute_cause, half_cause, relative_cause, symbol_cause, reloc_cause, relocs_cause};

use crate::error::LinkError;
use crate::symbols::SymbolTable;
use s390x_base::Reloc;
use s390x_buffer::RelocEntry;

/// Symbol plus addend.
fn target(symbol: u64, reloc: RelocEntry) -> i128
    ensures { result ≡ target_of symbol reloc }
{
    i128::from(symbol) + i128::from(reloc.addend)
}

/// Symbol plus addend less the field's address.
fn distance(base: u64, symbol: u64, reloc: RelocEntry) -> i128
    ensures { result ≡ field_distance base symbol reloc }
{
    target(symbol, reloc) - i128::from(base) - i128::from(reloc.offset)
}

/// A target as an address.
fn absolute_address(target: i128) -> Result<u64, LinkError>
    ensures { MatchResult result (λ a. (absolute_cause target ≡ None) × (target ≡ pos a))
        (λ e. absolute_cause target ≡ Some e) }
{
    match u64::try_from(target) {
        Ok(address) => Ok(address),
        Err(_) => Err(LinkError::AddressOverflow),
    }
}

/// Half of a distance as a signed word.
fn half(distance: i128) -> Result<i32, LinkError>
    ensures { MatchResult result
        (λ h. (half_cause distance ≡ None) × (h ≡ int_div distance (pos 2)))
        (λ e. half_cause distance ≡ Some e) }
{
    if distance % 2 != 0 {
        return Err(LinkError::OddSymbol);
    }
    match i32::try_from(distance / 2) {
        Ok(half) => Ok(half),
        Err(_) => Err(LinkError::TooFar),
    }
}

/// Half of the distance to a target as a signed word; the address that it counts from is 2 below
/// the field's.
fn relative_word(target: i128, distance: i128) -> Result<i32, LinkError>
    ensures { MatchResult result
        (λ h. (relative_cause target distance ≡ None) × (h ≡ int_div distance (pos 2)))
        (λ e. relative_cause target distance ≡ Some e) }
{
    if target < 2 || target > i128::from(u64::MAX) + 2 {
        return Err(LinkError::AddressOverflow);
    }
    half(distance)
}

/// Stores a field's bytes from an offset on.
fn store(bytes: &mut [u8], offset: u32, field: &[u8])
    requires { offset + length field.now ≤ length bytes.old }
    ensures { bytes.new ≡ with_bytes_at bytes.old offset field.now }
{
    let start = offset as usize;
    bytes[start..start + field.len()].copy_from_slice(field);
}

/// Fills four bytes with half of the distance to a target.
fn fill_relative(
    bytes: &mut [u8],
    offset: u32,
    target: i128,
    distance: i128,
) -> Result<(), LinkError>
    requires { offset + 4 ≤ length bytes.old }
    ensures { MatchResult result
        (λ _. (relative_cause target distance ≡ None)
        × (bytes.new ≡ with_bytes_at bytes.old offset (half_field distance)))
        (λ e. relative_cause target distance ≡ Some e) }
{
    let field = relative_word(target, distance)?.to_be_bytes();
    store(bytes, offset, &field);
    Ok(())
}

/// Fills eight bytes with a target.
fn fill_absolute(bytes: &mut [u8], offset: u32, target: i128) -> Result<(), LinkError>
    requires { offset + 8 ≤ length bytes.old }
    ensures { MatchResult result
        (λ _. (absolute_cause target ≡ None)
        × (bytes.new ≡ with_bytes_at bytes.old offset (target_field target)))
        (λ e. absolute_cause target ≡ Some e) }
{
    let field = absolute_address(target)?.to_be_bytes();
    store(bytes, offset, &field);
    Ok(())
}

/// Fills the field of a relocation whose symbol has an address.
fn fill_field(bytes: &mut [u8], base: u64, symbol: u64, reloc: RelocEntry) -> Result<(), LinkError>
    requires { LiesIn (length bytes.old) reloc }
    ensures { MatchResult result
        (λ _. (symbol_cause base reloc (Some symbol) ≡ None)
        × (bytes.new ≡ fill base symbol reloc bytes.old))
        (λ e. symbol_cause base reloc (Some symbol) ≡ Some e) }
{
    let sum = target(symbol, reloc);
    let away = distance(base, symbol, reloc);
    match reloc.kind {
        Reloc::S390xPCRel32Dbl => fill_relative(bytes, reloc.offset, sum, away),
        Reloc::S390xPLTRel32Dbl => fill_relative(bytes, reloc.offset, sum, away),
        Reloc::Abs8 => fill_absolute(bytes, reloc.offset, sum),
    }
}

/// Fills the field of a relocation.
fn fill_one(
    bytes: &mut [u8],
    base: u64,
    symbols: &SymbolTable,
    reloc: RelocEntry,
) -> Result<(), LinkError>
    requires { LiesIn (length bytes.old) reloc }
    ensures { MatchResult result
        (λ _. (reloc_cause base symbols.now reloc ≡ None)
        × (bytes.new
        ≡ fill base (address_or_zero (address_of symbols.now reloc.name)) reloc bytes.old))
        (λ e. reloc_cause base symbols.now reloc ≡ Some e) }
{
    match symbols.get(reloc.name) {
        Some(symbol) => fill_field(bytes, base, symbol, reloc),
        None => Err(LinkError::UndefinedSymbol),
    }
}

/// Fills the fields of relocations in order.
pub fn fill_all(
    bytes: &mut [u8],
    base: u64,
    symbols: &SymbolTable,
    relocs: &[RelocEntry],
) -> Result<(), LinkError>
    requires { All (LiesIn (length bytes.old)) relocs.now }
    ensures { MatchResult result
        (λ _. (relocs_cause base symbols.now relocs.now ≡ None)
        × (bytes.new ≡ with_fields_filled base symbols.now relocs.now bytes.old))
        (λ e. relocs_cause base symbols.now relocs.now ≡ Some e) }
{
    for reloc in relocs {
        fill_one(bytes, base, symbols, *reloc)?;
    }
    Ok(())
}
