//! Numbers as the fields of a file.
ghost use Rattle.std.specs.Prelude.{◌≡◌, ◌++◌, IfOk};
ghost use Rattle.s390x_elf.specs.Writing.{field_bytes, fields_bytes};

use std::alloc::AllocError;

/// A number of two, four or eight bytes, the most significant one first.
#[derive(Clone, Copy)]
pub enum Field {
    Half(u16),
    Word(u32),
    Wide(u64),
}

// Puts a field behind bytes.
fn put_field(bytes: &mut Vec<u8>, field: Field) -> Result<(), AllocError>
    ensures { IfOk result (λ _. bytes.new.items ≡ bytes.old.items ++ field_bytes field) }
{
    match field {
        Field::Half(number) => bytes.extend_from_slice(&number.to_be_bytes()),
        Field::Word(number) => bytes.extend_from_slice(&number.to_be_bytes()),
        Field::Wide(number) => bytes.extend_from_slice(&number.to_be_bytes()),
    }
}

/// Puts fields behind bytes, one behind the other.
pub fn put_fields(bytes: &mut Vec<u8>, fields: &[Field]) -> Result<(), AllocError>
    ensures { IfOk result (λ _. bytes.new.items ≡ bytes.old.items ++ fields_bytes fields.now) }
{
    for field in fields {
        put_field(bytes, *field)?;
    }
    Ok(())
}
