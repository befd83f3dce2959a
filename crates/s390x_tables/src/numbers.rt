//! The numbers of kinds of relocation and of trap codes.
ghost use Rattle.std.specs.Prelude.{◌≡◌};
ghost use Rattle.s390x_tables.specs.Numbers.{number_of_reloc, number_of_trap};

use s390x_base::{Reloc, TrapCode, TrapKind};

/// The number of a kind of relocation in the ELF ABI supplement for s390x.
pub fn relocation_number(kind: Reloc) -> u32
    ensures { result ≡ number_of_reloc kind }
{
    match kind {
        Reloc::S390xPCRel32Dbl => 19,
        Reloc::S390xPLTRel32Dbl => 20,
        Reloc::Abs8 => 22,
    }
}

/// The number of a trap code: 1 to 250 for a user's code, 251 to 255 for the named ones.
pub fn trap_number(code: TrapCode) -> u32
    ensures { result ≡ number_of_trap code }
{
    match code.kind() {
        TrapKind::User(number) => u32::from(number),
        TrapKind::StackOverflow => 251,
        TrapKind::IntegerOverflow => 252,
        TrapKind::HeapOutOfBounds => 253,
        TrapKind::IntegerDivisionByZero => 254,
        TrapKind::BadConversionToInteger => 255,
    }
}
