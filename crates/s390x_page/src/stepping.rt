//! A step of a small machine.
ghost use Rattle.std.specs.Prelude.{◌≡◌};
ghost use Rattle.s390x_machine.specs.Step.{Steps};
ghost use Rattle.s390x_page.specs.Stepping.{end_numbered, number_of_end, state_in};

use crate::registers::{Registers, machine_of, registers_after};
use crate::storage::Storage;
use s390x_machine::StepEnd;
use s390x_operations::StopKind;

/// A step of the machine with these registers and this storage, in place.
///
/// 0: the instruction at its place is done. 1: the row's result is free, or isn't computed. Else the instruction stops: 2, for
/// a byte that isn't accessible; 3, by specification; 4, for bytes that are no instruction; 5, by a division; 6, by a compare
/// and trap. But for 0 everything is as before.
#[unsafe(no_mangle)]
pub extern "C" fn s390x_page_step(registers: &mut Registers, storage: &mut Storage) -> u8
    ensures { Steps (state_in registers.old storage.old) (end_numbered result registers.old.place)
        (state_in registers.new storage.new) }
{
    let mut machine = machine_of(registers);
    let end = machine.step(storage);
    *registers = registers_after(&machine);
    number_of_end(end)
}

// The number by which the page knows how a step ends.
fn number_of_end(end: StepEnd) -> u8
    ensures { result ≡ number_of_end end }
{
    match end {
        StepEnd::Went => 0,
        StepEnd::NoRow => 1,
        StepEnd::Stopped(StopKind::Access, _) => 2,
        StepEnd::Stopped(StopKind::Specification, _) => 3,
        StepEnd::Stopped(StopKind::Operation, _) => 4,
        StepEnd::Stopped(StopKind::Divide, _) => 5,
        StepEnd::Stopped(StopKind::CompareTrap, _) => 6,
    }
}
