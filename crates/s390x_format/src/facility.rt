//! The facility that a machine row needs.
ghost use Rattle.std.specs.Prelude.{◌≡◌};
ghost use Rattle.s390x_format.specs.Facilities.{facility_of};

use crate::fields::Fields;
use s390x_lanes::{ElementSize, size_from};

/// A facility of the machine (Principles of Operation, chapter 4, "Facility indications").
#[derive(Clone, Copy, PartialEq, Debug)]
pub enum Facility {
    /// What every machine has that the code generator makes code for.
    Base,
    /// The miscellaneous-instruction-extensions facility 3.
    Mie3,
    /// The miscellaneous-instruction-extensions facility 4.
    Mie4,
    /// The vector-enhancements facility 2.
    VxrsExt2,
    /// The vector-enhancements facility 3.
    VxrsExt3,
}

/// Which facility a row needs, by its first mask.
#[derive(Clone, Copy)]
pub enum FacilityRule {
    /// This one, whatever the masks.
    Always(Facility),
    /// POPULATION COUNT: `Mie3` to count the ones of the register, the base to count those of each byte.
    WholeCount,
    /// The base for elements of at most this size, `VxrsExt3` for wider ones.
    UpTo(ElementSize),
}

/// The facility that an instruction of a row with this rule needs.
pub fn facility_needed(rule: FacilityRule, fields: &Fields) -> Facility
    ensures { result ≡ facility_of rule fields.now }
{
    match rule {
        FacilityRule::Always(facility) => facility,
        FacilityRule::WholeCount => {
            if fields.masks[0] == 8 {
                Facility::Mie3
            } else {
                Facility::Base
            }
        }
        FacilityRule::UpTo(size) => {
            if size_from(fields.masks[0]).bits() <= size.bits() {
                Facility::Base
            } else {
                Facility::VxrsExt3
            }
        }
    }
}
