//! Why a call refuses.
ghost use Rattle.std.specs.Prelude.{◌≡◌};
ghost use Rattle.s390x_calls.specs.Input.{at_line, by_cause, by_member};

use crate::place::Place;

/// Why a call refuses its input. What a status doesn't speak of is 0.
#[repr(C)]
#[derive(Clone, Copy)]
pub struct Reason {
    /// With `Syntax`: the input's first wrong line, or the one that is lacking, counted from 1.
    pub line: u32,
    /// With `Refused`, `LinkRefused` and `BundleRefused`: the number of the first cause.
    pub cause: u32,
    /// With a bundle's refusal: the number of the name of the function that has the cause.
    pub member: u32,
    /// With `Refused` of a job: where the first cause stands.
    pub place: Place,
}

impl Reason {
    /// A line.
    pub fn at_line(line: u32) -> Reason
        ensures { result ≡ at_line line }
    {
        Reason {
            line,
            cause: 0,
            member: 0,
            place: Place::none(),
        }
    }

    /// A cause and its place.
    pub fn by_cause(number: u8, place: Place) -> Reason
        ensures { result ≡ by_cause number place }
    {
        Reason {
            line: 0,
            cause: u32::from(number),
            member: 0,
            place,
        }
    }

    /// A cause and the function that has it.
    pub fn by_member(number: u8, member: u32) -> Reason
        ensures { result ≡ by_member number member }
    {
        Reason {
            line: 0,
            cause: u32::from(number),
            member,
            place: Place::none(),
        }
    }
}
