//! Why members are not put into one image.
ghost use Rattle.std.specs.Prelude.{◌≡◌, Some, length};
ghost use Rattle.s390x_bundle.specs.Joined.{TellsMember};
ghost use Rattle.s390x_bundle.specs.Named.{member_in_error, named_error, place_error};

use crate::joining::JoinError;
use crate::member::Member;
use crate::places::PlaceCause;
use s390x_base::{EmitError, ExternalName};
use s390x_image::LinkError;
use thiserror::Error;

/// Why members are not put into one image. The displayed text is the variant's name.
#[derive(Clone, Copy, PartialEq, Debug, Error)]
pub enum BundleError {
    /// A member has an earlier member's name, or a symbol line names a member.
    #[error("DuplicateName")]
    DuplicateName {
        name: ExternalName,
    },
    /// `emit_function` refuses the member by this cause.
    #[error("Emit")]
    Emit {
        name: ExternalName,
        error: EmitError,
    },
    /// The member's code and constants have no bytes.
    #[error("EmptyMember")]
    EmptyMember {
        name: ExternalName,
    },
    /// The member's end would reach 2^31.
    #[error("TooLong")]
    TooLong {
        name: ExternalName,
    },
    /// The base plus the member's start is 2^64 or above.
    #[error("AddressTooHigh")]
    AddressTooHigh {
        name: ExternalName,
    },
    /// `link` refuses the member at the base plus its start by this cause.
    #[error("Link")]
    Link {
        name: ExternalName,
        error: LinkError,
    },
    /// No memory.
    #[error("NoMemory")]
    NoMemory,
}

// The error of a place by a member's name.
fn place_error(cause: PlaceCause, name: ExternalName) -> BundleError
    ensures { result ≡ place_error cause name }
{
    match cause {
        PlaceCause::EmptyMember => BundleError::EmptyMember { name },
        PlaceCause::TooLong => BundleError::TooLong { name },
        PlaceCause::AddressTooHigh => BundleError::AddressTooHigh { name },
    }
}

/// The error of joining, which tells the member by its name.
pub fn named_error(members: &[Member], error: JoinError) -> BundleError
    requires { TellsMember (length members.now) error }
    ensures { named_error (member_in_error members.now error) error ≡ Some result }
{
    match error {
        JoinError::Misplaced(member, cause) => place_error(cause, members[member].name),
        JoinError::Unlinked(member, error) => BundleError::Link {
            name: members[member].name,
            error,
        },
        JoinError::NoMemory => BundleError::NoMemory,
    }
}
