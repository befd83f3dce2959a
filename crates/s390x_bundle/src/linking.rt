//! The linking of members.
ghost use Rattle.std.specs.Prelude.{◌≡◌, ◌+◌, ◌<◌, ◌^◌, IfErr, MatchResult, None, length};
ghost use Rattle.std.specs.List.{All};
ghost use Rattle.s390x_image.specs.Symbols.{Symbols};
ghost use Rattle.s390x_bundle.specs.Bytes.{Rise, parts_behind};
ghost use Rattle.s390x_bundle.specs.Linking.{HasItsFields, IsLinkCause, IsLinked, IsUnlinked, first_unlinked, linked_parts};
ghost use Rattle.s390x_bundle.specs.Table.{AreJoined};

use crate::bytes::put_part;
use crate::member::Member;
use crate::table::{joint_table, member_table};
use s390x_buffer::MachBufferFinalized;
use s390x_image::{Image, LinkError, SymbolTable, link};
use s390x_job::SymbolLine;
use std::alloc::Global;

/// Why members are not linked: a member by its number from 0, and its error.
#[derive(Clone, Copy, PartialEq, Debug)]
pub struct LinkRefusal {
    pub member: usize,
    pub error: LinkError,
}

// A member's image at its start: with the symbols of its lines, and all members at their starts.
fn linked_member(
    alloc: Global,
    joint: &SymbolTable,
    lines: &[SymbolLine],
    address: u64,
    code: &MachBufferFinalized,
) -> Result<Image, LinkError>
    requires fields { HasItsFields code.now }
    ensures { (symbols : Symbols) → AreJoined joint.now lines.now symbols
        → MatchResult result (λ image. IsLinked code.now address symbols image.bytes.items)
        (λ e. IsLinkCause code.now address symbols e) }
{
    match member_table(alloc, joint, lines, &code.relocs) {
        Ok(table) => link(alloc, code, address, &table),
        Err(_) => Err(LinkError::NoMemory),
    }
}

/// The bytes of all members behind one another: each one's finished code at its start, linked there with the symbols of its lines and all members at their
/// starts, and zeros between. Refused by the first member that can't be linked, with its first cause.
pub fn link_members(
    alloc: Global,
    base: u64,
    members: &[Member],
    starts: &[u32],
    codes: &[MachBufferFinalized],
) -> Result<Vec<u8>, LinkRefusal>
    requires counts { length starts.now ≡ length members.now }
    requires codes { length codes.now ≡ length members.now }
    requires fits { All (λ s. base + s < 2 ^ 64) starts.now }
    requires fields { All HasItsFields codes.now }
    requires rise { Rise 0
        (linked_parts base members.now starts.now members.now starts.now codes.now) }
    ensures answer { MatchResult result
        (λ bytes.
        (first_unlinked base members.now starts.now 0 members.now starts.now codes.now ≡ None)
        × (bytes.items
        ≡ parts_behind 0
        (linked_parts base members.now starts.now members.now starts.now codes.now)))
        (λ refusal. IsUnlinked
        (first_unlinked base members.now starts.now 0 members.now starts.now codes.now)
        refusal) }
    ensures within { IfErr result (λ refusal. refusal.member < length members.now) }
{
    let mut bytes = Vec::new(alloc);
    if members.is_empty() {
        return Ok(bytes);
    }
    let Ok(joint) = joint_table(alloc, base, members, starts) else {
        return Err(LinkRefusal {
            member: 0,
            error: LinkError::NoMemory,
        });
    };
    for (number, member) in members.iter().enumerate() {
        let start = starts[number];
        let address = base + u64::from(start);
        match linked_member(alloc, &joint, &member.symbols, address, &codes[number]) {
            Ok(image) => {
                if put_part(&mut bytes, start, &image.bytes).is_err() {
                    return Err(LinkRefusal {
                        member: number,
                        error: LinkError::NoMemory,
                    });
                }
            }
            Err(error) => return Err(LinkRefusal {
                member: number,
                error,
            }),
        }
    }
    Ok(bytes)
}
