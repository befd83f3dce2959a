//! The names of members.
ghost use Rattle.std.specs.Prelude.{◌≡◌, [], List, IfOk};
ghost use Rattle.s390x_base.specs.declared.ir.ExternalName.{ExternalName as Name};
ghost use Rattle.s390x_bundle.specs.Names.{HasNames, first_duplicate, line_among, names_of};

use crate::member::Member;
use s390x_base::ExternalName;
use s390x_job::SymbolLine;
use std::alloc::{AllocError, Global};
use std::collections::BTreeSet;

// The numbers of the members' names.
fn name_set(alloc: Global, members: &[Member]) -> Result<BTreeSet<u32>, AllocError>
    ensures { IfOk result (λ names. HasNames names (names_of members.now)) }
{
    let mut names = BTreeSet::new(alloc);
    for member in members {
        names.insert(member.name.0)?;
    }
    Ok(names)
}

// The first one of these lines that has one of these names.
fn named_line(names: &BTreeSet<u32>, lines: &[SymbolLine]) -> Option<ExternalName>
    ensures { (all : List Name) → HasNames names.now all → result ≡ line_among all lines.now }
{
    for line in lines {
        if names.contains(&line.name.0) {
            return Some(line.name);
        }
    }
    None
}

/// The name of the first member that an earlier one has too, or one of whose lines names a member: its own name, or else that of its first such line.
pub fn duplicate_name(alloc: Global, members: &[Member]) -> Result<Option<ExternalName>, AllocError>
    ensures { IfOk result (λ name. name ≡ first_duplicate (names_of members.now) [] members.now) }
{
    let names = name_set(alloc, members)?;
    let mut earlier = BTreeSet::new(alloc);
    for member in members {
        if !earlier.insert(member.name.0)? {
            return Ok(Some(member.name));
        }
        match named_line(&names, &member.symbols) {
            Some(name) => return Ok(Some(name)),
            None => {}
        }
    }
    Ok(None)
}
