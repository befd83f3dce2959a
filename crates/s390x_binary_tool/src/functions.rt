//! The reply to the command `objects`.
ghost use Rattle.std.specs.Prelude.{◌≡◌, ◌<◌, IfOk, MatchResult, None, length, string_bytes};
ghost use Rattle.std.specs.Cow.{cow_slice_items};
ghost use Rattle.s390x_bundle.specs.Bundled.{duplicate_of};
ghost use Rattle.s390x_bundle.specs.Emitted.{HasNoCode, IsEmitted, emit_cause, first_refused, refused_or};
ghost use Rattle.s390x_job_bundle.specs.Text.{AreFunctionsOf};
ghost use Rattle.s390x_elf.specs.Names.{symbol_name};
ghost use Rattle.s390x_tool.specs.Ends.{too_many};
ghost use Rattle.s390x_binary_tool.specs.Objects.{AreObjectMembers, HasNoCodes, IsObjectMember, IsObjectsAnswer, IsObjectsReply};

use crate::object::object_refused;
use crate::reply::{BinaryReply, shared_reply, with_file};
use s390x_base::{EmitError, ExternalName};
use s390x_buffer::MachBufferFinalized;
use s390x_bundle::{BundleError, Member, duplicate_name, members_of};
use s390x_elf::ObjectMember;
use s390x_emit_int::emit_function;
use s390x_job_bundle::{BundleTextError, NamedJob, read_bundle};
use s390x_tool::{bundle_refused, no_memory, syntax};
use std::alloc::{AllocError, Global};

/// The answer to `objects` and its whole input.
pub fn objects(alloc: Global, input: &[u8]) -> BinaryReply
    requires { length input.now < too_many }
    ensures { IsObjectsAnswer input.now result.status (cow_slice_items result.text) }
{
    match read_bundle(alloc, input) {
        Ok(functions) => objects_of_functions(alloc, input, functions),
        Err(BundleTextError::Syntax { line }) => shared_reply(syntax(alloc, line)),
        Err(BundleTextError::NoMemory) => shared_reply(no_memory()),
    }
}

// The answer to these functions, which are those of the input.
fn objects_of_functions(alloc: Global, input: &[u8], functions: Vec<NamedJob>) -> BinaryReply
    requires { AreFunctionsOf input.now functions.items }
    ensures { IsObjectsAnswer input.now result.status (cow_slice_items result.text) }
{
    match members_of(alloc, functions) {
        Ok(members) => objects_of_members(alloc, &members),
        Err(_) => shared_reply(no_memory()),
    }
}

// The reply to members.
fn objects_of_members(alloc: Global, members: &[Member]) -> BinaryReply
    ensures { IsObjectsReply members.now result.status (cow_slice_items result.text) }
{
    match coded_members(alloc, members) {
        Ok(objects) => objects_of_codes(alloc, members, &objects),
        Err(error) => shared_reply(bundle_refused(alloc, error)),
    }
}

// The reply to members with these codes, no two of a name.
fn objects_of_codes(alloc: Global, members: &[Member], objects: &[ObjectMember]) -> BinaryReply
    requires names { duplicate_of members.now ≡ None }
    requires are { AreObjectMembers members.now objects.now }
    ensures { IsObjectsReply members.now result.status (cow_slice_items result.text) }
{
    match s390x_elf::objects(alloc, objects) {
        Ok(file) => with_file(file),
        Err(error) => object_refused(error),
    }
}

// The members by their names in objects, with their finished codes, where no name comes twice.
fn coded_members(alloc: Global, members: &[Member]) -> Result<Vec<ObjectMember>, BundleError>
    ensures { MatchResult result
        (λ objects. (duplicate_of members.now ≡ None) × AreObjectMembers members.now objects.items)
        (HasNoCodes members.now) }
{
    match duplicate_name(alloc, members) {
        Ok(None) => emit_members(alloc, members),
        Ok(Some(name)) => Err(BundleError::DuplicateName { name }),
        Err(_) => Err(BundleError::NoMemory),
    }
}

// The members by their names in objects, with their finished codes.
fn emit_members(alloc: Global, members: &[Member]) -> Result<Vec<ObjectMember>, BundleError>
    ensures { MatchResult result (λ objects. AreObjectMembers members.now objects.items)
        (HasNoCode (first_refused members.now)) }
{
    let mut objects = Vec::new(alloc);
    for member in members {
        let object = emit_member(alloc, member)?;
        if objects.push(object).is_err() {
            return Err(BundleError::NoMemory);
        }
    }
    Ok(objects)
}

// The member by its name in objects, with its finished code.
fn emit_member(alloc: Global, member: &Member) -> Result<ObjectMember, BundleError>
    ensures { MatchResult result (IsObjectMember member.now)
        (HasNoCode (refused_or member.now.name (emit_cause member.now) None)) }
{
    match emit_function(alloc, &member.function, &member.info, member.state) {
        Ok(code) => match object_member(alloc, member.name, code) {
            Ok(object) => Ok(object),
            Err(_) => Err(BundleError::NoMemory),
        },
        Err(EmitError::NoMemory) => Err(BundleError::NoMemory),
        Err(error) => Err(BundleError::Emit {
            name: member.name,
            error,
        }),
    }
}

// The code by a function's name in objects.
fn object_member(
    alloc: Global,
    name: ExternalName,
    code: MachBufferFinalized,
) -> Result<ObjectMember, AllocError>
    ensures { IfOk result
        (λ object. (string_bytes object.name ≡ symbol_name name) × (object.code ≡ code)) }
{
    let name = format!(in alloc; "u{}", name.0)?;
    Ok(ObjectMember { name, code })
}
