//! Lines of instructions, taken only as they are printed.
ghost use Rattle.std.specs.Prelude.{◌≡◌, ◌++◌, IfSome};
ghost use Rattle.s390x_job_lines.specs.Instructions.{inst_line};
ghost use Rattle.s390x_job_lines.specs.Names.{name_text};
ghost use Rattle.s390x_job_exact.specs.Exact.{AreFields, IsInstructionText, IsSingle};

use crate::control::{call, control};
use crate::cursor::ExactCursor;
use crate::integer::{alu_three, integer};
use crate::memory::{load, memory, store, whole_register};
use crate::vector::vector;
use s390x_inst::{Direction, Inst, LoadOp, StoreOp, WholeLayout};
use s390x_job_fields::separators::before;
use s390x_job_fields::word::Word;
use s390x_job_lines::{ControlName, IntegerName, LineName, VectorName, candidate};
use std::alloc::Global;

/// Takes this name, whose text is known.
#[inline(always)]
fn take_name(cursor: &mut ExactCursor, text: &[u8], name: LineName) -> Option<LineName>
    requires { text.now ≡ name_text name }
    ensures { IfSome result (λ n. cursor.old ≡ name_text n ++ cursor.new) }
{
    cursor.text(text)?;
    Some(name)
}

/// Takes the name of a line, which is looked for.
#[inline(always)]
fn found_name(cursor: &mut ExactCursor) -> Option<LineName>
    ensures { IfSome result (λ n. cursor.old ≡ name_text n ++ cursor.new) }
{
    let name = candidate(before(cursor.rest(), b' '));
    cursor.prefix(name.text().as_bytes())?;
    Some(name)
}

/// Takes the name of a line. A few letters tell those that compiled code has most.
#[inline(always)]
fn line_name(cursor: &mut ExactCursor) -> Option<LineName>
    ensures { IfSome result (λ n. cursor.old ≡ name_text n ++ cursor.new) }
{
    match cursor.rest() {
        [b'V', _, _, b'R', b'R', b'R', ..] => {
            take_name(cursor, b"VecRRR", LineName::Vector(VectorName::VecRRR))
        }
        [b'V', _, _, b'L', _, _, _, b' ', ..] => take_name(
            cursor,
            b"VecLoad",
            LineName::Whole(Direction::Load, WholeLayout::Straight),
        ),
        [b'V', _, _, b'S', _, _, _, _, b' ', ..] => take_name(
            cursor,
            b"VecStore",
            LineName::Whole(Direction::Store, WholeLayout::Straight),
        ),
        [b'C', b'a', ..] => take_name(cursor, b"Call", LineName::Control(ControlName::Call)),
        [b'A', _, _, b'R', b'R', b'R', ..] => {
            take_name(cursor, b"AluRRR", LineName::Integer(IntegerName::AluRRR))
        }
        [b'L', _, _, _, b'6', _, b' ', ..] => {
            take_name(cursor, b"Load64", LineName::Load(LoadOp::Load64))
        }
        [b'L', _, _, _, b'S', ..] => take_name(
            cursor,
            b"LoadSymbolReloc",
            LineName::Control(ControlName::LoadSymbolReloc),
        ),
        [b'S', _, _, _, _, b'6', _, b' ', ..] => {
            take_name(cursor, b"Store64", LineName::Store(StoreOp::Store64))
        }
        _ => found_name(cursor),
    }
}

/// Takes the fields of an instruction of this name, where it is a frequent one.
#[inline(always)]
fn fields(alloc: Global, name: LineName, cursor: &mut ExactCursor) -> Option<Inst>
    ensures line { IfSome result (λ x. AreFields name (inst_line x) cursor.old) }
    ensures single { IfSome result (λ _. IsSingle name) }
{
    match name {
        LineName::Load(op) => load(op, cursor),
        LineName::Store(op) => store(op, cursor),
        LineName::Integer(IntegerName::AluRRR) => alu_three(cursor),
        LineName::Control(ControlName::Call) => call(alloc, cursor),
        LineName::Memory(name) => memory(name, cursor),
        LineName::Integer(name) => integer(name, cursor),
        LineName::Control(name) => control(alloc, name, cursor),
        LineName::Vector(name) => vector(name, cursor),
        LineName::Whole(direction, layout) => whole_register(direction, layout, cursor),
        _ => None,
    }
}

/// The instruction whose line this is, where it is a frequent one that is read without printing it back; none says nothing.
#[tactic(auto, using(crate::proofs::Named::found))]
#[inline(never)]
pub fn exact_line(alloc: Global, w: &[u8]) -> Option<Inst>
    ensures { IfSome result (λ x. IsInstructionText (inst_line x) w.now) }
{
    let mut cursor = ExactCursor::new(w);
    let name = line_name(&mut cursor)?;
    fields(alloc, name, &mut cursor)
}
