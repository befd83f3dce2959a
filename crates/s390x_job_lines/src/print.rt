//! Printing the lines of instructions.
ghost use Rattle.std.specs.Prelude.{◌≡◌, ◌++◌, OnOk, string_bytes};
ghost use Rattle.s390x_job_lines.specs.Line.{line_text};
ghost use Rattle.s390x_job_lines.specs.Instructions.{inst_line, transfer_line};

use crate::inst_name::{ControlName, IntegerName, MemoryName};
use crate::name::LineName;
use crate::name::LineName::{Control, Integer, Memory};
use crate::print_call::{put_call, put_return_call};
use crate::print_vector::put_vector;
use crate::put_line::{line0, line1, line2, line3, line4, line5, line6, line7};
use crate::rows::{put_fields, put_rows};
use s390x_inst::{Inst, inst_table};
use s390x_job_fields::Part;
use std::alloc::{AllocError, Global};

// Appends the line of a load or a store of one register.
fn put_transfer(alloc: Global, out: &mut String, i: &Inst) -> Result<(), AllocError>
    ensures { OnOk result
        (string_bytes out.new ≡ string_bytes out.old ++ line_text (transfer_line i.now)) }
{
    match i.as_load() {
        Some(load) => line2(alloc, out, LineName::Load(load.op), &load.rd, &load.mem),
        None => match i.as_store() {
            Some(store) => line2(alloc, out, LineName::Store(store.op), &store.rd, &store.mem),
            None => line0(out, LineName::EndLine),
        },
    }
}

/// Appends an instruction's own line, without the line feed.
#[rattlefmt::skip]
pub fn put_inst(alloc: Global, out: &mut String, i: &Inst) -> Result<(), AllocError>
    ensures { OnOk result
        (string_bytes out.new ≡ string_bytes out.old ++ line_text (inst_line i.now)) }
{
    inst_table!(put_rows, alloc, out, i, put_transfer(alloc, out, i), {
        Inst::Fence => line0(out, Control(ControlName::Fence)),
        Inst::Nop0 => line0(out, Control(ControlName::Nop0)),
        Inst::Nop2 => line0(out, Control(ControlName::Nop2)),
        Inst::Debugtrap => line0(out, Control(ControlName::Debugtrap)),
        Inst::IndirectBr { rn, targets } => line2(alloc, out, Control(ControlName::IndirectBr), rn, targets),
        Inst::JTSequence { ridx, default, default_cond, targets } => line4(alloc, out, Control(ControlName::JTSequence), (ridx, default, default_cond, targets)),
        Inst::Loop { cond, .. } => line1(alloc, out, LineName::Loop, cond),
        Inst::Call { link, info } => put_call(alloc, out, link, info),
        Inst::ReturnCall { info } => put_return_call(alloc, out, info),
        Inst::Args { args } => line1(alloc, out, Control(ControlName::Args), args),
        Inst::Rets { rets } => line1(alloc, out, Control(ControlName::Rets), rets),
        Inst::SequencePoint => line0(out, Control(ControlName::SequencePoint)),
        Inst::Vector(v) => put_vector(alloc, out, v),
    })
}
