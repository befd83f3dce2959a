//! Reading a line of each name.
ghost use Rattle.std.specs.Prelude.{◌≡◌, IfOk, ◌<◌};
ghost use Rattle.s390x_job_lines.specs.Line.{line_with};
ghost use Rattle.s390x_job.specs.Items.{item_line, IsItem};

use crate::item::{Frame, Item};
use crate::job::{MemLine, SymbolLine};
use s390x_base::{ConstantData, RegClass};
use s390x_inst::{FrameLayout, Inst};
use s390x_job_fields::bytes::hex_number;
use s390x_job_fields::number::natural;
use s390x_job_fields::{Cursor, GeneralStart, VectorStart};
use s390x_job_lines::{LineName, control, integer, load, memory, store, vector, whole_register};
use std::alloc::{AllocError, Global};

fn frame(c: &mut Cursor) -> Frame
    ensures { item_line (Item.Frame result) ≡ line_with LineName.FrameLine c.old }
{
    Frame {
        conv: c.convention(),
        layout: FrameLayout {
            incoming_args_size: c.u32(),
            tail_args_size: c.u32(),
            clobber_size: c.u32(),
            fixed_frame_storage_size: c.u32(),
            stackslots_size: c.u32(),
            outgoing_args_size: c.u32(),
            first_saved_gpr: c.option8(),
            saved_fprs: c.u16(),
        },
    }
}

fn register(c: &mut Cursor) -> Item
    ensures line { item_line result ≡ line_with LineName.RegisterLine c.old }
    ensures is { IsItem result }
{
    let register = c.real();
    let number = register.hw_enc();
    match register.class() {
        RegClass::Int => Item::General(GeneralStart {
            number,
            value: natural(c.word()),
        }),
        RegClass::Float => Item::Vector(VectorStart {
            number,
            value: hex_number(c.word()),
        }),
    }
}

/// The part of a job that a line of this name tells, whose fields come next.
pub fn item(alloc: Global, n: LineName, c: &mut Cursor) -> Result<Item, AllocError>
    ensures line { IfOk result (λ i. item_line i ≡ line_with n c.old) }
    ensures is { IfOk result IsItem }
{
    match n {
        LineName::FlagsLine => Ok(Item::Flags(c.facilities())),
        LineName::FrameLine => Ok(Item::Frame(frame(c))),
        LineName::ConstantLine => {
            let align = c.u32();
            let bytes = c.bytes(alloc)?;
            Ok(Item::Constant(ConstantData { bytes, align }))
        }
        LineName::SymbolLine => Ok(Item::Symbol(SymbolLine {
            name: c.name(),
            address: c.u64(),
        })),
        LineName::RegisterLine => Ok(register(c)),
        LineName::MemoryLine => {
            let address = c.u64();
            let bytes = c.bytes(alloc)?;
            Ok(Item::Memory(MemLine { address, bytes }))
        }
        LineName::BlockLine => Ok(Item::Block),
        LineName::EndLoopLine => Ok(Item::Close),
        LineName::EndLine => Ok(Item::End),
        LineName::Loop => Ok(Item::Open(c.cond())),
        LineName::Integer(name) => Ok(Item::One(integer(name, c))),
        LineName::Load(op) => Ok(Item::One(load(op, c))),
        LineName::Store(op) => Ok(Item::One(store(op, c))),
        LineName::Memory(name) => Ok(Item::One(memory(name, c))),
        LineName::Control(name) => Ok(Item::One(control(alloc, name, c)?)),
        LineName::Vector(name) => Ok(Item::One(Inst::Vector(vector(name, c)))),
        LineName::Whole(direction, layout) => Ok(Item::One(Inst::Vector(whole_register(
            direction, layout, c,
        )))),
    }
}
