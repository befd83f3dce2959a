//! Printing the line of each part of a job.
ghost use Rattle.std.specs.Prelude.{◌≡◌, ◌++◌, OnOk, string_bytes};
ghost use Rattle.s390x_job_lines.specs.Line.{line_text};
ghost use Rattle.s390x_job.specs.Items.{item_line, frame_line};

use crate::heading::put_frame;
use crate::item::Item;
use s390x_inst::{CallConv, FrameLayout};
use s390x_job_lines::{LineName, line0, line1, line2, put_inst};
use std::alloc::{AllocError, Global};

/// Appends a line `frame`, without the line feed.
pub fn put_frame_line(
    alloc: Global,
    out: &mut String,
    conv: CallConv,
    layout: &FrameLayout,
) -> Result<(), AllocError>
    ensures { OnOk result
        (string_bytes out.new ≡ string_bytes out.old ++ line_text (frame_line conv layout.now)) }
{
    line0(out, LineName::FrameLine)?;
    put_frame(alloc, out, conv, layout)
}

/// Appends the line of a part of a job, without the line feed.
pub fn put_item(alloc: Global, out: &mut String, i: &Item) -> Result<(), AllocError>
    ensures { OnOk result
        (string_bytes out.new ≡ string_bytes out.old ++ line_text (item_line i.now)) }
{
    match i {
        Item::Flags(flags) => line1(alloc, out, LineName::FlagsLine, flags),
        Item::Frame(frame) => put_frame_line(alloc, out, frame.conv, &frame.layout),
        Item::Constant(c) => line2(alloc, out, LineName::ConstantLine, &c.align, &c.bytes),
        Item::Symbol(s) => line2(alloc, out, LineName::SymbolLine, &s.name, &s.address),
        Item::General(start) => line1(alloc, out, LineName::RegisterLine, start),
        Item::Vector(start) => line1(alloc, out, LineName::RegisterLine, start),
        Item::Memory(m) => line2(alloc, out, LineName::MemoryLine, &m.address, &m.bytes),
        Item::Block => line0(out, LineName::BlockLine),
        Item::Open(cond) => line1(alloc, out, LineName::Loop, cond),
        Item::Close => line0(out, LineName::EndLoopLine),
        Item::End => line0(out, LineName::EndLine),
        Item::One(i) => put_inst(alloc, out, i),
    }
}
