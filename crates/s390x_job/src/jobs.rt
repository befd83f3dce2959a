//! Printing a job.
ghost use Rattle.std.specs.Prelude.{◌≡◌, ◌≤◌, ◌++◌, ◌∷◌, [], OnOk, IfOk, map, length, string_bytes};
ghost use Rattle.s390x_base.specs.Registers.{general, vector};
ghost use Rattle.s390x_job_lines.specs.Instructions.{inst_line};
ghost use Rattle.s390x_job.specs.Items.{constant_line, symbol_line, memory_line};
ghost use Rattle.s390x_job.specs.Jobs.{lines_text, inst_lines, insts_lines, blocks_lines, flags_lines, frame_lines, start_lines, registers_lines, head_lines, text_of_job};

use crate::heading::{is_plain_flags, is_plain_frame};
use crate::job::{Job, MemLine, StartRegs, SymbolLine};
use crate::print_line::put_frame_line;
use s390x_base::{ConstantData, NoMemory};
use s390x_inst::{Block, CallConv, FrameLayout, Inst, IsaFlags, MachInstEmitState};
use s390x_job_fields::number::put;
use s390x_job_fields::{GeneralStart, VectorStart};
use s390x_job_lines::{LineName, line0, line1, line2, put_inst};
use std::alloc::{AllocError, Global};

fn put_name_line(out: &mut String, name: LineName) -> Result<(), AllocError>
    ensures { OnOk result
        (string_bytes out.new
        ≡ string_bytes out.old ++ lines_text (record { name = name; fields = [] } ∷ [])) }
{
    line0(out, name)?;
    put(out, "\n")
}

fn put_one(alloc: Global, out: &mut String, i: &Inst) -> Result<(), AllocError>
    ensures { OnOk result
        (string_bytes out.new ≡ string_bytes out.old ++ lines_text (inst_line i.now ∷ [])) }
{
    put_inst(alloc, out, i)?;
    put(out, "\n")
}

#[cycle(trees)]
fn put_insts(alloc: Global, out: &mut String, is: &[Inst]) -> Result<(), AllocError>
    ensures { OnOk result
        (string_bytes out.new ≡ string_bytes out.old ++ lines_text (insts_lines is.now)) }
{
    for i in is {
        put_tree(alloc, out, i)?;
    }
    Ok(())
}

/// An instruction, with the members of a loop.
#[cycle(trees)]
fn put_tree(alloc: Global, out: &mut String, i: &Inst) -> Result<(), AllocError>
    ensures { OnOk result
        (string_bytes out.new ≡ string_bytes out.old ++ lines_text (inst_lines i.now)) }
{
    put_one(alloc, out, i)?;
    match i {
        Inst::Loop { body, .. } => {
            put_insts(alloc, out, body)?;
            put_name_line(out, LineName::EndLoopLine)?;
            Ok(())
        }
        _ => Ok(()),
    }
}

fn put_blocks(alloc: Global, out: &mut String, bs: &[Block]) -> Result<(), AllocError>
    ensures { OnOk result
        (string_bytes out.new ≡ string_bytes out.old ++ lines_text (blocks_lines bs.now)) }
{
    for b in bs {
        put_name_line(out, LineName::BlockLine)?;
        put_insts(alloc, out, &b.insts)?;
    }
    Ok(())
}

fn put_flags(alloc: Global, out: &mut String, flags: IsaFlags) -> Result<(), AllocError>
    ensures { OnOk result
        (string_bytes out.new ≡ string_bytes out.old ++ lines_text (flags_lines flags)) }
{
    if is_plain_flags(alloc, flags)? {
        return Ok(());
    }
    line1(alloc, out, LineName::FlagsLine, &flags)?;
    put(out, "\n")
}

fn put_frames(
    alloc: Global,
    out: &mut String,
    conv: CallConv,
    layout: &FrameLayout,
) -> Result<(), AllocError>
    ensures { OnOk result
        (string_bytes out.new ≡ string_bytes out.old ++ lines_text (frame_lines conv layout.now)) }
{
    if is_plain_frame(alloc, conv, layout)? {
        return Ok(());
    }
    put_frame_line(alloc, out, conv, layout)?;
    put(out, "\n")
}

fn put_constants(alloc: Global, out: &mut String, cs: &[ConstantData]) -> Result<(), AllocError>
    ensures { OnOk result
        (string_bytes out.new ≡ string_bytes out.old ++ lines_text (map constant_line cs.now)) }
{
    for c in cs {
        line2(alloc, out, LineName::ConstantLine, &c.align, &c.bytes)?;
        put(out, "\n")?;
    }
    Ok(())
}

fn put_symbols(alloc: Global, out: &mut String, ss: &[SymbolLine]) -> Result<(), AllocError>
    ensures { OnOk result
        (string_bytes out.new ≡ string_bytes out.old ++ lines_text (map symbol_line ss.now)) }
{
    for s in ss {
        line2(alloc, out, LineName::SymbolLine, &s.name, &s.address)?;
        put(out, "\n")?;
    }
    Ok(())
}

fn put_regions(alloc: Global, out: &mut String, ms: &[MemLine]) -> Result<(), AllocError>
    ensures { OnOk result
        (string_bytes out.new ≡ string_bytes out.old ++ lines_text (map memory_line ms.now)) }
{
    for m in ms {
        line2(alloc, out, LineName::MemoryLine, &m.address, &m.bytes)?;
        put(out, "\n")?;
    }
    Ok(())
}

fn put_general(alloc: Global, out: &mut String, number: u8, value: u64) -> Result<(), AllocError>
    ensures { OnOk result
        (string_bytes out.new
        ≡ string_bytes out.old ++ lines_text (start_lines general number (value ∷ []))) }
{
    if value == 0 {
        return Ok(());
    }
    let start = GeneralStart { number, value };
    line1(alloc, out, LineName::RegisterLine, &start)?;
    put(out, "\n")
}

fn put_vector(alloc: Global, out: &mut String, number: u8, value: u128) -> Result<(), AllocError>
    ensures { OnOk result
        (string_bytes out.new
        ≡ string_bytes out.old ++ lines_text (start_lines vector number (value ∷ []))) }
{
    if value == 0 {
        return Ok(());
    }
    let start = VectorStart { number, value };
    line1(alloc, out, LineName::RegisterLine, &start)?;
    put(out, "\n")
}

fn put_generals(alloc: Global, out: &mut String, values: &[u64]) -> Result<(), AllocError>
    requires { length values.now ≤ 16 }
    ensures { OnOk result
        (string_bytes out.new
        ≡ string_bytes out.old ++ lines_text (start_lines general 0 values.now)) }
{
    for (n, value) in values.iter().enumerate() {
        put_general(alloc, out, n as u8, *value)?;
    }
    Ok(())
}

fn put_vectors(alloc: Global, out: &mut String, values: &[u128]) -> Result<(), AllocError>
    requires { length values.now ≤ 32 }
    ensures { OnOk result
        (string_bytes out.new
        ≡ string_bytes out.old ++ lines_text (start_lines vector 0 values.now)) }
{
    for (n, value) in values.iter().enumerate() {
        put_vector(alloc, out, n as u8, *value)?;
    }
    Ok(())
}

/// Appends a line for each register that doesn't hold zero.
pub fn put_registers(
    alloc: Global,
    out: &mut String,
    registers: &StartRegs,
) -> Result<(), AllocError>
    ensures { OnOk result
        (string_bytes out.new
        ≡ string_bytes out.old ++ lines_text (registers_lines registers.now)) }
{
    put_generals(alloc, out, &registers.general)?;
    put_vectors(alloc, out, &registers.vector)
}

/// Appends the lines before the blocks.
fn put_head(alloc: Global, out: &mut String, job: &Job) -> Result<(), AllocError>
    ensures { OnOk result
        (string_bytes out.new
        ≡ string_bytes out.old
        ++ lines_text
        (let j = job.now in
        head_lines j.info.isa_flags j.conv j.state.layout j.function.constants.items
        j.symbols.items j.registers j.memory.items)) }
{
    put_flags(alloc, out, job.info.isa_flags)?;
    put_frames(alloc, out, job.conv, job.state.frame_layout())?;
    put_constants(alloc, out, &job.function.constants)?;
    put_symbols(alloc, out, &job.symbols)?;
    put_registers(alloc, out, &job.registers)?;
    put_regions(alloc, out, &job.memory)
}

fn print_job(alloc: Global, job: &Job) -> Result<String, AllocError>
    ensures { IfOk result (λ t. string_bytes t ≡ text_of_job job.now) }
{
    let mut out = String::new(alloc);
    put_head(alloc, &mut out, job)?;
    put_blocks(alloc, &mut out, &job.function.blocks)?;
    put_name_line(&mut out, LineName::EndLine)?;
    Ok(out)
}

/// The text of a job: one line for each part, each ended by a line feed.
///
/// The lines come in this order: `flags`, where a facility is set; `frame`, where convention and layout aren't
/// `SystemV 0 0 0 0 0 0 - 0`; `const` for each constant; `symbol` for each symbol; `reg` for each register that
/// doesn't start at zero; `mem` for each region; `block` and the lines of its instructions for each block; `end`.
pub fn lines_of_job(alloc: Global, job: &Job) -> Result<String, NoMemory>
    ensures { IfOk result (λ t. string_bytes t ≡ text_of_job job.now) }
{
    match print_job(alloc, job) {
        Ok(text) => Ok(text),
        Err(_) => Err(NoMemory),
    }
}
