//! The text of an execution.
ghost use Rattle.std.specs.Prelude.{◌≡◌, ℕ, Bool, ◌+◌, ◌^◌, ◌<◌, ◌≤◌, ◌++◌, IfOk, IsTrue, None, OnOk, length, map, string_bytes};
ghost use Rattle.s390x_operations.specs.State.{bytes_at, wrapping_add64};
ghost use Rattle.s390x_operations.specs.Effects.{number_of_code};
ghost use Rattle.s390x_typed_steps.specs.Traps.{first_code};
ghost use Rattle.s390x_machine.specs.Codes.{trap_code_at};
ghost use Rattle.s390x_machine.specs.State.{memory_of, registers_of, state_of};
ghost use Rattle.s390x_job.specs.Jobs.{IsJob, lines_text};
ghost use Rattle.s390x_execution.specs.Text.{AllHeld, IsRunText, code_text, content_lines, execution_end_line, execution_text, stop_kind_text, region_line, status_lines, went_line};

use crate::execution::{End, Execution, execute};
use crate::start::{start_machine, start_memory};
use s390x_base::{NoMemory, TrapCode};
use s390x_buffer::{MachBufferFinalized, TrapEntry};
use s390x_image::Image;
use s390x_job::{Job, MemLine, StartRegs, put_registers};
use s390x_job_fields::atoms::put_trap;
use s390x_job_lines::{LineName, line2};
use s390x_machine::{Machine, Memory, code_at};
use s390x_operations::{ConditionCode, StopKind};
use std::alloc::{AllocError, Global};

/// Code, and the address at which it stands.
#[derive(Clone, Copy)]
pub struct Located<'a> {
    pub base: u64,
    pub code: &'a MachBufferFinalized,
}

/// Executes a job's image, by at most so many steps, and tells how it went.
///
/// The machine starts at the image's base with the job's registers; the memory has the job's regions, and the image over them.
/// The lines of the text: `went W` with the number of steps that went; `limit` where all of them went, else
/// `stop KIND PLACE CODE` where the next step stops (`CODE` is that of the table of traps, `-` for none and for a place outside
/// the image), or `norow PLACE` at a row that isn't computed; `place P`; `cc C`; and then, as in the text of a job,
/// `reg R V` for each register that isn't zero, and `mem ADDRESS HEX` for each of the job's regions, with what the memory holds.
/// `NoMemory` comes for want of memory alone.
pub fn run_text(
    alloc: Global,
    job: &Job,
    code: &MachBufferFinalized,
    image: &Image,
    steps: u32,
) -> Result<String, NoMemory>
    requires job { IsJob job.now }
    requires image { image.now.base + length image.now.bytes.items ≤ 2 ^ 64 }
    ensures { IfOk result
        (λ text. IsRunText image.now.base steps job.now code.now image.now.bytes.items
        (string_bytes text)) }
{
    let mut memory = start_memory(alloc, &job.memory, image)?;
    let mut machine = start_machine(image.base, &job.registers);
    let execution = execute(&mut machine, &mut memory, steps);
    let located = Located {
        base: image.base,
        code,
    };
    match text_of_execution(alloc, located, &job.memory, &execution, &machine, &memory) {
        Ok(text) => Ok(text),
        Err(_) => Err(NoMemory),
    }
}

// The text of an execution that ended so.
fn text_of_execution<M: Memory>(
    alloc: Global,
    located: Located,
    regions: &[MemLine],
    execution: &Execution,
    machine: &Machine,
    memory: &M,
) -> Result<String, AllocError>
    requires { AllHeld (M.held memory.now) regions.now }
    ensures { IfOk result
        (λ text. string_bytes text
        ≡ execution_text located.entry.base located.entry.code.now regions.now execution.now
        (state_of machine.now (M.held memory.now) (M.byte memory.now))) }
{
    let mut out = String::new(alloc);
    put_went(&mut out, execution.went)?;
    put_end(&mut out, located.base, located.code, execution.end)?;
    put_status(&mut out, machine)?;
    put_contents(alloc, &mut out, regions, machine, memory)?;
    Ok(out)
}

// How many steps went.
fn put_went(out: &mut String, went: u32) -> Result<(), AllocError>
    ensures { OnOk result (string_bytes out.new ≡ string_bytes out.old ++ went_line went) }
{
    writeln!(out, "went {went}")
}

// How the execution ended.
fn put_end(
    out: &mut String,
    base: u64,
    code: &MachBufferFinalized,
    end: End,
) -> Result<(), AllocError>
    ensures { OnOk result
        (string_bytes out.new ≡ string_bytes out.old ++ execution_end_line base code.now end) }
{
    match end {
        End::Limit => out.push_str("limit\n"),
        End::Stopped { kind, place } => {
            let name = kind_name(kind);
            write!(out, "stop {name} {place} ")?;
            put_code(out, stop_code(base, code, kind, place))?;
            out.push_str("\n")
        }
        End::NoRow { place } => writeln!(out, "norow {place}"),
    }
}

// The name of a kind of stop.
fn kind_name(kind: StopKind) -> &'static str
    ensures { result.now ≡ stop_kind_text kind }
{
    match kind {
        StopKind::Operation => "Operation",
        StopKind::Access => "Access",
        StopKind::Specification => "Specification",
        StopKind::Divide => "Divide",
        StopKind::CompareTrap => "CompareTrap",
    }
}

// The code of a stop at a place, in code that stands at a base.
#[tactic(auto, using(crate::proofs::TrapCodes::code_below, crate::proofs::TrapCodes::code_moved, crate::proofs::TrapCodes::code_far))]
fn stop_code(base: u64, code: &MachBufferFinalized, kind: StopKind, place: u64) -> Option<TrapCode>
    ensures { result
        ≡ trap_code_at (record { base = base; bytes = code.now.bytes.items }) code.now.traps.items
        place kind }
{
    if place < base {
        return None;
    }
    let offset = place - base;
    match u32::try_from(offset) {
        Ok(offset) => code_at(code, offset, kind),
        Err(_) => far_code(&code.traps, offset),
    }
}

// The code at an offset past those that an entry can have: none.
fn far_code(entries: &[TrapEntry], offset: u64) -> Option<TrapCode>
    requires { 2 ^ 32 ≤ offset }
    ensures none { result ≡ None }
    ensures beyond { (later : ℕ) → offset ≤ later → first_code entries.now later ≡ None }
{
    for entry in entries {
        if entry.offset as u64 >= offset {
            return Some(entry.code);
        }
    }
    None
}

// The name of a trap code, `-` for none.
fn put_code(out: &mut String, code: Option<TrapCode>) -> Result<(), AllocError>
    ensures { OnOk result (string_bytes out.new ≡ string_bytes out.old ++ code_text code) }
{
    match code {
        Some(code) => put_trap(out, code),
        None => out.push_str("-"),
    }
}

// The place and the condition code.
fn put_status(out: &mut String, machine: &Machine) -> Result<(), AllocError>
    ensures { (held : ℕ → Bool) (byte : ℕ → ℕ)
        → OnOk result
        (string_bytes out.new
        ≡ string_bytes out.old ++ status_lines (state_of machine.now held byte)) }
{
    let place = machine.place;
    let code = code_number(machine.condition_code());
    write!(out, "place {place}\ncc {code}\n")
}

// The number of a condition code.
fn code_number(code: ConditionCode) -> u8
    ensures { result ≡ number_of_code code }
{
    match code {
        ConditionCode::Code0 => 0,
        ConditionCode::Code1 => 1,
        ConditionCode::Code2 => 2,
        ConditionCode::Code3 => 3,
    }
}

// The registers that aren't zero, and the regions.
fn put_contents<M: Memory>(
    alloc: Global,
    out: &mut String,
    regions: &[MemLine],
    machine: &Machine,
    memory: &M,
) -> Result<(), AllocError>
    requires { AllHeld (M.held memory.now) regions.now }
    ensures { OnOk result
        (string_bytes out.new
        ≡ string_bytes out.old
        ++ lines_text
        (content_lines regions.now
        (state_of machine.now (M.held memory.now) (M.byte memory.now)))) }
{
    let general = machine.regs;
    let vector = machine.vregs;
    let registers = StartRegs { general, vector };
    put_registers(alloc, out, &registers)?;
    put_regions(alloc, out, regions, memory)
}

// The regions, with what the memory holds.
fn put_regions<M: Memory>(
    alloc: Global,
    out: &mut String,
    regions: &[MemLine],
    memory: &M,
) -> Result<(), AllocError>
    requires { AllHeld (M.held memory.now) regions.now }
    ensures { OnOk result
        (string_bytes out.new
        ≡ string_bytes out.old
        ++ lines_text
        (map (region_line (memory_of (M.held memory.now) (M.byte memory.now)))
        regions.now)) }
{
    for region in regions {
        let bytes = bytes_held(alloc, memory, region.address, region.bytes.len())?;
        line2(alloc, out, LineName::MemoryLine, &region.address, &bytes)?;
        out.push_str("\n")?;
    }
    Ok(())
}

// So many bytes from an address on.
fn bytes_held<M: Memory>(
    alloc: Global,
    memory: &M,
    address: u64,
    count: usize,
) -> Result<Vec<u8>, AllocError>
    requires { (i : ℕ) → i < count → IsTrue (M.held memory.now (wrapping_add64 address i)) }
    ensures { IfOk result (λ bytes. bytes.items ≡ bytes_at (M.byte memory.now) address count) }
{
    let mut bytes = Vec::new(alloc);
    for i in 0..count {
        bytes.push(memory.get(address.wrapping_add(i as u64)))?;
    }
    Ok(bytes)
}
