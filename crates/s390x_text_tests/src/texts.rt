//! A line: a job, a tab, and the texts of its instructions, in which ` / ` stands for the end of a line. Where ` ~ ` stands before what is told, it is one of the
//! machine instructions that are joined by ` ; `.

use s390x_case_runner::LineError;
use s390x_inst::{EmitInfo, EmitState, Inst};
use s390x_job::read_lines;
use s390x_text::{TextError, pretty_print_inst};
use std::alloc::Global;

/// Whether the texts are those that the line tells.
pub fn is_line_met(alloc: Global, line: &str) -> Result<bool, LineError> {
    let Some((job, told)) = line.split_once('\t') else {
        return Err(LineError::Unreadable);
    };
    let texts = texts_of(alloc, job)?;
    match told.strip_prefix("~ ") {
        None => Ok(texts.as_str() == told),
        Some(part) => Ok(has_part(texts.as_str(), part)),
    }
}

// Whether a machine instruction is among those of a text.
fn has_part(text: &str, part: &str) -> bool {
    for instruction in text.split(" ; ") {
        if instruction == part {
            return true;
        }
    }
    false
}

// The texts of a job's instructions, in order.
fn texts_of(alloc: Global, job: &str) -> Result<String, LineError> {
    let mut lines = job.replace(alloc, " / ", "\n")?;
    lines.push_str("\n")?;
    if lines.len() >= 4294967295 {
        return Err(LineError::Unreadable);
    }
    let Ok(job) = read_lines(alloc, lines.as_bytes()) else {
        return Err(LineError::Unreadable);
    };
    let mut state = job.state;
    let mut texts = String::new(alloc);
    for block in &job.function.blocks {
        for inst in &block.insts {
            put_text(alloc, &mut texts, inst, &job.info, &mut state)?;
        }
    }
    Ok(texts)
}

// Appends the text of an instruction, or the name of its cause of refusal.
fn put_text(
    alloc: Global,
    texts: &mut String,
    inst: &Inst,
    info: &EmitInfo,
    state: &mut EmitState,
) -> Result<(), LineError> {
    if !texts.is_empty() {
        texts.push_str(" / ")?;
    }
    match pretty_print_inst(alloc, inst, info, state) {
        Ok(text) => texts.push_str(text.as_str())?,
        Err(TextError::NoMemory) => return Err(LineError::NoMemory),
        Err(error) => texts.push_str(format!(in alloc; "{error:?}")?.as_str())?,
    }
    Ok(())
}
