//! A job: a function with the machine that it is emitted for, and what a run of it starts with.

use s390x_base::ExternalName;
use s390x_inst::{AllocatedFunction, CallConv, EmitInfo, EmitState};
use thiserror::Error;

/// The address of a symbol.
#[derive(Clone, Copy)]
pub struct SymbolLine {
    pub name: ExternalName,
    pub address: u64,
}

/// What the registers hold when a run starts.
#[derive(Clone, Copy)]
pub struct StartRegs {
    pub general: [u64; 16],
    pub vector: [u128; 32],
}

/// What a region of memory holds when a run starts.
#[derive(Drop)]
pub struct MemLine {
    pub address: u64,
    pub bytes: Vec<u8>,
}

/// A function and all that its emission, its linking and its run need.
#[derive(Drop)]
pub struct Job {
    pub function: AllocatedFunction,
    pub info: EmitInfo,
    pub conv: CallConv,
    pub state: EmitState,
    pub symbols: Vec<SymbolLine>,
    pub registers: StartRegs,
    pub memory: Vec<MemLine>,
}

/// Why bytes are not read as a job.
#[derive(Debug, Drop, Error)]
pub enum LineError {
    /// They are the text of no job. The line is 1 plus the greatest k that is 0 or for which the first k lines can be
    /// completed to the text of a job, by the lines `endloop` and `end` that they lack.
    #[error("syntax {line}")]
    Syntax { line: u32 },
    /// No memory.
    #[error("no memory")]
    NoMemory,
}
