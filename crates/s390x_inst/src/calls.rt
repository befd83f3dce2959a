//! Calls, arguments, results and symbols.

use s390x_base::{ExternalName, MachLabel, PRegSet, Reg, ValueType, Writable};

/// The target of a call.
#[derive(Clone, Copy, PartialEq, Eq, Debug)]
pub enum CallInstDest {
    Direct { name: ExternalName },
    Indirect { reg: Reg },
}

/// A calling convention.
#[derive(Clone, Copy, PartialEq, Eq, Debug)]
pub enum CallConv {
    Fast,
    Tail,
    SystemV,
}

/// An argument: the virtual register that holds it, and the real one that the convention wants.
#[derive(Clone, Copy, PartialEq, Eq, Debug)]
pub struct CallArgPair {
    pub vreg: Reg,
    pub preg: Reg,
}

/// Where a result comes back: in a register, or at an offset into the outgoing arguments.
#[derive(Clone, Copy, PartialEq, Eq, Debug)]
pub enum RetLocation {
    Reg(Reg, ValueType),
    Stack(i64, ValueType),
}

/// A result: the virtual register that takes it, and where it comes back.
#[derive(Clone, Copy, PartialEq, Eq, Debug)]
pub struct CallRetPair {
    pub vreg: Writable<Reg>,
    pub location: RetLocation,
}

/// A handler of exceptions at a call.
#[derive(Clone, Copy, PartialEq, Eq, Debug)]
pub enum TryCallHandler {
    Tag { tag: u32, label: MachLabel },
    Default { label: MachLabel },
}

/// Where a call with handlers goes on.
#[derive(Debug, Drop)]
pub struct TryCallInfo {
    pub continuation: MachLabel,
    pub exception_handlers: Vec<TryCallHandler>,
}

/// What is known of a call.
#[derive(Debug, Drop)]
pub struct CallInfo {
    pub dest: CallInstDest,
    pub uses: Vec<CallArgPair>,
    pub defs: Vec<CallRetPair>,
    pub clobbers: PRegSet,
    /// How many bytes of arguments the callee takes from the stack.
    pub callee_pop_size: u32,
    pub caller_conv: CallConv,
    pub callee_conv: CallConv,
    pub try_call_info: Option<TryCallInfo>,
    pub patchable: bool,
    pub stack_map: Option<u32>,
}

/// What is known of a tail call.
#[derive(Debug, Drop)]
pub struct ReturnCallInfo<T> {
    pub dest: T,
    pub uses: Vec<CallArgPair>,
    pub callee_pop_size: u32,
}

/// An argument as it comes in.
#[derive(Clone, Copy, PartialEq, Eq, Debug)]
pub struct ArgPair {
    pub vreg: Writable<Reg>,
    pub preg: Reg,
}

/// A result as it goes out.
#[derive(Clone, Copy, PartialEq, Eq, Debug)]
pub struct RetPair {
    pub vreg: Reg,
    pub preg: Reg,
}

/// What an eight-byte relocation names.
#[derive(Clone, Copy, PartialEq, Eq, Debug)]
pub enum SymbolReloc {
    Absolute { name: ExternalName, offset: i64 },
}
