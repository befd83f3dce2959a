//! How many bytes the end of a block takes off its last instruction.
ghost use Rattle.std.specs.Prelude.{◌≡◌, ◌≤◌};
ghost use Rattle.s390x_emit_int.specs.BlockEnds.{bytes_to, continuation_bytes, instruction_bytes, last_bytes};
ghost use Rattle.s390x_emit_int.specs.Function.{number_of_next};

use s390x_base::MachLabel;
use s390x_inst::{Inst, TryCallInfo};

// The bytes of a branch to a label, where that is the next block's.
fn bytes_to(next: Option<MachLabel>, target: MachLabel) -> u64
    ensures value { result ≡ bytes_to (number_of_next next) target.0 }
    ensures few { result ≤ 6 }
{
    match next {
        Some(next) => { if target.0 == next.0 { 6 } else { 0 } }
        None => 0,
    }
}

// Those of the jump of a call with a try.
fn continuation_bytes(next: Option<MachLabel>, info: &Option<TryCallInfo>) -> u64
    ensures value { result ≡ continuation_bytes (number_of_next next) info.now }
    ensures few { result ≤ 6 }
{
    match info {
        Some(info) => bytes_to(next, info.continuation),
        None => 0,
    }
}

// Those of an instruction's branches.
fn instruction_bytes(next: Option<MachLabel>, inst: &Inst) -> u64
    ensures value { result ≡ instruction_bytes (number_of_next next) inst.now }
    ensures few { result ≤ 12 }
{
    match inst {
        Inst::Jump { dest } => bytes_to(next, *dest),
        Inst::CondBr {
            taken,
            not_taken,
            ..
        } => bytes_to(next, *taken) + bytes_to(next, *not_taken),
        Inst::Call { info, .. } => continuation_bytes(next, &info.try_call_info),
        _ => 0,
    }
}

/// How many bytes the end of a block takes off, before the next block, where there is one.
pub fn folded_bytes(next: Option<MachLabel>, insts: &[Inst]) -> u64
    ensures value { result ≡ last_bytes (number_of_next next) insts.now }
    ensures few { result ≤ 12 }
{
    match insts.last() {
        Some(inst) => instruction_bytes(next, inst),
        None => 0,
    }
}
