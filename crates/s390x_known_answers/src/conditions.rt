//! The masks of comparisons, and the codes of traps.

use crate::accesses;
use crate::words::{FLOAT_COMPARISONS, INTEGER_COMPARISONS, named, number, text_of};
use s390x_base::{Cond, TrapCode};
use s390x_case_runner::LineError;
use std::alloc::Global;

/// What a call with its words answers.
pub fn answer(alloc: Global, call: &str, words: &str) -> Result<String, LineError> {
    match call {
        "from_intcc" => {
            let comparison = named(alloc, &INTEGER_COMPARISONS, words)?;
            text_of(alloc, Cond::from_intcc(comparison).bits())
        }
        "from_floatcc" => {
            let comparison = named(alloc, &FLOAT_COMPARISONS, words)?;
            text_of(alloc, Cond::from_floatcc(comparison).bits())
        }
        "trap" => {
            let code = trap_code(words)?;
            text_of(alloc, (code.kind(), code.user_code()))
        }
        "user" => user_code(alloc, words),
        _ => accesses::answer(alloc, call, words),
    }
}

// The trap code of a constant's name.
fn trap_code(name: &str) -> Result<TrapCode, LineError> {
    match name {
        "STACK_OVERFLOW" => Ok(TrapCode::STACK_OVERFLOW),
        "INTEGER_OVERFLOW" => Ok(TrapCode::INTEGER_OVERFLOW),
        "HEAP_OUT_OF_BOUNDS" => Ok(TrapCode::HEAP_OUT_OF_BOUNDS),
        "INTEGER_DIVISION_BY_ZERO" => Ok(TrapCode::INTEGER_DIVISION_BY_ZERO),
        "BAD_CONVERSION_TO_INTEGER" => Ok(TrapCode::BAD_CONVERSION_TO_INTEGER),
        _ => Err(LineError::Unreadable),
    }
}

// The number of the user code of a number, where there is one.
fn user_code(alloc: Global, word: &str) -> Result<String, LineError> {
    let Ok(number) = u8::try_from(number(word)?) else {
        return Err(LineError::Unreadable);
    };
    text_of(alloc, TrapCode::user(number).map(|code| code.user_code()))
}
