//! Reading a line of a step: `BYTES HOW c=CODE rN=HEX vN=HEX mADDRESS=HEX .. > c=CODE ..`. It has an instruction's bytes, from where its step is known, what
//! registers and memory hold before it, and what of that is another after it, `p=HEX` where the next address isn't the one behind the instruction.
//! Registers that aren't named are zero before it. Behind `>` stands the name of a stop, or `norow`, where the step doesn't go.
//! A line of a row, `BYTES row FACILITY STEM`, has an instruction's bytes, the facility that it needs, and what its row's mnemonics begin with.
ghost use Rattle.std.specs.Prelude.{◌<◌, ◌≤◌, length, IfOk};

use crate::contents::{Contents, FreeBits};
use crate::known_row::KnownRow;
use crate::known_step::KnownStep;
use crate::region::Region;
use s390x_case_runner::LineError;
use s390x_format::Facility;
use s390x_job_fields::bytes::{bytes, hex_number};
use s390x_job_fields::number::{first_byte, natural, tail};
use s390x_job_fields::separators::{after_word, from_separator, until_separator, word};
use s390x_machine::{Machine, StepEnd};
use s390x_operations::StopKind;
use std::alloc::Global;

/// The address of the instruction.
const PLACE: u64 = 0x1000;

/// Whether a line tells of a row.
pub fn tells_row(line: &[u8]) -> bool {
    word(from_separator(line)) == b"row".as_slice()
}

/// Reads a line of a row.
pub fn read_row<'a>(alloc: Global, line: &'a [u8]) -> Result<KnownRow<'a>, LineError> {
    let told = after_word(from_separator(line));
    let Some(facility) = facility_named(word(told)) else {
        return Err(LineError::Unreadable);
    };
    let code = hex_bytes(alloc, until_separator(line))?;
    let stem = word(after_word(told));
    Ok(KnownRow {
        code,
        facility,
        stem,
    })
}

// The facility of this name.
fn facility_named(name: &[u8]) -> Option<Facility> {
    if name == b"base".as_slice() {
        Some(Facility::Base)
    } else if name == b"mie3".as_slice() {
        Some(Facility::Mie3)
    } else if name == b"mie4".as_slice() {
        Some(Facility::Mie4)
    } else if name == b"vxrs_ext2".as_slice() {
        Some(Facility::VxrsExt2)
    } else if name == b"vxrs_ext3".as_slice() {
        Some(Facility::VxrsExt3)
    } else {
        None
    }
}

/// Reads a line of a step.
pub fn read_step(alloc: Global, line: &[u8]) -> Result<KnownStep, LineError> {
    let source = from_separator(line);
    if !is_source(word(source)) {
        return Err(LineError::Unreadable);
    }
    let code = hex_bytes(alloc, until_separator(line))?;
    let behind = PLACE.wrapping_add(code.len() as u64);
    let mut before = Contents {
        machine: Machine::new(PLACE),
        free: FreeBits {
            register: 0,
            bits: 0,
        },
        regions: Vec::new(alloc),
    };
    put_region(&mut before, PLACE, code)?;
    let rest = read_words(alloc, &mut before, after_word(source))?;
    if first_byte(rest) != b' ' {
        return Err(LineError::Unreadable);
    }
    read_end(alloc, before, behind, after_word(rest))
}

// Reads what stands behind `>`: how the step ends, where it doesn't go to the place behind it, and what is another then.
fn read_end(
    alloc: Global,
    before: Contents,
    behind: u64,
    told: &[u8],
) -> Result<KnownStep, LineError> {
    let mut after = before.duplicate(alloc)?;
    let stop = stop_of(word(told), before.machine.place);
    let told = match stop {
        Some(_) => after_word(told),
        None => told,
    };
    if stop.is_none() {
        after.machine.place = behind;
    }
    if !read_words(alloc, &mut after, told)?.is_empty() {
        return Err(LineError::Unreadable);
    }
    let end = stop.unwrap_or(StepEnd::Went);
    Ok(KnownStep { before, end, after })
}

// How a step at a place ends by the name of a stop, or without a row.
fn stop_of(name: &[u8], place: u64) -> Option<StepEnd> {
    if name == b"norow".as_slice() {
        return Some(StepEnd::NoRow);
    }
    Some(StepEnd::Stopped(kind_of(name)?, place))
}

// The kind of a stop by its name.
fn kind_of(name: &[u8]) -> Option<StopKind> {
    if name == b"Operation".as_slice() {
        Some(StopKind::Operation)
    } else if name == b"Access".as_slice() {
        Some(StopKind::Access)
    } else if name == b"Specification".as_slice() {
        Some(StopKind::Specification)
    } else if name == b"Divide".as_slice() {
        Some(StopKind::Divide)
    } else if name == b"CompareTrap".as_slice() {
        Some(StopKind::CompareTrap)
    } else {
        None
    }
}

// Whether a word says from where a step is known, or that it is known to be wrong.
fn is_source(name: &[u8]) -> bool {
    name == b"emulator".as_slice() || name == b"manual".as_slice() || name == b"wrong".as_slice()
}

// Reads words up to `>` or to the end, and gives what follows them. The first one is the condition code.
fn read_words<'a>(
    alloc: Global,
    contents: &mut Contents,
    text: &'a [u8],
) -> Result<&'a [u8], LineError> {
    if word(text) != b"c".as_slice() {
        return Err(LineError::Unreadable);
    }
    let mut rest = text;
    for _ in 0..text.len() {
        if rest.is_empty() || word(rest) == b">".as_slice() {
            return Ok(rest);
        }
        let value = after_word(rest);
        if first_byte(rest) != b' ' || first_byte(value) != b'=' {
            return Err(LineError::Unreadable);
        }
        put_word(alloc, contents, word(rest), word(value))?;
        rest = after_word(value);
    }
    Ok(rest)
}

// What is named gets a value.
fn put_word(
    alloc: Global,
    contents: &mut Contents,
    name: &[u8],
    value: &[u8],
) -> Result<(), LineError> {
    let number = tail(name, 1);
    match first_byte(name) {
        b'c' => {
            contents.machine.cc = below(value, 4)? as u8;
        }
        b'r' => {
            let register = below(number, 16)?;
            contents.machine.regs[register] = doubleword(value)?;
        }
        b'v' => {
            let register = below(number, 32)?;
            contents.machine.vregs[register] = hex(value)?;
        }
        b'f' => {
            let register = below(number, 32)?;
            let bits = hex(value)?;
            contents.free = FreeBits { register, bits };
        }
        b'p' => {
            contents.machine.place = doubleword(value)?;
        }
        b'm' => {
            let address = doubleword(number)?;
            let bytes = hex_bytes(alloc, value)?;
            put_region(contents, address, bytes)?;
        }
        _ => return Err(LineError::Unreadable),
    }
    Ok(())
}

// Memory has bytes from an address on.
fn put_region(contents: &mut Contents, address: u64, bytes: Vec<u8>) -> Result<(), LineError> {
    let behind_first = (bytes.len() as u64).saturating_sub(1);
    if u64::MAX - address < behind_first {
        return Err(LineError::Unreadable);
    }
    match contents.regions.push(Region { address, bytes }) {
        Ok(()) => Ok(()),
        Err(_) => Err(LineError::NoMemory),
    }
}

// A decimal number below a limit.
fn below(word: &[u8], limit: usize) -> Result<usize, LineError>
    ensures { IfOk result (λ n. n < limit) }
{
    if word.is_empty() || word.len() > 2 {
        return Err(LineError::Unreadable);
    }
    for x in word {
        if *x < b'0' || b'9' < *x {
            return Err(LineError::Unreadable);
        }
    }
    let number = natural(word) as usize;
    if number < limit {
        Ok(number)
    } else {
        Err(LineError::Unreadable)
    }
}

// A hexadecimal number below 2^64.
fn doubleword(word: &[u8]) -> Result<u64, LineError> {
    u64::try_from(hex(word)?).map_err(|_| LineError::Unreadable)
}

// A hexadecimal number.
fn hex(word: &[u8]) -> Result<u128, LineError> {
    if is_hex(word) && word.len() <= 32 {
        Ok(hex_number(word))
    } else {
        Err(LineError::Unreadable)
    }
}

// Bytes in hexadecimal digits.
fn hex_bytes(alloc: Global, word: &[u8]) -> Result<Vec<u8>, LineError> {
    if is_hex(word) && word.len() % 2 == 0 {
        Ok(bytes(alloc, word)?)
    } else {
        Err(LineError::Unreadable)
    }
}

// Whether these are hexadecimal digits.
fn is_hex(word: &[u8]) -> bool {
    for x in word {
        let is_digit = b'0' <= *x && *x <= b'9' || b'a' <= *x && *x <= b'f';
        if !is_digit {
            return false;
        }
    }
    !word.is_empty()
}
