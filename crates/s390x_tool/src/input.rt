//! Reading the whole input.
ghost use Rattle.std.specs.Prelude.{◌≡◌, ◌+◌, ◌≤◌, ◌<◌, length, take, drop, vec_len, IfOk, IfErr, OnOk, OnErr, IsErrOf, ◌⊎◌};
ghost use Rattle.std.specs.Io.KnownBytes.{Consumes, IsAtEnd, Keeps};
ghost use Rattle.s390x_tool.specs.Causes.{HasCause, FaultCountRose};
ghost use Rattle.s390x_tool.specs.Ends.{IsPartRead, IsRead, IsTooLong, most_bytes, too_many};

use crate::ends::{Failed, Source};
use std::alloc::{AllocError, Global};

/// The greatest number of bytes of an input.
pub const MOST_BYTES: usize = 16_777_216;

// How many bytes are read at first: most inputs have fewer.
const FIRST_PIECE: usize = 65_536;

// How many bytes are read at a time behind those. What is read fewer was filled for nothing.
const NEXT_PIECE: usize = 16_384;

// How much room a full list gets at least. From 131072 bytes on the C library moves a list's pages, and copies nothing.
const ROOM: usize = 262_144;

/// Why the input isn't there.
#[derive(Clone, Copy)]
pub enum InputError {
    /// A read failed.
    Fault,
    /// More than `MOST_BYTES` bytes came.
    TooLong,
    /// No memory.
    NoMemory,
}

/// Reads the source to its end. Each read but the last takes at least one byte, so there are at most 16777217 of them.
/// It doesn't read after the end, nor after a failed read, nor once too many bytes came.
#[tactic(auto, using(crate::proofs::Parts::front_read, crate::proofs::Parts::front_kept, crate::proofs::Parts::front_too_long))]
pub fn read_input<S: Source>(alloc: Global, source: &mut S) -> Result<Vec<u8>, InputError>
    ensures whole { IfOk result
        (λ input. IsRead (S.left source.old) (S.left source.new) input.items) }
    ensures too_long { IsErrOf result InputError.TooLong
        → IsTooLong (S.left source.old) (S.left source.new) }
    ensures fault { IsErrOf result InputError.Fault
        → FaultCountRose (S.faults source.old) (S.faults source.new) }
    ensures failed { IsErrOf result InputError.Fault
        → IsPartRead (S.left source.old) (S.left source.new) most_bytes }
    ensures stopped { IsErrOf result InputError.NoMemory
        → IsPartRead (S.left source.old) (S.left source.new) too_many }
    ensures no_fault { IsErrOf result InputError.Fault
        ⊎ (S.faults source.new ≡ S.faults source.old) }
    ensures later { S.faults source.old ≤ S.faults source.new }
{
    let mut input = Vec::new(alloc);
    let mut held = 0;
    while held <= MOST_BYTES {
        make_room(&mut input, held)?;
        let count = read_piece(source, &mut input, held)?;
        held += count;
        if count == 0 {
            input.truncate(held);
            return Ok(input);
        }
    }
    Err(InputError::TooLong)
}

// Sees that there is a place behind the first `held` bytes, unless there are as many as an input may have at most, and one more.
fn make_room(input: &mut Vec<u8>, held: usize) -> Result<(), InputError>
    requires held { held ≤ vec_len input.old }
    requires within { held ≤ most_bytes }
    requires bound { vec_len input.old ≤ too_many }
    ensures kept { take held input.new.items ≡ take held input.old.items }
    ensures bound { vec_len input.new ≤ too_many }
    ensures room { IfOk result (λ _. held < vec_len input.new) }
    ensures memory { IfErr result (λ e. e ≡ InputError.NoMemory) }
{
    if held < input.len() {
        return Ok(());
    }
    match put_zeros(input, held) {
        Ok(()) => Ok(()),
        Err(_) => Err(InputError::NoMemory),
    }
}

// Puts zeros behind the first `held` bytes, which are all.
fn put_zeros(input: &mut Vec<u8>, held: usize) -> Result<(), AllocError>
    requires full { vec_len input.old ≡ held }
    requires within { held ≤ most_bytes }
    ensures kept { take held input.new.items ≡ take held input.old.items }
    ensures bound { vec_len input.new ≤ too_many }
    ensures room { OnOk result (held < vec_len input.new) }
{
    input.reserve(ROOM)?;
    input.resize((held + NEXT_PIECE).max(FIRST_PIECE).min(MOST_BYTES + 1), 0)
}

// Reads once, to the places behind the first `held` bytes: nothing only at the end.
fn read_piece<S: Source>(source: &mut S, input: &mut [u8], held: usize) -> Result<usize, InputError>
    requires { held < length input.old }
    ensures size { length input.new ≡ length input.old }
    ensures kept { take held input.new ≡ take held input.old }
    ensures bound { IfOk result (λ n. held + n ≤ length input.new) }
    ensures came { IfOk result
        (λ n. Consumes (S.left source.old) (S.left source.new) (take n (drop held input.new))) }
    ensures end { IfOk result (λ n. n ≡ 0 → IsAtEnd (S.left source.new)) }
    ensures same { OnOk result (S.faults source.new ≡ S.faults source.old) }
    ensures fault { IfErr result (λ e. e ≡ InputError.Fault) }
    ensures rose { OnErr result (FaultCountRose (S.faults source.old) (S.faults source.new)) }
    ensures failed { OnErr result (Keeps (S.left source.old) (S.left source.new)) }
    ensures later { S.faults source.old ≤ S.faults source.new }
{
    let piece = &mut input[held..];
    let Ok(count) = source.read(piece) else {
        return Err(InputError::Fault);
    };
    Ok(count)
}
