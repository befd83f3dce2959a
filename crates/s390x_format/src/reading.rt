//! Reading an instruction's bytes as the values in its slots.
ghost use Rattle.std.specs.Prelude.{◌≡◌, ℕ, ◌+◌, ◌-◌, ◌*◌, ◌^◌, ◌<◌, ◌≤◌, true, length, take, get_or, slice_index, IfSome, MatchOption};
ghost use Rattle.s390x_format.specs.Formats.{length_of};
ghost use Rattle.s390x_format.specs.Rows.{fetch_length_of, are_rows, rises, rows_with};
ghost use Rattle.s390x_format.specs.Reading.{be_bytes, be_number, opcode_at, rest_at, no_row, reading_in, IsLeading, IsReadAs, IsReading, IsPlacedReading};
ghost use Rattle.s390x_format.specs.Index.{is_index, are_placed, has_room};
ghost use Rattle.s390x_format.specs.declared.reading.Reading.{Reading};
ghost use Rattle.s390x_format.specs.declared.reading.LeadingBytes.{LeadingBytes};

use crate::frequent::unpack_as;
use crate::index::{FirstByte, RestPlace, row_place, search};
use crate::kind::length;
use crate::layouts::Unpacked;
use crate::row::{MachineRow, Row, allows};
use crate::steps::Steps;
use std::sync::ledger::Ledger;

/// A row and the values in its slots.
#[derive(Drop)]
pub struct Reading {
    pub row: Row,
    pub slots: [u32; 10],
}

/// A reading, and where its row stands in the table.
#[derive(Drop)]
pub struct PlacedReading {
    pub at: usize,
    pub reading: Reading,
}

/// How many bytes the instruction has that begins with this byte: 2 where its first two bits are
/// 00, 4 for 01 and 10, 6 for 11 (Principles of Operation, chapter 5, "Instruction formats").
pub fn fetch_length(first: u8) -> usize
    ensures { result ≡ fetch_length_of first }
{
    if first < 64 {
        2
    } else if first < 192 {
        4
    } else {
        6
    }
}

/// The number of a few bytes, the most significant first.
pub fn number_of(bytes: &[u8]) -> u64
    requires { length bytes.now ≤ 6 }
    ensures value { result ≡ be_number bytes.now }
    ensures below { result < 2 ^ (8 * length bytes.now) }
    ensures round_trip { be_bytes (length bytes.now) result ≡ bytes.now }
{
    let mut n: u64 = 0;
    for b in bytes {
        n = n * 256 + *b as u64;
    }
    n
}

/// The number of two bytes, the first of which stands there.
fn pair_at(bytes: &[u8], at: usize) -> u64
    requires { at + 1 < length bytes.now }
    ensures { result ≡ slice_index bytes.now at * 256 + slice_index bytes.now (at + 1) }
{
    bytes[at] as u64 * 256 + bytes[at + 1] as u64
}

/// The number of the first few bytes. Instructions have 2, 4 or 6, which are read in pairs.
fn leading_number(bytes: &[u8], count: usize) -> u64
    requires few { count ≤ 6 }
    requires enough { count ≤ length bytes.now }
    ensures value { result ≡ be_number (take count bytes.now) }
    ensures below { result < 2 ^ (8 * count) }
{
    if count == 2 {
        return pair_at(bytes, 0);
    }
    if count == 4 {
        return pair_at(bytes, 0) * 65536 + pair_at(bytes, 2);
    }
    if count == 6 {
        return (pair_at(bytes, 0) * 65536 + pair_at(bytes, 2)) * 65536 + pair_at(bytes, 4);
    }
    number_of(&bytes[..count])
}

/// The opcode of a number of `total` bits that goes on there.
fn opcode_of(rest: RestPlace, total: u8, n: u64) -> u16
    requires low { 16 ≤ total }
    requires high { total ≤ 48 }
    ensures { result ≡ opcode_at rest total n }
{
    let first = ((n >> (total - 8)) % 256) as u16;
    match rest {
        RestPlace::Nowhere => first,
        RestPlace::LowHalf => first * 16 + ((n >> (total - 16)) % 16) as u16,
        RestPlace::SecondByte => first * 256 + ((n >> (total - 16)) % 256) as u16,
        RestPlace::LastByte => first * 256 + (n % 256) as u16,
    }
}

/// The bytes with which an instruction begins, as a number.
#[derive(Clone, Copy)]
pub struct LeadingBytes {
    pub first: u8,
    pub count: usize,
    pub number: u64,
}

/// The rest of the opcode with which the bytes begin, where it stands there.
fn rest_of(rest: RestPlace, bytes: &[u8], leading: LeadingBytes) -> u8
    requires leading { IsLeading bytes.now leading }
    requires some { 2 ≤ leading.count }
    requires enough { leading.count ≤ length bytes.now }
    ensures { result ≡ rest_at rest (8 * leading.count) leading.number }
{
    match rest {
        RestPlace::Nowhere => 0,
        RestPlace::LowHalf => bytes[1] % 16,
        RestPlace::SecondByte => bytes[1],
        RestPlace::LastByte => (leading.number % 256) as u8,
    }
}

/// As many bytes as the first one tells; `None` exactly where there are fewer.
fn leading_bytes(bytes: &[u8]) -> Option<LeadingBytes>
    ensures { MatchOption result (length bytes.now < fetch_length_of (get_or bytes.now 0 0))
        (λ l. IsLeading bytes.now l) }
{
    if bytes.is_empty() {
        return None;
    }
    let first = bytes[0];
    let count = fetch_length(first);
    if bytes.len() < count {
        return None;
    }
    let number = leading_number(bytes, count);
    Some(LeadingBytes {
        first,
        count,
        number,
    })
}

/// The values of a number in the slots of a row of that many bytes.
fn read_as(row: &MachineRow, bytes: usize, n: u64) -> Option<Reading>
    requires below { n < 2 ^ (8 * bytes) }
    requires length { length_of row.now.format ≡ bytes }
    ensures sound { IfSome result (λ d. IsReadAs row.now bytes n d) }
    ensures complete { (d : Reading) → IsReadAs row.now bytes n d → result ≡ Some d }
{
    let Unpacked { slots, has_zeros } = unpack_as(row.format, n);
    if !has_zeros {
        return None;
    }
    if slots[0] != row.opcode as u32 {
        return None;
    }
    if !allows(&row.allowed, &slots) {
        return None;
    }
    Some(Reading {
        row: Row {
            format: row.format,
            opcode: row.opcode,
        },
        slots,
    })
}

/// The values of a number in the slots of the row of that many bytes at a place in the table, with the place.
fn read_at(rows: &[MachineRow], at: usize, bytes: usize, n: u64) -> Option<PlacedReading>
    requires below { n < 2 ^ (8 * bytes) }
    requires place { at < length rows.now }
    requires length { length_of (get_or rows.now at no_row).format ≡ bytes }
    ensures sound { IfSome result
        (λ p. (p.at ≡ at) × IsReadAs (get_or rows.now at no_row) bytes n p.reading) }
    ensures complete { (d : Reading) → IsReadAs (get_or rows.now at no_row) bytes n d
        → reading_in result ≡ Some d }
{
    match read_as(&rows[at], bytes, n) {
        Some(reading) => Some(PlacedReading { at, reading }),
        None => None,
    }
}

/// What `read_at` answers of a row of any length.
fn read_any(rows: &[MachineRow], at: usize, bytes: usize, n: u64) -> Option<PlacedReading>
    requires below { n < 2 ^ (8 * bytes) }
    requires place { at < length rows.now }
    ensures sound { IfSome result
        (λ p. (p.at ≡ at) × IsReadAs (get_or rows.now at no_row) bytes n p.reading) }
    ensures complete { (d : Reading) → IsReadAs (get_or rows.now at no_row) bytes n d
        → reading_in result ≡ Some d }
{
    if length(rows[at].format) != bytes {
        return None;
    }
    read_at(rows, at, bytes, n)
}

/// The row of the table that the bytes begin with, its place, and its values.
pub fn read(
    rows: &[MachineRow],
    firsts: &[FirstByte; 256],
    offsets: &[u8],
    bytes: &[u8],
) -> Option<PlacedReading>
    requires table { are_rows rows.now ≡ true }
    requires index { is_index rows.now firsts.now ≡ true }
    requires placed { are_placed 0 rows.now firsts.now offsets.now ≡ true }
    requires room { has_room firsts.now offsets.now ≡ true }
    requires few { length rows.now < 2 ^ 16 }
    ensures sound { IfSome result (λ p. IsPlacedReading rows.now bytes.now p) }
    ensures complete { (d : Reading) → IsReading rows.now bytes.now d → reading_in result ≡ Some d }
{
    match leading_bytes(bytes) {
        Some(l) => {
            let rest = rest_of(firsts[l.first as usize].rest, bytes, l);
            let at = row_place(firsts, offsets, l.first, rest);
            // All rows up to there have the first byte, which tells their length.
            if at < firsts[l.first as usize].end {
                read_at(rows, at, l.count, l.number)
            } else {
                None
            }
        }
        None => None,
    }
}

/// What `read` answers of the bytes at a place, found by halving the table of rows, with each turn in the ledger.
pub fn read_counted<L: Ledger>(
    rows: &[MachineRow],
    firsts: &[FirstByte; 256],
    bytes: &[u8],
    steps: &mut Steps<L>,
) -> Option<PlacedReading>
    requires table { are_rows rows.now ≡ true }
    requires index { is_index rows.now firsts.now ≡ true }
    requires rising { rises 0 rows.now ≡ true }
    requires few { length rows.now < 2 ^ 16 }
    ensures sound { IfSome result (λ p. IsPlacedReading rows.now bytes.now p) }
    ensures complete { (d : Reading) → IsReading rows.now bytes.now d → reading_in result ≡ Some d }
    ensures steps { steps.old ≤ steps.new }
    ensures few_steps { 2 ^ (steps.new - steps.old)
        ≤ 2 * rows_with (slice_index bytes.now 0) rows.now + 1 }
    ensures no_bytes { length bytes.now ≡ 0 → steps.new ≡ steps.old }
{
    match leading_bytes(bytes) {
        Some(l) => {
            let opcode = opcode_of(firsts[l.first as usize].rest, 8 * l.count as u8, l.number);
            match search(rows, firsts, l.first, opcode, steps) {
                Some(at) => read_any(rows, at, l.count, l.number),
                None => None,
            }
        }
        None => None,
    }
}
