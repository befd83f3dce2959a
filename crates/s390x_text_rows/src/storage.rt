//! How an instruction with an operand in memory is put together: helpers, mnemonic and operands.
ghost use Rattle.std.specs.Prelude.{◌≡◌, ◌++◌, ◌∷◌, [], codes, OnOk, IfSome, None, Some, string_bytes};
ghost use Rattle.std.specs.Option.{option_map};
ghost use Rattle.s390x_typed_steps.specs.Operands.{resolved_operand};
ghost use Rattle.s390x_format.specs.Stems.{stem_of};
ghost use Rattle.s390x_text_rows.specs.Texts.{Prints, fixed_text, instruction_text};
ghost use Rattle.s390x_text_rows.specs.VectorMnemonics.{mnemonic_text};
ghost use Rattle.s390x_text_rows.specs.Storage.{memory_text, is_virtual, rx, rs, rx_of, address_rows, rows_of, has_row, type_of_rows, name_at, helper_text, helpers_text, helper_of, zero_row, zero_text, helped_at, is_taken, Opens, access_where};

use crate::error::TextError;
use crate::near_offset::{long_opcode, near_offset};
use crate::one_helper::{AtZero, helped_at, helped_operand};
use crate::operand::Operand;
use crate::piece::{put, put_integer, put_natural};
use crate::row::{fixed_lettered2, fixed2, fixed3, lettered2, spelled2, spelled3};
use crate::sum::put_sum;
use crate::vector_mnemonics::Mnemonic;
use s390x_address::{mem_finalize, needs_address};
use s390x_base::spilltmp_reg;
use s390x_format::stem;
use s390x_inst::{EmitState, Inst, MemArg};
use s390x_rows::opcodes;
use s390x_typed_steps::{MemInstType, RegisterRows};
use std::alloc::{AllocError, Global};

/// The opcodes of the rows that an instruction has by the form of its operand in memory.
#[derive(Clone, Copy)]
pub struct Rows {
    /// At a displacement of 12 bits.
    pub short: Option<u16>,
    /// At a displacement of 20 bits.
    pub long: Option<u16>,
    /// At an address relative to the instruction.
    pub relative: Option<u16>,
    /// Whether the rows have an index.
    pub index: bool,
    /// Whether they access memory.
    pub accesses: bool,
}

// An access at the displacement zero, by the row with this opcode.
#[derive(Clone, Copy)]
struct ZeroAccess {
    opcode: u16,
    at: AtZero,
}

/// An operand in memory, and where its instruction stands.
#[derive(Clone, Copy)]
pub struct Place<'a> {
    pub alloc: Global,
    /// Whether the machine has accesses relative to the instruction.
    pub has_relative: bool,
    /// The state of emission before the instruction.
    pub state: &'a EmitState,
    pub mem: &'a MemArg,
}

/// The rows of LOAD ADDRESS.
pub fn address_rows() -> Rows
    ensures { rows_of result ≡ address_rows }
{
    Rows {
        short: Some(opcodes::LA),
        long: Some(opcodes::LAY),
        relative: Some(opcodes::LARL),
        index: true,
        accesses: false,
    }
}

impl Operand for MemArg {
    ghost shown = { memory_text };

    fn put(&self, out: &mut String) -> Result<(), AllocError> {
        match self {
            MemArg::BXD12 {
                base,
                index,
                disp,
                ..
            } => {
                put_natural(out, u64::from(disp.bits()))?;
                put_sum(out, base, index)
            }
            MemArg::BXD20 {
                base,
                index,
                disp,
                ..
            } => {
                put_integer(out, i64::from(disp.value()))?;
                put_sum(out, base, index)
            }
            MemArg::Label { target } => target.put(out),
            MemArg::Constant { constant } => {
                put(out, "[const(")?;
                put_natural(out, u64::from(constant.0))?;
                put(out, ")]")
            }
            MemArg::Symbol { name, offset, .. } => {
                name.put(out)?;
                put(out, " + ")?;
                put_integer(out, i64::from(*offset))
            }
            _ => Ok(()),
        }
    }
}

/// Whether an operand is an offset from a register, or in the frame.
pub fn is_virtual(mem: &MemArg) -> bool
    ensures { result ≡ is_virtual mem.now }
{
    match mem {
        MemArg::BXD12 { .. }
        | MemArg::BXD20 { .. }
        | MemArg::Label { .. }
        | MemArg::Constant { .. }
        | MemArg::Symbol { .. } => false,
        MemArg::RegOffset { .. }
        | MemArg::InitialSPOffset { .. }
        | MemArg::IncomingArgOffset { .. }
        | MemArg::OutgoingArgOffset { .. }
        | MemArg::SlotOffset { .. }
        | MemArg::SpillOffset { .. } => true,
    }
}

impl Rows {
    // There is a row for some operand.
    fn has_row(&self) -> bool
        ensures { result ≡ has_row (rows_of self.now) }
    {
        self.short.is_some() || self.long.is_some() || self.relative.is_some()
    }

    /// The forms of an operand that the rows have, on a machine that has accesses relative to the instruction or lacks them.
    #[inline(always)]
    pub fn inst_type(&self, has_relative: bool) -> MemInstType
        ensures { result ≡ type_of_rows has_relative (rows_of self.now) }
    {
        MemInstType {
            have_d12: self.short.is_some(),
            have_d20: self.long.is_some(),
            have_pcrel: self.relative.is_some() && (has_relative || !self.accesses),
            have_unaligned_pcrel: self.relative.is_some() && !self.accesses,
            have_index: self.index,
        }
    }

    // The mnemonic at an operand; nothing where there is none.
    fn name_at(&self, mem: &MemArg) -> &'static str
        ensures { result.now ≡ name_at (rows_of self.now) mem.now }
    {
        let row = match mem {
            MemArg::BXD12 { .. } => self.short,
            MemArg::BXD20 { .. } => self.long,
            MemArg::Label { .. } | MemArg::Constant { .. } | MemArg::Symbol { .. } => self.relative,
            _ => None,
        };
        match row {
            Some(opcode) => stem(opcode),
            None => "",
        }
    }
}

/// The opcode of the row that has a displacement of zero.
#[inline(always)]
pub fn zero_row(short: Option<u16>, long: Option<u16>) -> Option<u16>
    ensures { result ≡ zero_row short long }
{
    if short.is_some() { short } else { long }
}

// An instruction that comes before an access.
fn put_helper(out: &mut String, helper: &Inst) -> Result<(), AllocError>
    ensures { OnOk result (string_bytes out.new ≡ string_bytes out.old ++ helper_text helper.now) }
{
    match helper {
        Inst::Mov64SImm32 { rd, imm } => spelled2(out, stem(opcodes::LGFI), rd, imm),
        Inst::LoadAddr { rd, mem } => spelled2(out, address_rows().name_at(mem), rd, mem),
        _ => Ok(()),
    }
}

// An instruction that comes before an access, and a semicolon behind it.
fn put_before(out: &mut String, helper: &Inst) -> Result<(), AllocError>
    ensures { OnOk result
        (string_bytes out.new ≡ string_bytes out.old ++ (helper_text helper.now ++ codes " ; ")) }
{
    put_helper(out, helper)?;
    put(out, " ; ")
}

fn put_helpers(out: &mut String, helpers: &[Inst]) -> Result<(), AllocError>
    ensures { OnOk result
        (string_bytes out.new ≡ string_bytes out.old ++ helpers_text helpers.now) }
{
    for helper in helpers {
        put_before(out, helper)?;
    }
    Ok(())
}

// The helper of an operand that has one.
fn put_helper_of(out: &mut String, mem: &MemArg) -> Result<(), AllocError>
    ensures { OnOk result
        (string_bytes out.new ≡ string_bytes out.old ++ helper_text (helper_of mem.now)) }
{
    match mem {
        MemArg::RegOffset { off, .. } => spelled2(out, stem(opcodes::LGFI), &spilltmp_reg(), off),
        _ => spelled2(out, address_rows().name_at(mem), &spilltmp_reg(), mem),
    }
}

/// Appends the helper of an operand that has one, and a semicolon behind it.
#[inline(never)]
pub fn put_one_helper(out: &mut String, mem: &MemArg) -> Result<(), AllocError>
    ensures { OnOk result
        (string_bytes out.new
        ≡ string_bytes out.old ++ (helper_text (helper_of mem.now) ++ codes " ; ")) }
{
    put_helper_of(out, mem)?;
    put(out, " ; ")
}

// Appends the helpers of an operand, and gives the operand of the access, by a list of the helpers.
fn open_listed(out: &mut String, place: Place, rows: &Rows) -> Result<MemArg, TextError>
    ensures { Opens result (string_bytes out.old) (string_bytes out.new) place.entry.has_relative
        (rows_of rows.now) (resolved_operand place.entry.state.now place.entry.mem.now) }
{
    if !rows.has_row() {
        return Err(TextError::NoRow);
    }
    match mem_finalize(
        place.alloc,
        place.mem,
        place.state,
        rows.inst_type(place.has_relative),
    ) {
        Ok((helpers, operand)) => {
            put_helpers(out, helpers.as_slice())?;
            Ok(operand)
        }
        Err(error) => Err(TextError::Address(error)),
    }
}

// Appends the helpers of an operand, and gives the operand of the access; the list, which is large, isn't made for one helper that is told at once. It
// stands apart from an access without helpers, which needs less room.
#[inline(never)]
fn open_helped(out: &mut String, place: Place, rows: &Rows) -> Result<MemArg, TextError>
    ensures { Opens result (string_bytes out.old) (string_bytes out.new) place.entry.has_relative
        (rows_of rows.now) (resolved_operand place.entry.state.now place.entry.mem.now) }
{
    match helped_operand(rows.inst_type(place.has_relative), place.mem) {
        Some(operand) => {
            put_one_helper(out, place.mem)?;
            Ok(operand)
        }
        None => open_listed(out, place, rows),
    }
}

// The access behind one helper, where it is told at once.
#[inline(always)]
fn zero_access(rows: &Rows, has_relative: bool, mem: &MemArg) -> Option<ZeroAccess>
    ensures { IfSome result
        (λ z. (zero_row rows.now.short rows.now.long ≡ Some z.opcode)
        × (helped_at (type_of_rows has_relative (rows_of rows.now)) mem.now ≡ Some z.at)) }
{
    let opcode = zero_row(rows.short, rows.long)?;
    let at = helped_at(rows.inst_type(has_relative), mem)?;
    Some(ZeroAccess { opcode, at })
}

// Appends the one helper of an operand, and the access behind it.
fn put_helped<A: Operand>(
    out: &mut String,
    mem: &MemArg,
    zero: ZeroAccess,
    a: &A,
) -> Result<(), TextError>
    ensures { Prints result (string_bytes out.old) (string_bytes out.new)
        (fixed_text
        ((helper_text (helper_of mem.now) ++ codes " ; ")
        ++ instruction_text (stem_of zero.opcode)
        (A.shown a.now ∷ zero_text zero.at.base zero.at.index ∷ []))) }
{
    put_one_helper(out, mem)?;
    Ok(spelled2(out, stem(zero.opcode), a, &zero.at)?)
}

// Appends the text of an access with one operand before that in memory, by a list of helpers.
fn listed_access<A: Operand>(
    out: &mut String,
    place: Place,
    rows: &Rows,
    a: &A,
) -> Result<(), TextError>
    ensures { Prints result (string_bytes out.old) (string_bytes out.new)
        (access_where place.entry.has_relative (rows_of rows.now) place.entry.state.now
        (A.shown a.now ∷ []) place.entry.mem.now []) }
{
    let operand = open_listed(out, place, rows)?;
    Ok(spelled2(out, rows.name_at(&operand), a, &operand)?)
}

// Appends the text of an access at an operand that is neither a near offset nor taken relative to the instruction.
fn helped_access<A: Operand>(
    out: &mut String,
    place: Place,
    rows: &Rows,
    a: &A,
) -> Result<(), TextError>
    ensures { Prints result (string_bytes out.old) (string_bytes out.new)
        (access_where place.entry.has_relative (rows_of rows.now) place.entry.state.now
        (A.shown a.now ∷ []) place.entry.mem.now []) }
{
    match zero_access(rows, place.has_relative, place.mem) {
        Some(zero) => put_helped(out, place.mem, zero, a),
        None => listed_access(out, place, rows, a),
    }
}

/// Whether the rows take an operand relative to the instruction.
#[inline(always)]
pub fn is_taken(mi: MemInstType, mem: &MemArg) -> bool
    ensures { result ≡ is_taken mi mem.now }
{
    match mem {
        MemArg::Label { .. } | MemArg::Constant { .. } | MemArg::Symbol { .. } => {
            !needs_address(mi, mem)
        }
        _ => false,
    }
}

// Appends the text of an access at an operand that is no near offset. It stands apart from those at one, which need less room.
#[inline(never)]
fn other_access<A: Operand>(
    out: &mut String,
    place: Place,
    rows: &Rows,
    a: &A,
) -> Result<(), TextError>
    ensures { Prints result (string_bytes out.old) (string_bytes out.new)
        (access_where place.entry.has_relative (rows_of rows.now) place.entry.state.now
        (A.shown a.now ∷ []) place.entry.mem.now []) }
{
    if is_taken(rows.inst_type(place.has_relative), place.mem) {
        return fixed2(out, rows.name_at(place.mem), a, place.mem);
    }
    helped_access(out, place, rows, a)
}

/// Appends the text of an access with one operand before that in memory.
pub fn rows_access<A: Operand>(
    out: &mut String,
    place: Place,
    rows: &Rows,
    a: &A,
) -> Result<(), TextError>
    ensures { Prints result (string_bytes out.old) (string_bytes out.new)
        (access_where place.entry.has_relative (rows_of rows.now) place.entry.state.now
        (A.shown a.now ∷ []) place.entry.mem.now []) }
{
    match near_offset(rows.short, rows.long, place.mem) {
        Some(near) => fixed2(out, stem(near.opcode), a, &near.at),
        None => other_access(out, place, rows, a),
    }
}

/// Rows of formats RX, RXY and RIL-B.
#[inline(always)]
pub fn register_rows(rows: RegisterRows) -> Rows
    ensures { rows_of result ≡ rx_of rows }
{
    Rows {
        short: long_opcode(rows.rx),
        long: rows.rxy,
        relative: rows.ril,
        index: true,
        accesses: true,
    }
}

/// Appends the text of an access by rows of formats RX, RXY and RIL-B, with one operand before that in memory, which is no near offset.
pub fn other_rx_access<A: Operand>(
    out: &mut String,
    place: Place,
    rows: RegisterRows,
    a: &A,
) -> Result<(), TextError>
    ensures { Prints result (string_bytes out.old) (string_bytes out.new)
        (access_where place.entry.has_relative (rx_of rows) place.entry.state.now
        (A.shown a.now ∷ []) place.entry.mem.now []) }
{
    other_access(out, place, &register_rows(rows), a)
}

/// Appends the text of an access by rows of formats RX, RXY and RIL-B, with one operand before that in memory.
pub fn rx_access<A: Operand>(
    out: &mut String,
    place: Place,
    rows: RegisterRows,
    a: &A,
) -> Result<(), TextError>
    ensures { Prints result (string_bytes out.old) (string_bytes out.new)
        (access_where place.entry.has_relative (rx_of rows) place.entry.state.now
        (A.shown a.now ∷ []) place.entry.mem.now []) }
{
    rows_access(out, place, &register_rows(rows), a)
}

/// Appends the text of an access by a row of format VRX, with an operand on either side of that in memory.
pub fn vrx_access<A: Operand, B: Operand>(
    out: &mut String,
    place: Place,
    opcode: Option<u16>,
    a: &A,
    b: &B,
) -> Result<(), TextError>
    ensures { Prints result (string_bytes out.old) (string_bytes out.new)
        (access_where place.entry.has_relative (rx (option_map stem_of opcode) None None)
        place.entry.state.now (A.shown a.now ∷ []) place.entry.mem.now (B.shown b.now ∷ [])) }
{
    let rows = Rows {
        short: opcode,
        long: None,
        relative: None,
        index: true,
        accesses: true,
    };
    if let Some(near) = near_offset(opcode, None, place.mem) {
        return fixed3(out, stem(near.opcode), a, &near.at, b);
    }
    let operand = open_helped(out, place, &rows)?;
    Ok(spelled3(out, rows.name_at(&operand), a, &operand, b)?)
}

// Appends an access by a row of format VRX; without a mnemonic, where the row doesn't have the operand's form.
fn put_lettered<A: Operand>(
    out: &mut String,
    mnemonic: Mnemonic,
    a: &A,
    mem: &MemArg,
) -> Result<(), AllocError>
    ensures { OnOk result
        (string_bytes out.new
        ≡ string_bytes out.old
        ++ instruction_text (name_at (rx (Some (mnemonic_text mnemonic)) None None) mem.now)
        (A.shown a.now ∷ memory_text mem.now ∷ [])) }
{
    match mem {
        MemArg::BXD12 { .. } => lettered2(out, mnemonic, a, mem),
        _ => spelled2(out, "", a, mem),
    }
}

/// Appends the text of an access by a row of format VRX whose mnemonic has two parts, at an operand that is no near offset, as few are.
#[cold]
pub fn other_lettered<A: Operand>(
    out: &mut String,
    place: Place,
    mnemonic: Mnemonic,
    a: &A,
) -> Result<(), TextError>
    ensures { Prints result (string_bytes out.old) (string_bytes out.new)
        (access_where place.entry.has_relative (rx (Some (mnemonic_text mnemonic)) None None)
        place.entry.state.now (A.shown a.now ∷ []) place.entry.mem.now []) }
{
    let rows = Rows {
        short: Some(mnemonic.opcode),
        long: None,
        relative: None,
        index: true,
        accesses: true,
    };
    let operand = open_helped(out, place, &rows)?;
    Ok(put_lettered(out, mnemonic, a, &operand)?)
}

// Appends the text of an access by a row of format VRX whose mnemonic has two parts, with one operand before that in memory.
#[inline(always)]
fn access_lettered<A: Operand>(
    out: &mut String,
    place: Place,
    mnemonic: Mnemonic,
    a: &A,
) -> Result<(), TextError>
    ensures { Prints result (string_bytes out.old) (string_bytes out.new)
        (access_where place.entry.has_relative (rx (Some (mnemonic_text mnemonic)) None None)
        place.entry.state.now (A.shown a.now ∷ []) place.entry.mem.now []) }
{
    match near_offset(Some(mnemonic.opcode), None, place.mem) {
        Some(near) => fixed_lettered2(out, mnemonic, a, &near.at),
        None => other_lettered(out, place, mnemonic, a),
    }
}

/// Appends the text of an access by a row of format VRX whose mnemonic has two parts, with one operand before that in memory;
/// `NoRow` where it has no mnemonic.
pub fn lettered_access<A: Operand>(
    out: &mut String,
    place: Place,
    mnemonic: Option<Mnemonic>,
    a: &A,
) -> Result<(), TextError>
    ensures { Prints result (string_bytes out.old) (string_bytes out.new)
        (access_where place.entry.has_relative (rx (option_map mnemonic_text mnemonic) None None)
        place.entry.state.now (A.shown a.now ∷ []) place.entry.mem.now []) }
{
    match mnemonic {
        Some(name) => access_lettered(out, place, name, a),
        None => Err(TextError::NoRow),
    }
}

/// Appends the text of an access by rows without an index, with two operands before that in memory.
pub fn rs_access3<A: Operand, B: Operand>(
    out: &mut String,
    place: Place,
    short: Option<u16>,
    long: Option<u16>,
    a: &A,
    b: &B,
) -> Result<(), TextError>
    ensures { Prints result (string_bytes out.old) (string_bytes out.new)
        (access_where place.entry.has_relative
        (rs (option_map stem_of short) (option_map stem_of long))
        place.entry.state.now (A.shown a.now ∷ B.shown b.now ∷ []) place.entry.mem.now []) }
{
    let rows = Rows {
        short,
        long,
        relative: None,
        index: false,
        accesses: true,
    };
    if let Some(near) = near_offset(short, long, place.mem) {
        return fixed3(out, stem(near.opcode), a, b, &near.at);
    }
    let operand = open_helped(out, place, &rows)?;
    Ok(spelled3(out, rows.name_at(&operand), a, b, &operand)?)
}

/// Appends the text of an access by rows without an index, with an operand behind that in memory.
pub fn rs_access_then<A: Operand>(
    out: &mut String,
    place: Place,
    short: Option<u16>,
    long: Option<u16>,
    a: &A,
) -> Result<(), TextError>
    ensures { Prints result (string_bytes out.old) (string_bytes out.new)
        (access_where place.entry.has_relative
        (rs (option_map stem_of short) (option_map stem_of long))
        place.entry.state.now [] place.entry.mem.now (A.shown a.now ∷ [])) }
{
    let rows = Rows {
        short,
        long,
        relative: None,
        index: false,
        accesses: true,
    };
    if let Some(near) = near_offset(short, long, place.mem) {
        return fixed2(out, stem(near.opcode), &near.at, a);
    }
    let operand = open_helped(out, place, &rows)?;
    Ok(spelled2(out, rows.name_at(&operand), &operand, a)?)
}
