//! The machine rows of each operator on general registers (cranelift-codegen, `emit.rs`). A row is read through a borrow of its table, which indexing by itself would copy.
ghost use Rattle.std.specs.Prelude.{◌≡◌};
ghost use Rattle.s390x_typed_steps.specs.Opcodes.{alu_rows, cmp_rows, of_four, of_one, of_two, opcode_of_part, rotate_rows, shift_opcode, unary_two};

use s390x_inst::{ALUOp, CmpOp, RxSBGOp, ShiftOp, UnaryOp};
use s390x_rows::opcodes;

/// The opcodes of the rows on a part of a register each, by the part's number from the right.
#[derive(Clone, Copy)]
pub enum PartRows {
    /// There are none.
    Lacking,
    /// Of the rightmost part alone.
    One(u16),
    /// Of the right two.
    Two(u16, u16),
    /// Of the right four.
    Four(u16, u16, u16, u16),
}

/// The opcodes of an operator's rows, by what its operands are. None where it has none.
#[derive(Clone, Copy)]
pub struct AluRows {
    /// An output and two inputs (RRF).
    pub three: Option<u16>,
    /// Two registers, the first of which is the output too (RR, RRE).
    pub two: Option<u16>,
    /// A register and an immediate of 16 bits with its sign (RI).
    pub halfword: Option<u16>,
    /// A register and an immediate of 16 bits with its sign, into another register (RIE).
    pub three_halfword: Option<u16>,
    /// A register and an immediate of 32 bits with its sign (RIL).
    pub signed_word: Option<u16>,
    /// A register and an immediate of 32 bits without a sign (RIL).
    pub unsigned_word: Option<u16>,
    /// An operand in memory, with a displacement of 12 bits.
    pub rx: Option<u8>,
    /// An operand in memory, with a displacement of 20 bits.
    pub rxy: Option<u16>,
    /// An operand in memory that is changed in one access (RSY).
    pub atomic: Option<u16>,
    /// An immediate at a part of 16 bits (RI).
    pub parts: PartRows,
    /// An immediate at a half of 32 bits (RIL).
    pub halves: PartRows,
}

/// The opcodes of a comparison's rows, by what its second operand is. None where it has none.
#[derive(Clone, Copy)]
pub struct CmpRows {
    /// A register (RR, RRE).
    pub two: Option<u16>,
    /// An immediate of 16 bits with its sign (RI).
    pub halfword: Option<u16>,
    /// One of 32 bits with its sign (RIL).
    pub signed_word: Option<u16>,
    /// A register and an immediate of 32 bits without a sign (RIL).
    pub unsigned_word: Option<u16>,
    /// A register, where the comparison traps (RRF).
    pub trap: Option<u16>,
    /// An immediate of 16 bits with its sign, where the comparison traps (RIE).
    pub trap_signed: Option<u16>,
    /// An immediate of 16 bits without a sign, where the comparison traps (RIE).
    pub trap_unsigned: Option<u16>,
    /// An operand in memory, with a displacement of 12 bits.
    pub rx: Option<u8>,
    /// An operand in memory, with a displacement of 20 bits.
    pub rxy: Option<u16>,
    /// An operand in memory that is relative to the instruction.
    pub ril: u16,
}

/// The opcodes of the rows that rotate a register, and then insert or combine the selected bits (RIE).
#[derive(Clone, Copy)]
pub struct RotateRows {
    /// The output gets them.
    pub change: u16,
    /// The condition code alone is set. None where it can't be.
    pub test: Option<u16>,
}

pub const ALU_COUNT: usize = ALUOp::OrrNot64 as usize + 1;

pub const CMP_COUNT: usize = CmpOp::CmpL64Ext32 as usize + 1;

pub const UNARY_COUNT: usize = UnaryOp::Ctz64 as usize + 1;

pub const SHIFT_COUNT: usize = ShiftOp::AShR64 as usize + 1;

pub const ROTATE_COUNT: usize = RxSBGOp::Xor as usize + 1;

/// The rows by operator.
#[rattlefmt::skip]
pub const ALU_ROWS: [AluRows; ALU_COUNT] = [
    AluRows { three: Some(opcodes::ARK), two: Some(opcodes::AR), halfword: Some(opcodes::AHI), three_halfword: Some(opcodes::AHIK), signed_word: Some(opcodes::AFI), unsigned_word: None, rx: Some(opcodes::A as u8), rxy: Some(opcodes::AY), atomic: Some(opcodes::LAA), parts: PartRows::Lacking, halves: PartRows::Lacking }, // Add32
    AluRows { three: None, two: None, halfword: None, three_halfword: None, signed_word: None, unsigned_word: None, rx: Some(opcodes::AH as u8), rxy: Some(opcodes::AHY), atomic: None, parts: PartRows::Lacking, halves: PartRows::Lacking }, // Add32Ext16
    AluRows { three: Some(opcodes::AGRK), two: Some(opcodes::AGR), halfword: Some(opcodes::AGHI), three_halfword: Some(opcodes::AGHIK), signed_word: Some(opcodes::AGFI), unsigned_word: None, rx: None, rxy: Some(opcodes::AG), atomic: Some(opcodes::LAAG), parts: PartRows::Lacking, halves: PartRows::Lacking }, // Add64
    AluRows { three: None, two: None, halfword: None, three_halfword: None, signed_word: None, unsigned_word: None, rx: None, rxy: Some(opcodes::AGH), atomic: None, parts: PartRows::Lacking, halves: PartRows::Lacking }, // Add64Ext16
    AluRows { three: None, two: Some(opcodes::AGFR), halfword: None, three_halfword: None, signed_word: None, unsigned_word: None, rx: None, rxy: Some(opcodes::AGF), atomic: None, parts: PartRows::Lacking, halves: PartRows::Lacking }, // Add64Ext32
    AluRows { three: Some(opcodes::ALRK), two: Some(opcodes::ALR), halfword: None, three_halfword: None, signed_word: None, unsigned_word: Some(opcodes::ALFI), rx: Some(opcodes::AL as u8), rxy: Some(opcodes::ALY), atomic: Some(opcodes::LAAL), parts: PartRows::Lacking, halves: PartRows::Lacking }, // AddLogical32
    AluRows { three: Some(opcodes::ALGRK), two: Some(opcodes::ALGR), halfword: None, three_halfword: None, signed_word: None, unsigned_word: Some(opcodes::ALGFI), rx: None, rxy: Some(opcodes::ALG), atomic: Some(opcodes::LAALG), parts: PartRows::Lacking, halves: PartRows::Lacking }, // AddLogical64
    AluRows { three: None, two: Some(opcodes::ALGFR), halfword: None, three_halfword: None, signed_word: None, unsigned_word: None, rx: None, rxy: Some(opcodes::ALGF), atomic: None, parts: PartRows::Lacking, halves: PartRows::Lacking }, // AddLogical64Ext32
    AluRows { three: Some(opcodes::SRK), two: Some(opcodes::SR), halfword: None, three_halfword: None, signed_word: None, unsigned_word: None, rx: Some(opcodes::S as u8), rxy: Some(opcodes::SY), atomic: None, parts: PartRows::Lacking, halves: PartRows::Lacking }, // Sub32
    AluRows { three: None, two: None, halfword: None, three_halfword: None, signed_word: None, unsigned_word: None, rx: Some(opcodes::SH as u8), rxy: Some(opcodes::SHY), atomic: None, parts: PartRows::Lacking, halves: PartRows::Lacking }, // Sub32Ext16
    AluRows { three: Some(opcodes::SGRK), two: Some(opcodes::SGR), halfword: None, three_halfword: None, signed_word: None, unsigned_word: None, rx: None, rxy: Some(opcodes::SG), atomic: None, parts: PartRows::Lacking, halves: PartRows::Lacking }, // Sub64
    AluRows { three: None, two: None, halfword: None, three_halfword: None, signed_word: None, unsigned_word: None, rx: None, rxy: Some(opcodes::SGH), atomic: None, parts: PartRows::Lacking, halves: PartRows::Lacking }, // Sub64Ext16
    AluRows { three: None, two: Some(opcodes::SGFR), halfword: None, three_halfword: None, signed_word: None, unsigned_word: None, rx: None, rxy: Some(opcodes::SGF), atomic: None, parts: PartRows::Lacking, halves: PartRows::Lacking }, // Sub64Ext32
    AluRows { three: Some(opcodes::SLRK), two: Some(opcodes::SLR), halfword: None, three_halfword: None, signed_word: None, unsigned_word: Some(opcodes::SLFI), rx: Some(opcodes::SL as u8), rxy: Some(opcodes::SLY), atomic: None, parts: PartRows::Lacking, halves: PartRows::Lacking }, // SubLogical32
    AluRows { three: Some(opcodes::SLGRK), two: Some(opcodes::SLGR), halfword: None, three_halfword: None, signed_word: None, unsigned_word: Some(opcodes::SLGFI), rx: None, rxy: Some(opcodes::SLG), atomic: None, parts: PartRows::Lacking, halves: PartRows::Lacking }, // SubLogical64
    AluRows { three: None, two: Some(opcodes::SLGFR), halfword: None, three_halfword: None, signed_word: None, unsigned_word: None, rx: None, rxy: Some(opcodes::SLGF), atomic: None, parts: PartRows::Lacking, halves: PartRows::Lacking }, // SubLogical64Ext32
    AluRows { three: Some(opcodes::MSRKC), two: Some(opcodes::MSR), halfword: Some(opcodes::MHI), three_halfword: None, signed_word: Some(opcodes::MSFI), unsigned_word: None, rx: Some(opcodes::MS as u8), rxy: Some(opcodes::MSY), atomic: None, parts: PartRows::Lacking, halves: PartRows::Lacking }, // Mul32
    AluRows { three: None, two: None, halfword: None, three_halfword: None, signed_word: None, unsigned_word: None, rx: Some(opcodes::MH as u8), rxy: Some(opcodes::MHY), atomic: None, parts: PartRows::Lacking, halves: PartRows::Lacking }, // Mul32Ext16
    AluRows { three: Some(opcodes::MSRKC), two: None, halfword: None, three_halfword: None, signed_word: None, unsigned_word: None, rx: None, rxy: None, atomic: None, parts: PartRows::Lacking, halves: PartRows::Lacking }, // Mul32CC
    AluRows { three: Some(opcodes::MSGRKC), two: Some(opcodes::MSGR), halfword: Some(opcodes::MGHI), three_halfword: None, signed_word: Some(opcodes::MSGFI), unsigned_word: None, rx: None, rxy: Some(opcodes::MSG), atomic: None, parts: PartRows::Lacking, halves: PartRows::Lacking }, // Mul64
    AluRows { three: None, two: None, halfword: None, three_halfword: None, signed_word: None, unsigned_word: None, rx: None, rxy: Some(opcodes::MGH), atomic: None, parts: PartRows::Lacking, halves: PartRows::Lacking }, // Mul64Ext16
    AluRows { three: None, two: Some(opcodes::MSGFR), halfword: None, three_halfword: None, signed_word: None, unsigned_word: None, rx: None, rxy: Some(opcodes::MSGF), atomic: None, parts: PartRows::Lacking, halves: PartRows::Lacking }, // Mul64Ext32
    AluRows { three: Some(opcodes::MSGRKC), two: None, halfword: None, three_halfword: None, signed_word: None, unsigned_word: None, rx: None, rxy: None, atomic: None, parts: PartRows::Lacking, halves: PartRows::Lacking }, // Mul64CC
    AluRows { three: Some(opcodes::NRK), two: Some(opcodes::NR), halfword: None, three_halfword: None, signed_word: None, unsigned_word: None, rx: Some(opcodes::N as u8), rxy: Some(opcodes::NY), atomic: Some(opcodes::LAN), parts: PartRows::Two(opcodes::NILL, opcodes::NILH), halves: PartRows::One(opcodes::NILF) }, // And32
    AluRows { three: Some(opcodes::NGRK), two: Some(opcodes::NGR), halfword: None, three_halfword: None, signed_word: None, unsigned_word: None, rx: None, rxy: Some(opcodes::NG), atomic: Some(opcodes::LANG), parts: PartRows::Four(opcodes::NILL, opcodes::NILH, opcodes::NIHL, opcodes::NIHH), halves: PartRows::Two(opcodes::NILF, opcodes::NIHF) }, // And64
    AluRows { three: Some(opcodes::ORK), two: Some(opcodes::OR), halfword: None, three_halfword: None, signed_word: None, unsigned_word: None, rx: Some(opcodes::O as u8), rxy: Some(opcodes::OY), atomic: Some(opcodes::LAO), parts: PartRows::Two(opcodes::OILL, opcodes::OILH), halves: PartRows::One(opcodes::OILF) }, // Orr32
    AluRows { three: Some(opcodes::OGRK), two: Some(opcodes::OGR), halfword: None, three_halfword: None, signed_word: None, unsigned_word: None, rx: None, rxy: Some(opcodes::OG), atomic: Some(opcodes::LAOG), parts: PartRows::Four(opcodes::OILL, opcodes::OILH, opcodes::OIHL, opcodes::OIHH), halves: PartRows::Two(opcodes::OILF, opcodes::OIHF) }, // Orr64
    AluRows { three: Some(opcodes::XRK), two: Some(opcodes::XR), halfword: None, three_halfword: None, signed_word: None, unsigned_word: None, rx: Some(opcodes::X as u8), rxy: Some(opcodes::XY), atomic: Some(opcodes::LAX), parts: PartRows::Lacking, halves: PartRows::One(opcodes::XILF) }, // Xor32
    AluRows { three: Some(opcodes::XGRK), two: Some(opcodes::XGR), halfword: None, three_halfword: None, signed_word: None, unsigned_word: None, rx: None, rxy: Some(opcodes::XG), atomic: Some(opcodes::LAXG), parts: PartRows::Lacking, halves: PartRows::Two(opcodes::XILF, opcodes::XIHF) }, // Xor64
    AluRows { three: Some(opcodes::NNRK), two: None, halfword: None, three_halfword: None, signed_word: None, unsigned_word: None, rx: None, rxy: None, atomic: None, parts: PartRows::Lacking, halves: PartRows::Lacking }, // NotAnd32
    AluRows { three: Some(opcodes::NNGRK), two: None, halfword: None, three_halfword: None, signed_word: None, unsigned_word: None, rx: None, rxy: None, atomic: None, parts: PartRows::Lacking, halves: PartRows::Lacking }, // NotAnd64
    AluRows { three: Some(opcodes::NORK), two: None, halfword: None, three_halfword: None, signed_word: None, unsigned_word: None, rx: None, rxy: None, atomic: None, parts: PartRows::Lacking, halves: PartRows::Lacking }, // NotOrr32
    AluRows { three: Some(opcodes::NOGRK), two: None, halfword: None, three_halfword: None, signed_word: None, unsigned_word: None, rx: None, rxy: None, atomic: None, parts: PartRows::Lacking, halves: PartRows::Lacking }, // NotOrr64
    AluRows { three: Some(opcodes::NXRK), two: None, halfword: None, three_halfword: None, signed_word: None, unsigned_word: None, rx: None, rxy: None, atomic: None, parts: PartRows::Lacking, halves: PartRows::Lacking }, // NotXor32
    AluRows { three: Some(opcodes::NXGRK), two: None, halfword: None, three_halfword: None, signed_word: None, unsigned_word: None, rx: None, rxy: None, atomic: None, parts: PartRows::Lacking, halves: PartRows::Lacking }, // NotXor64
    AluRows { three: Some(opcodes::NCRK), two: None, halfword: None, three_halfword: None, signed_word: None, unsigned_word: None, rx: None, rxy: None, atomic: None, parts: PartRows::Lacking, halves: PartRows::Lacking }, // AndNot32
    AluRows { three: Some(opcodes::NCGRK), two: None, halfword: None, three_halfword: None, signed_word: None, unsigned_word: None, rx: None, rxy: None, atomic: None, parts: PartRows::Lacking, halves: PartRows::Lacking }, // AndNot64
    AluRows { three: Some(opcodes::OCRK), two: None, halfword: None, three_halfword: None, signed_word: None, unsigned_word: None, rx: None, rxy: None, atomic: None, parts: PartRows::Lacking, halves: PartRows::Lacking }, // OrrNot32
    AluRows { three: Some(opcodes::OCGRK), two: None, halfword: None, three_halfword: None, signed_word: None, unsigned_word: None, rx: None, rxy: None, atomic: None, parts: PartRows::Lacking, halves: PartRows::Lacking }, // OrrNot64
];

/// The rows by comparison.
#[rattlefmt::skip]
pub const CMP_ROWS: [CmpRows; CMP_COUNT] = [
    CmpRows { two: Some(opcodes::CR), halfword: Some(opcodes::CHI), signed_word: Some(opcodes::CFI), unsigned_word: None, trap: Some(opcodes::CRT), trap_signed: Some(opcodes::CIT), trap_unsigned: None, rx: Some(opcodes::C as u8), rxy: Some(opcodes::CY), ril: opcodes::CRL }, // CmpS32
    CmpRows { two: None, halfword: None, signed_word: None, unsigned_word: None, trap: None, trap_signed: None, trap_unsigned: None, rx: Some(opcodes::CH as u8), rxy: Some(opcodes::CHY), ril: opcodes::CHRL }, // CmpS32Ext16
    CmpRows { two: Some(opcodes::CGR), halfword: Some(opcodes::CGHI), signed_word: Some(opcodes::CGFI), unsigned_word: None, trap: Some(opcodes::CGRT), trap_signed: Some(opcodes::CGIT), trap_unsigned: None, rx: None, rxy: Some(opcodes::CG), ril: opcodes::CGRL }, // CmpS64
    CmpRows { two: None, halfword: None, signed_word: None, unsigned_word: None, trap: None, trap_signed: None, trap_unsigned: None, rx: None, rxy: Some(opcodes::CGH), ril: opcodes::CGHRL }, // CmpS64Ext16
    CmpRows { two: Some(opcodes::CGFR), halfword: None, signed_word: None, unsigned_word: None, trap: None, trap_signed: None, trap_unsigned: None, rx: None, rxy: Some(opcodes::CGF), ril: opcodes::CGFRL }, // CmpS64Ext32
    CmpRows { two: Some(opcodes::CLR), halfword: None, signed_word: None, unsigned_word: Some(opcodes::CLFI), trap: Some(opcodes::CLRT), trap_signed: None, trap_unsigned: Some(opcodes::CLFIT), rx: Some(opcodes::CL as u8), rxy: Some(opcodes::CLY), ril: opcodes::CLRL }, // CmpL32
    CmpRows { two: None, halfword: None, signed_word: None, unsigned_word: None, trap: None, trap_signed: None, trap_unsigned: None, rx: None, rxy: None, ril: opcodes::CLHRL }, // CmpL32Ext16
    CmpRows { two: Some(opcodes::CLGR), halfword: None, signed_word: None, unsigned_word: Some(opcodes::CLGFI), trap: Some(opcodes::CLGRT), trap_signed: None, trap_unsigned: Some(opcodes::CLGIT), rx: None, rxy: Some(opcodes::CLG), ril: opcodes::CLGRL }, // CmpL64
    CmpRows { two: None, halfword: None, signed_word: None, unsigned_word: None, trap: None, trap_signed: None, trap_unsigned: None, rx: None, rxy: None, ril: opcodes::CLGHRL }, // CmpL64Ext16
    CmpRows { two: Some(opcodes::CLGFR), halfword: None, signed_word: None, unsigned_word: None, trap: None, trap_signed: None, trap_unsigned: None, rx: None, rxy: Some(opcodes::CLGF), ril: opcodes::CLGFRL }, // CmpL64Ext32
];

/// The row by operator on one register (RR, RRE), but for the counts of ones.
#[rattlefmt::skip]
pub const UNARY_ROWS: [Option<u16>; UNARY_COUNT] = [
    Some(opcodes::LPR), // Abs32
    Some(opcodes::LPGR), // Abs64
    Some(opcodes::LPGFR), // Abs64Ext32
    Some(opcodes::LCR), // Neg32
    Some(opcodes::LCGR), // Neg64
    Some(opcodes::LCGFR), // Neg64Ext32
    None, // PopcntByte
    None, // PopcntReg
    Some(opcodes::LRVR), // BSwap32
    Some(opcodes::LRVGR), // BSwap64
    Some(opcodes::CLZG), // Clz64
    Some(opcodes::CTZG), // Ctz64
];

/// The row by shift (RSY).
#[rattlefmt::skip]
pub const SHIFT_ROWS: [u16; SHIFT_COUNT] = [
    opcodes::RLL, // RotL32
    opcodes::RLLG, // RotL64
    opcodes::SLLK, // LShL32
    opcodes::SLLG, // LShL64
    opcodes::SRLK, // LShR32
    opcodes::SRLG, // LShR64
    opcodes::SRAK, // AShR32
    opcodes::SRAG, // AShR64
];

/// The rows by what becomes of the rotated bits.
#[rattlefmt::skip]
pub const ROTATE_ROWS: [RotateRows; ROTATE_COUNT] = [
    RotateRows { change: opcodes::RISBGN, test: None }, // Insert
    RotateRows { change: opcodes::RNSBG, test: Some(opcodes::RNSBG) }, // And
    RotateRows { change: opcodes::ROSBG, test: Some(opcodes::ROSBG) }, // Or
    RotateRows { change: opcodes::RXSBG, test: Some(opcodes::RXSBG) }, // Xor
];

/// The rows of an operator.
pub fn rows_of_alu(op: ALUOp) -> AluRows
    ensures { result ≡ alu_rows op }
{
    (&ALU_ROWS)[op as usize]
}

/// The rows of a comparison.
pub fn rows_of_cmp(op: CmpOp) -> CmpRows
    ensures { result ≡ cmp_rows op }
{
    (&CMP_ROWS)[op as usize]
}

/// The row of an operator on one register. None where it has none.
pub fn row_of_unary(op: UnaryOp) -> Option<u16>
    ensures { result ≡ unary_two op }
{
    (&UNARY_ROWS)[op as usize]
}

/// The row of a shift.
pub fn row_of_shift(op: ShiftOp) -> u16
    ensures { result ≡ shift_opcode op }
{
    (&SHIFT_ROWS)[op as usize]
}

/// The rows that rotate.
pub fn rows_of_rotate(op: RxSBGOp) -> RotateRows
    ensures { result ≡ rotate_rows op }
{
    (&ROTATE_ROWS)[op as usize]
}

/// The opcode of the row on a part. None where there is none.
pub fn row_of_part(rows: PartRows, number: u8) -> Option<u16>
    ensures { result ≡ opcode_of_part rows number }
{
    match rows {
        PartRows::Lacking => None,
        PartRows::One(zeroth) => of_one(zeroth, number),
        PartRows::Two(zeroth, first) => of_two(zeroth, first, number),
        PartRows::Four(zeroth, first, second, third) => {
            of_four(zeroth, first, second, third, number)
        }
    }
}

fn of_one(zeroth: u16, number: u8) -> Option<u16>
    ensures { result ≡ of_one zeroth number }
{
    if number == 0 { Some(zeroth) } else { None }
}

fn of_two(zeroth: u16, first: u16, number: u8) -> Option<u16>
    ensures { result ≡ of_two zeroth first number }
{
    match number {
        0 => Some(zeroth),
        1 => Some(first),
        _ => None,
    }
}

fn of_four(zeroth: u16, first: u16, second: u16, third: u16, number: u8) -> Option<u16>
    ensures { result ≡ of_four zeroth first second third number }
{
    match number {
        0 => Some(zeroth),
        1 => Some(first),
        2 => Some(second),
        3 => Some(third),
        _ => None,
    }
}
