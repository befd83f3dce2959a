//! The instructions.

use crate::args::MemArg;
use crate::calls::{ArgPair, CallInfo, CallInstDest, RetPair, ReturnCallInfo, SymbolReloc};
use crate::ops::{ALUOp, CmpOp, RxSBGOp, ShiftOp, UnaryOp};
use crate::vec_inst::VecInst;
use s390x_base::{
    Cond, MachLabel, PReg, Reg, RegPair, SImm20, TrapCode, UImm16Shifted, UImm32Shifted, Writable,
    WritableRegPair,
};

/// A typed instruction.
///
/// `rd` is written; `ri` is an input that has to be the same register as `rd`; `rn`, `rm` and `ra` are read.
#[rattlefmt::skip]
#[derive(Drop)]
pub enum Inst {
    // Integer instructions.
    /// `rd` becomes `rn op rm`.
    AluRRR { alu_op: ALUOp, rd: Writable<Reg>, rn: Reg, rm: Reg },
    /// `rd` becomes `rn op imm`.
    AluRRSImm16 { alu_op: ALUOp, rd: Writable<Reg>, rn: Reg, imm: i16 },
    /// `rd` becomes `ri op rm`; `ri` is `rd`.
    AluRR { alu_op: ALUOp, rd: Writable<Reg>, ri: Reg, rm: Reg },
    /// `rd` becomes `ri op` the operand in memory; `ri` is `rd`.
    AluRX { alu_op: ALUOp, rd: Writable<Reg>, ri: Reg, mem: MemArg },
    /// `rd` becomes `ri op imm`; `ri` is `rd`.
    AluRSImm16 { alu_op: ALUOp, rd: Writable<Reg>, ri: Reg, imm: i16 },
    /// `rd` becomes `ri op imm`; `ri` is `rd`.
    AluRSImm32 { alu_op: ALUOp, rd: Writable<Reg>, ri: Reg, imm: i32 },
    /// `rd` becomes `ri op imm`; `ri` is `rd`.
    AluRUImm32 { alu_op: ALUOp, rd: Writable<Reg>, ri: Reg, imm: u32 },
    /// One part of 16 bits of `rd` becomes that part of `ri op imm`; `ri` is `rd`.
    AluRUImm16Shifted { alu_op: ALUOp, rd: Writable<Reg>, ri: Reg, imm: UImm16Shifted },
    /// One half of `rd` becomes that half of `ri op imm`; `ri` is `rd`.
    AluRUImm32Shifted { alu_op: ALUOp, rd: Writable<Reg>, ri: Reg, imm: UImm32Shifted },
    /// The pair `rd` becomes the signed product of `rn` and `rm`.
    SMulWide { rd: WritableRegPair, rn: Reg, rm: Reg },
    /// The pair `rd` becomes the unsigned product of `ri` and `rn`; `ri` is `rd.lo`.
    UMulWide { rd: WritableRegPair, ri: Reg, rn: Reg },
    /// `ri` divided by the low half of `rn`: the remainder to `rd.hi`, the quotient to `rd.lo`; `ri` is `rd.lo`.
    SDivMod32 { rd: WritableRegPair, ri: Reg, rn: Reg },
    /// `ri` divided by `rn`: the remainder to `rd.hi`, the quotient to `rd.lo`; `ri` is `rd.lo`.
    SDivMod64 { rd: WritableRegPair, ri: Reg, rn: Reg },
    /// The low halves of the pair `ri` divided by that of `rn`, unsigned; `ri` is `rd`.
    UDivMod32 { rd: WritableRegPair, ri: RegPair, rn: Reg },
    /// The pair `ri` divided by `rn`, unsigned; `ri` is `rd`.
    UDivMod64 { rd: WritableRegPair, ri: RegPair, rn: Reg },
    /// `rd.hi` becomes the number of leading zeros of `rn`, `rd.lo` the value without its leftmost one.
    Flogr { rd: WritableRegPair, rn: Reg },
    /// `rd` becomes `rn` shifted by the low six bits of `shift_imm` plus `shift_reg`.
    ShiftRR { shift_op: ShiftOp, rd: Writable<Reg>, rn: Reg, shift_imm: u8, shift_reg: Reg },
    /// `rn` rotated left is joined with `ri` in the selected bits; `ri` is `rd`.
    RxSBG { op: RxSBGOp, rd: Writable<Reg>, ri: Reg, rn: Reg, start_bit: u8, end_bit: u8, rotate_amt: i8 },
    /// As `RxSBG`, for the condition code alone.
    RxSBGTest { op: RxSBGOp, rd: Reg, rn: Reg, start_bit: u8, end_bit: u8, rotate_amt: i8 },
    /// `rd` becomes `op rn`.
    UnaryRR { op: UnaryOp, rd: Writable<Reg>, rn: Reg },
    /// Compares `rn` with `rm`.
    CmpRR { op: CmpOp, rn: Reg, rm: Reg },
    /// Compares `rn` with the operand in memory.
    CmpRX { op: CmpOp, rn: Reg, mem: MemArg },
    /// Compares `rn` with `imm`.
    CmpRSImm16 { op: CmpOp, rn: Reg, imm: i16 },
    /// Compares `rn` with `imm`.
    CmpRSImm32 { op: CmpOp, rn: Reg, imm: i32 },
    /// Compares `rn` with `imm`.
    CmpRUImm32 { op: CmpOp, rn: Reg, imm: u32 },
    /// Traps where the comparison of `rn` with `rm` meets the condition.
    CmpTrapRR { op: CmpOp, rn: Reg, rm: Reg, cond: Cond, trap_code: TrapCode },
    /// Traps where the comparison of `rn` with `imm` meets the condition.
    CmpTrapRSImm16 { op: CmpOp, rn: Reg, imm: i16, cond: Cond, trap_code: TrapCode },
    /// Traps where the comparison of `rn` with `imm` meets the condition.
    CmpTrapRUImm16 { op: CmpOp, rn: Reg, imm: u16, cond: Cond, trap_code: TrapCode },
    /// `rd` becomes `rm`.
    Mov64 { rd: Writable<Reg>, rm: Reg },
    /// `rd` becomes the real register `rm`.
    MovPReg { rd: Writable<Reg>, rm: PReg },
    /// The low half of `rd` becomes that of `rm`.
    Mov32 { rd: Writable<Reg>, rm: Reg },
    /// The low half of `rd` becomes `imm`.
    Mov32Imm { rd: Writable<Reg>, imm: u32 },
    /// The low half of `rd` becomes `imm`.
    Mov32SImm16 { rd: Writable<Reg>, imm: i16 },
    /// `rd` becomes `imm`.
    Mov64SImm16 { rd: Writable<Reg>, imm: i16 },
    /// `rd` becomes `imm`.
    Mov64SImm32 { rd: Writable<Reg>, imm: i32 },
    /// `rd` becomes `imm` at its place, all other bits zero.
    Mov64UImm16Shifted { rd: Writable<Reg>, imm: UImm16Shifted },
    /// `rd` becomes `imm` at its place, all other bits zero.
    Mov64UImm32Shifted { rd: Writable<Reg>, imm: UImm32Shifted },
    /// `rd` becomes `ri` with `imm` at its place; `ri` is `rd`.
    Insert64UImm16Shifted { rd: Writable<Reg>, ri: Reg, imm: UImm16Shifted },
    /// `rd` becomes `ri` with `imm` at its place; `ri` is `rd`.
    Insert64UImm32Shifted { rd: Writable<Reg>, ri: Reg, imm: UImm32Shifted },
    /// The low half of `rd` becomes that of `rm` where the condition holds; `ri` is `rd`.
    CMov32 { rd: Writable<Reg>, cond: Cond, ri: Reg, rm: Reg },
    /// `rd` becomes `rm` where the condition holds; `ri` is `rd`.
    CMov64 { rd: Writable<Reg>, cond: Cond, ri: Reg, rm: Reg },
    /// The low half of `rd` becomes `imm` where the condition holds; `ri` is `rd`.
    CMov32SImm16 { rd: Writable<Reg>, cond: Cond, ri: Reg, imm: i16 },
    /// `rd` becomes `imm` where the condition holds; `ri` is `rd`.
    CMov64SImm16 { rd: Writable<Reg>, cond: Cond, ri: Reg, imm: i16 },
    /// `rd` becomes the low `from_bits` of `rn`, extended to `to_bits`.
    Extend { rd: Writable<Reg>, rn: Reg, signed: bool, from_bits: u8, to_bits: u8 },
    /// The low half of `rd` becomes the access register.
    LoadAR { rd: Writable<Reg>, ar: u8 },
    /// The low half of `rd` becomes the access register; `ri` is `rd`.
    InsertAR { rd: Writable<Reg>, ri: Reg, ar: u8 },

    // Memory instructions.
    /// Loads 32 bits.
    Load32 { rd: Writable<Reg>, mem: MemArg },
    /// Loads 8 bits, zero-extended to 32.
    Load32ZExt8 { rd: Writable<Reg>, mem: MemArg },
    /// Loads 8 bits, sign-extended to 32.
    Load32SExt8 { rd: Writable<Reg>, mem: MemArg },
    /// Loads 16 bits, zero-extended to 32.
    Load32ZExt16 { rd: Writable<Reg>, mem: MemArg },
    /// Loads 16 bits, sign-extended to 32.
    Load32SExt16 { rd: Writable<Reg>, mem: MemArg },
    /// Loads 64 bits.
    Load64 { rd: Writable<Reg>, mem: MemArg },
    /// Loads 8 bits, zero-extended to 64.
    Load64ZExt8 { rd: Writable<Reg>, mem: MemArg },
    /// Loads 8 bits, sign-extended to 64.
    Load64SExt8 { rd: Writable<Reg>, mem: MemArg },
    /// Loads 16 bits, zero-extended to 64.
    Load64ZExt16 { rd: Writable<Reg>, mem: MemArg },
    /// Loads 16 bits, sign-extended to 64.
    Load64SExt16 { rd: Writable<Reg>, mem: MemArg },
    /// Loads 32 bits, zero-extended to 64.
    Load64ZExt32 { rd: Writable<Reg>, mem: MemArg },
    /// Loads 32 bits, sign-extended to 64.
    Load64SExt32 { rd: Writable<Reg>, mem: MemArg },
    /// Loads 16 bits, their bytes reversed.
    LoadRev16 { rd: Writable<Reg>, mem: MemArg },
    /// Loads 32 bits, their bytes reversed.
    LoadRev32 { rd: Writable<Reg>, mem: MemArg },
    /// Loads 64 bits, their bytes reversed.
    LoadRev64 { rd: Writable<Reg>, mem: MemArg },
    /// Stores the low 8 bits.
    Store8 { rd: Reg, mem: MemArg },
    /// Stores the low 16 bits.
    Store16 { rd: Reg, mem: MemArg },
    /// Stores the low 32 bits.
    Store32 { rd: Reg, mem: MemArg },
    /// Stores 64 bits.
    Store64 { rd: Reg, mem: MemArg },
    /// Stores the low 16 bits, their bytes reversed.
    StoreRev16 { rd: Reg, mem: MemArg },
    /// Stores the low 32 bits, their bytes reversed.
    StoreRev32 { rd: Reg, mem: MemArg },
    /// Stores 64 bits, their bytes reversed.
    StoreRev64 { rd: Reg, mem: MemArg },
    /// Stores the byte `imm`.
    StoreImm8 { imm: u8, mem: MemArg },
    /// Stores `imm` in 16 bits.
    StoreImm16 { imm: i16, mem: MemArg },
    /// Stores `imm` in 32 bits.
    StoreImm32SExt16 { imm: i16, mem: MemArg },
    /// Stores `imm` in 64 bits.
    StoreImm64SExt16 { imm: i16, mem: MemArg },
    /// Loads the registers `rt` to `rt2` from consecutive doublewords.
    LoadMultiple64 { rt: Writable<Reg>, rt2: Writable<Reg>, mem: MemArg },
    /// Stores the registers `rt` to `rt2` to consecutive doublewords.
    StoreMultiple64 { rt: Reg, rt2: Reg, mem: MemArg },
    /// `rd` becomes the address.
    LoadAddr { rd: Writable<Reg>, mem: MemArg },
    /// `rd` becomes `base` plus the signed index plus `offset`, shifted left by `size`.
    LoadIndexedAddr { rd: Writable<Reg>, base: Reg, index: Reg, offset: SImm20, size: u8 },
    /// `rd` becomes `base` plus the unsigned index plus `offset`, shifted left by `size`.
    LoadLogicalIndexedAddr { rd: Writable<Reg>, base: Reg, index: Reg, offset: SImm20, size: u8 },
    /// `rd` becomes the operand in memory, which becomes itself `op rn`, in one access.
    AtomicRmw { alu_op: ALUOp, rd: Writable<Reg>, rn: Reg, mem: MemArg },
    /// Compares the operand in memory with `rd`, and stores `rn` where they are equal; `ri` is `rd`.
    AtomicCas32 { rd: Writable<Reg>, ri: Reg, rn: Reg, mem: MemArg },
    /// Compares the operand in memory with `rd`, and stores `rn` where they are equal; `ri` is `rd`.
    AtomicCas64 { rd: Writable<Reg>, ri: Reg, rn: Reg, mem: MemArg },

    // Control.
    /// A serialization of all earlier accesses.
    Fence,
    /// Nothing, in no bytes.
    Nop0,
    /// Nothing, in two bytes.
    Nop2,
    /// Stops for a debugger.
    Debugtrap,
    /// Traps.
    Trap { trap_code: TrapCode },
    /// Traps where the condition holds.
    TrapIf { cond: Cond, trap_code: TrapCode },
    /// Goes to `dest`.
    Jump { dest: MachLabel },
    /// Goes to `taken` where the condition holds, else to `not_taken`.
    CondBr { taken: MachLabel, not_taken: MachLabel, cond: Cond },
    /// Goes to the block of `targets` whose address `rn` holds.
    IndirectBr { rn: Reg, targets: Vec<MachLabel> },
    /// Returns to the address in `link`.
    Ret { link: Reg },
    /// Goes to `default` where the condition holds, else to the target at the byte offset `ridx` of a table of words.
    JTSequence { ridx: Reg, default: MachLabel, default_cond: Cond, targets: Vec<MachLabel> },
    /// Runs its members again while the condition holds behind them.
    Loop { cond: Cond, body: Vec<Inst> },
    /// Leaves the innermost `Loop` where the condition holds.
    CondBreak { cond: Cond },
    /// Calls a function.
    Call { link: Writable<Reg>, info: CallInfo },
    /// Calls a function in place of returning.
    ReturnCall { info: ReturnCallInfo<CallInstDest> },
    /// Takes `size` bytes from the stack for the arguments of a call.
    AllocateArgs { size: u32 },
    /// `rd` becomes the address that a relocation names.
    LoadSymbolReloc { rd: Writable<Reg>, symbol_reloc: SymbolReloc },
    /// `dst` becomes the address of a label.
    LabelAddress { dst: Writable<Reg>, label: MachLabel },
    /// The arguments come in.
    Args { args: Vec<ArgPair> },
    /// The results go out.
    Rets { rets: Vec<RetPair> },
    /// Uses a register, and does nothing.
    DummyUse { reg: Reg },
    /// A place to stop at, in no bytes.
    SequencePoint,

    // Vector instructions.
    /// An instruction on vector or float registers.
    Vector(VecInst),
}
