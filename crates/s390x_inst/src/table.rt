//! The tables of instructions: a line for each tells its fields in the order of their declaration, each by its kind. From them is written what is made of every
//! instruction alike: its copy, and in the crates above what it is with other registers, and its line in a job.
//!
//! A table calls the macro that it is given, with what is handed on to it in parentheses, and then its groups. A kind is that of the field's type; of registers:
//!
//! - `written_reg` is written, `reg` is read; `tied_reg` is written and has to be that of the input `ri`;
//! - `written_pair` is a pair that is written, `pair` an input that has to be this pair, `low_reg` one that has to be its low half;
//! - `range_written` and `range_reg` are the ends of a range, and `real` is a real register: no allocator changes them.

/// The variants of `Inst` that have fields, but for those with lists or members and for `Vector`.
#[macro_export]
macro_rules! inst_table {
    ($walk:ident, $($with:tt)*) => {
        $walk! { ($($with)*)
            operators {
                AluRRR { alu_op: alu, rd: written_reg, rn: reg, rm: reg }
                AluRRSImm16 { alu_op: alu, rd: written_reg, rn: reg, imm: i16 }
                AluRR { alu_op: alu, rd: tied_reg, ri: reg, rm: reg }
                AluRX { alu_op: alu, rd: tied_reg, ri: reg, mem: memory }
                AluRSImm16 { alu_op: alu, rd: tied_reg, ri: reg, imm: i16 }
                AluRSImm32 { alu_op: alu, rd: tied_reg, ri: reg, imm: i32 }
                AluRUImm32 { alu_op: alu, rd: tied_reg, ri: reg, imm: u32 }
                AluRUImm16Shifted { alu_op: alu, rd: tied_reg, ri: reg, imm: shifted16 }
                AluRUImm32Shifted { alu_op: alu, rd: tied_reg, ri: reg, imm: shifted32 }
                SMulWide { rd: written_pair, rn: reg, rm: reg }
                UMulWide { rd: written_pair, ri: low_reg, rn: reg }
                SDivMod32 { rd: written_pair, ri: low_reg, rn: reg }
                SDivMod64 { rd: written_pair, ri: low_reg, rn: reg }
                UDivMod32 { rd: written_pair, ri: pair, rn: reg }
                UDivMod64 { rd: written_pair, ri: pair, rn: reg }
                Flogr { rd: written_pair, rn: reg }
                ShiftRR { shift_op: shift_op, rd: written_reg, rn: reg, shift_imm: u8, shift_reg: reg }
                RxSBG { op: rxsbg, rd: tied_reg, ri: reg, rn: reg, start_bit: u8, end_bit: u8, rotate_amt: i8 }
                RxSBGTest { op: rxsbg, rd: reg, rn: reg, start_bit: u8, end_bit: u8, rotate_amt: i8 }
                UnaryRR { op: unary, rd: written_reg, rn: reg }
                CmpRR { op: cmp, rn: reg, rm: reg }
                CmpRX { op: cmp, rn: reg, mem: memory }
                CmpRSImm16 { op: cmp, rn: reg, imm: i16 }
                CmpRSImm32 { op: cmp, rn: reg, imm: i32 }
                CmpRUImm32 { op: cmp, rn: reg, imm: u32 }
                CmpTrapRR { op: cmp, rn: reg, rm: reg, cond: cond, trap_code: trap }
                CmpTrapRSImm16 { op: cmp, rn: reg, imm: i16, cond: cond, trap_code: trap }
                CmpTrapRUImm16 { op: cmp, rn: reg, imm: u16, cond: cond, trap_code: trap }
            }
            moves {
                Mov64 { rd: written_reg, rm: reg }
                MovPReg { rd: written_reg, rm: real }
                Mov32 { rd: written_reg, rm: reg }
                Mov32Imm { rd: written_reg, imm: u32 }
                Mov32SImm16 { rd: written_reg, imm: i16 }
                Mov64SImm16 { rd: written_reg, imm: i16 }
                Mov64SImm32 { rd: written_reg, imm: i32 }
                Mov64UImm16Shifted { rd: written_reg, imm: shifted16 }
                Mov64UImm32Shifted { rd: written_reg, imm: shifted32 }
                Insert64UImm16Shifted { rd: tied_reg, ri: reg, imm: shifted16 }
                Insert64UImm32Shifted { rd: tied_reg, ri: reg, imm: shifted32 }
                CMov32 { rd: tied_reg, cond: cond, ri: reg, rm: reg }
                CMov64 { rd: tied_reg, cond: cond, ri: reg, rm: reg }
                CMov32SImm16 { rd: tied_reg, cond: cond, ri: reg, imm: i16 }
                CMov64SImm16 { rd: tied_reg, cond: cond, ri: reg, imm: i16 }
                Extend { rd: written_reg, rn: reg, signed: truth, from_bits: u8, to_bits: u8 }
                LoadAR { rd: written_reg, ar: u8 }
                InsertAR { rd: tied_reg, ri: reg, ar: u8 }
            }
            loads {
                Load32 { rd: written_reg, mem: memory }
                Load32ZExt8 { rd: written_reg, mem: memory }
                Load32SExt8 { rd: written_reg, mem: memory }
                Load32ZExt16 { rd: written_reg, mem: memory }
                Load32SExt16 { rd: written_reg, mem: memory }
                Load64 { rd: written_reg, mem: memory }
                Load64ZExt8 { rd: written_reg, mem: memory }
                Load64SExt8 { rd: written_reg, mem: memory }
                Load64ZExt16 { rd: written_reg, mem: memory }
                Load64SExt16 { rd: written_reg, mem: memory }
                Load64ZExt32 { rd: written_reg, mem: memory }
                Load64SExt32 { rd: written_reg, mem: memory }
                LoadRev16 { rd: written_reg, mem: memory }
                LoadRev32 { rd: written_reg, mem: memory }
                LoadRev64 { rd: written_reg, mem: memory }
            }
            stores {
                Store8 { rd: reg, mem: memory }
                Store16 { rd: reg, mem: memory }
                Store32 { rd: reg, mem: memory }
                Store64 { rd: reg, mem: memory }
                StoreRev16 { rd: reg, mem: memory }
                StoreRev32 { rd: reg, mem: memory }
                StoreRev64 { rd: reg, mem: memory }
            }
            memory {
                StoreImm8 { imm: u8, mem: memory }
                StoreImm16 { imm: i16, mem: memory }
                StoreImm32SExt16 { imm: i16, mem: memory }
                StoreImm64SExt16 { imm: i16, mem: memory }
                LoadMultiple64 { rt: range_written, rt2: range_written, mem: memory }
                StoreMultiple64 { rt: range_reg, rt2: range_reg, mem: memory }
                LoadAddr { rd: written_reg, mem: memory }
                LoadIndexedAddr { rd: written_reg, base: reg, index: reg, offset: displacement, size: u8 }
                LoadLogicalIndexedAddr { rd: written_reg, base: reg, index: reg, offset: displacement, size: u8 }
                AtomicRmw { alu_op: alu, rd: written_reg, rn: reg, mem: memory }
                AtomicCas32 { rd: tied_reg, ri: reg, rn: reg, mem: memory }
                AtomicCas64 { rd: tied_reg, ri: reg, rn: reg, mem: memory }
            }
            control {
                Trap { trap_code: trap }
                TrapIf { cond: cond, trap_code: trap }
                Jump { dest: label }
                CondBr { taken: label, not_taken: label, cond: cond }
                Ret { link: reg }
                CondBreak { cond: cond }
                AllocateArgs { size: u32 }
            }
            addresses {
                LoadSymbolReloc { rd: written_reg, symbol_reloc: reloc }
                LabelAddress { dst: written_reg, label: label }
                DummyUse { reg: reg }
            }
        }
    };
}

/// The variants of `VecInst`; with loads and stores of a whole register their layout.
#[macro_export]
macro_rules! vector_table {
    ($walk:ident, $($with:tt)*) => {
        $walk! { ($($with)*)
            loads {
                VecLoad Straight { rd: written_reg, mem: memory }
                VecLoadRev Reversed { rd: written_reg, mem: memory }
                VecLoadByte16Rev Bytes16 { rd: written_reg, mem: memory }
                VecLoadByte32Rev Bytes32 { rd: written_reg, mem: memory }
                VecLoadByte64Rev Bytes64 { rd: written_reg, mem: memory }
                VecLoadElt16Rev Elements16 { rd: written_reg, mem: memory }
                VecLoadElt32Rev Elements32 { rd: written_reg, mem: memory }
                VecLoadElt64Rev Elements64 { rd: written_reg, mem: memory }
            }
            stores {
                VecStore Straight { rd: reg, mem: memory }
                VecStoreRev Reversed { rd: reg, mem: memory }
                VecStoreByte16Rev Bytes16 { rd: reg, mem: memory }
                VecStoreByte32Rev Bytes32 { rd: reg, mem: memory }
                VecStoreByte64Rev Bytes64 { rd: reg, mem: memory }
                VecStoreElt16Rev Elements16 { rd: reg, mem: memory }
                VecStoreElt32Rev Elements32 { rd: reg, mem: memory }
                VecStoreElt64Rev Elements64 { rd: reg, mem: memory }
            }
            others {
                VecRRR { op: vec_binary, rd: written_reg, rn: reg, rm: reg }
                VecRR { op: vec_unary, rd: written_reg, rn: reg }
                VecShiftRR { shift_op: vec_shift_op, rd: written_reg, rn: reg, shift_imm: u8, shift_reg: reg }
                VecSelect { rd: written_reg, rn: reg, rm: reg, ra: reg }
                VecPermute { rd: written_reg, rn: reg, rm: reg, ra: reg }
                VecBlend { rd: written_reg, rn: reg, rm: reg, ra: reg }
                VecEvaluate { imm: u8, rd: written_reg, rn: reg, rm: reg, ra: reg }
                VecPermuteDWImm { rd: written_reg, rn: reg, rm: reg, idx1: u8, idx2: u8 }
                VecIntCmp { op: vec_compare, rd: written_reg, rn: reg, rm: reg }
                VecIntCmpS { op: vec_compare, rd: written_reg, rn: reg, rm: reg }
                VecIntEltCmp { op: vec_element_compare, rn: reg, rm: reg }
                VecInt128SCmpHi { tmp: written_reg, rn: reg, rm: reg }
                VecInt128UCmpHi { tmp: written_reg, rn: reg, rm: reg }
                VecLoadReplicate { size: u32, rd: written_reg, mem: memory }
                VecLoadReplicateRev { size: u32, rd: written_reg, mem: memory }
                VecLoadLane { size: u32, rd: tied_reg, ri: reg, mem: memory, lane_imm: u8 }
                VecLoadLaneRev { size: u32, rd: tied_reg, ri: reg, mem: memory, lane_imm: u8 }
                VecLoadLaneUndef { size: u32, rd: written_reg, mem: memory, lane_imm: u8 }
                VecLoadLaneRevUndef { size: u32, rd: written_reg, mem: memory, lane_imm: u8 }
                VecStoreLane { size: u32, rd: reg, mem: memory, lane_imm: u8 }
                VecStoreLaneRev { size: u32, rd: reg, mem: memory, lane_imm: u8 }
                VecMov { rd: written_reg, rn: reg }
                FpuMove32 { rd: written_reg, rn: reg }
                FpuMove64 { rd: written_reg, rn: reg }
                FpuCMov32 { rd: tied_reg, cond: cond, ri: reg, rm: reg }
                FpuCMov64 { rd: tied_reg, cond: cond, ri: reg, rm: reg }
                VecCMov { rd: tied_reg, cond: cond, ri: reg, rm: reg }
                MovToVec128 { rd: written_reg, rn: reg, rm: reg }
                VecImmByteMask { rd: written_reg, mask: u16 }
                VecImmBitMask { size: u32, rd: written_reg, start_bit: u8, end_bit: u8 }
                VecImmReplicate { size: u32, rd: written_reg, imm: i16 }
                VecInsertLane { size: u32, rd: tied_reg, ri: reg, rn: reg, lane_imm: u8, lane_reg: reg }
                VecInsertLaneUndef { size: u32, rd: written_reg, rn: reg, lane_imm: u8, lane_reg: reg }
                VecExtractLane { size: u32, rd: written_reg, rn: reg, lane_imm: u8, lane_reg: reg }
                VecInsertLaneImm { size: u32, rd: tied_reg, ri: reg, imm: i16, lane_imm: u8 }
                VecInsertLaneImmUndef { size: u32, rd: written_reg, imm: i16, lane_imm: u8 }
                VecReplicateLane { size: u32, rd: written_reg, rn: reg, lane_imm: u8 }
                VecEltRev { lane_count: u64, rd: written_reg, rn: reg }
            }
        }
    };
}

/// What is made of an instruction, by a table: for each, or for several of one kind, a line with its fields and what is made of it; then the arms of the others.
#[macro_export]
macro_rules! rows {
    ($inst:expr, $kind:ident { $($($name:ident $fields:tt)|+ => $row:expr,)* } $($rest:tt)*) => {
        match $inst {
            $($($kind::$name $fields)|+ => $row,)*
            $($rest)*
        }
    };
}
