//! Machine rows with an operand in memory.
ghost use Rattle.std.specs.Prelude.{◌≡◌, ◌≤◌, ◌<◌, ◌&&◌, true, false, None, Some, MatchResult, IfSome, is_some, nat_lt};
ghost use Rattle.std.specs.Option.{option_map};
ghost use Rattle.s390x_base.specs.Regs.{number_of};
ghost use Rattle.s390x_base.specs.AccessFlags.{AccessFlags};
ghost use Rattle.s390x_enc.specs.Operands.{is_general_class, is_vector, may_stand_first};
ghost use Rattle.s390x_inst.specs.declared.args.MemArg.TheVariants.{BXD12, BXD20};
ghost use Rattle.s390x_typed_steps.specs.General.{low_displacement, low_12};
ghost use Rattle.s390x_typed_steps.specs.MachineInstruction.{bytes_of, size_of, rx, rxy, rs, rsy, vrx};
ghost use Rattle.s390x_typed_steps.specs.Memory.{type_of, of_opcode, storage_row};
ghost use Rattle.s390x_typed_steps.specs.Operands.{operand_general};
ghost use Rattle.s390x_address.specs.Rows.{row_of, row_encodes, rows_encode, storage_form_of, rows_take_general};

use s390x_base::{Code, EmitError, Reg, SImm20, UImm12};
use s390x_enc::{enc_rs, enc_rsy, enc_rx, enc_rxy, enc_si, enc_sil, enc_siy, enc_vrx};
use s390x_inst::MemArg;
use s390x_typed_steps::{MemInstType, low_12, low_displacement};

/// A machine instruction with an operand in memory, in its format.
#[derive(Clone, Copy)]
pub enum StorageRow {
    Rx {
        opcode: u8,
        r1: Reg,
        b2: Reg,
        x2: Reg,
        disp: UImm12,
    },
    Rxy {
        opcode: u16,
        r1: Reg,
        b2: Reg,
        x2: Reg,
        disp: SImm20,
    },
    Rs {
        opcode: u8,
        r1: Reg,
        r3: Reg,
        b2: Reg,
        disp: UImm12,
    },
    Rsy {
        opcode: u16,
        r1: Reg,
        r3: Reg,
        b2: Reg,
        disp: SImm20,
    },
    Si {
        opcode: u8,
        b1: Reg,
        disp: UImm12,
        imm: u8,
    },
    Siy {
        opcode: u16,
        b1: Reg,
        disp: SImm20,
        imm: u8,
    },
    Sil {
        opcode: u16,
        b1: Reg,
        disp: UImm12,
        imm: i16,
    },
    Vrx {
        opcode: u16,
        v1: Reg,
        b2: Reg,
        x2: Reg,
        disp: UImm12,
        mask: u8,
    },
}

/// The machine rows that an instruction has for its operand, by format, and what else stands in them.
#[derive(Clone, Copy)]
pub enum StorageRows {
    /// RX, RXY and RIL-B, with a register.
    OneRegister {
        register: Reg,
        rx: Option<u8>,
        rxy: Option<u16>,
        ril: Option<u16>,
    },
    /// RS and RSY, with two registers.
    TwoRegisters {
        first: Reg,
        second: Reg,
        rs: Option<u8>,
        rsy: Option<u16>,
    },
    /// SI and SIY, with an immediate of 8 bits.
    Byte {
        imm: u8,
        si: u8,
        siy: u16,
    },
    /// SIL, with an immediate of 16 bits.
    Halfword {
        imm: i16,
        sil: u16,
    },
    /// VRX, with a vector register and a mask.
    Vector {
        register: Reg,
        vrx: u16,
        mask: u8,
    },
    /// RX and RXY, with a float register.
    Float {
        register: Reg,
        rx: u8,
        rxy: u16,
    },
}

/// The code of a row with a mask. No row has one of more than four bits. Refused where a register or the mask can't be encoded.
#[inline(always)]
pub fn masked_code(
    opcode: u16,
    v1: Reg,
    b2: Reg,
    x2: Reg,
    disp: UImm12,
    mask: u8,
) -> Result<Code, EmitError>
    ensures { MatchResult result
        (λ code. code
        ≡ bytes_of (vrx opcode (number_of v1) (number_of b2) (number_of x2) mask (low_12 disp)))
        (λ _. (nat_lt mask 16 && is_vector v1 && is_general_class b2 && is_general_class x2)
        ≡ false) }
{
    if mask < 16 {
        enc_vrx(opcode, v1, b2, x2, low_12(disp), mask)
    } else {
        Err(EmitError::BadOperator)
    }
}

impl StorageRow {
    /// Its bytes. It is refused where a register or the mask can't be encoded.
    pub fn code(&self) -> Result<Code, EmitError>
        ensures { MatchResult result (λ code. code ≡ bytes_of (row_of self.now))
            (λ _. row_encodes self.now ≡ false) }
    {
        match self {
            StorageRow::Rx {
                opcode,
                r1,
                b2,
                x2,
                disp,
            } => enc_rx(u16::from(*opcode), *r1, *b2, *x2, low_12(*disp)),
            StorageRow::Rxy {
                opcode,
                r1,
                b2,
                x2,
                disp,
            } => enc_rxy(*opcode, *r1, *b2, *x2, low_displacement(*disp)),
            StorageRow::Rs {
                opcode,
                r1,
                r3,
                b2,
                disp,
            } => enc_rs(u16::from(*opcode), *r1, *r3, *b2, low_12(*disp)),
            StorageRow::Rsy {
                opcode,
                r1,
                r3,
                b2,
                disp,
            } => enc_rsy(*opcode, *r1, *r3, *b2, low_displacement(*disp)),
            StorageRow::Si {
                opcode,
                b1,
                disp,
                imm,
            } => enc_si(u16::from(*opcode), *b1, low_12(*disp), *imm),
            StorageRow::Siy {
                opcode,
                b1,
                disp,
                imm,
            } => enc_siy(*opcode, *b1, low_displacement(*disp), *imm),
            StorageRow::Sil {
                opcode,
                b1,
                disp,
                imm,
            } => enc_sil(*opcode, *b1, low_12(*disp), *imm),
            StorageRow::Vrx {
                opcode,
                v1,
                b2,
                x2,
                disp,
                mask,
            } => masked_code(*opcode, *v1, *b2, *x2, *disp, *mask),
        }
    }

    /// How many bytes it has.
    #[tactic(auto, unfolding(s390x_format::specs::Formats::length_of))]
    pub fn size(&self) -> u64
        ensures value { result ≡ size_of (row_of self.now) }
        ensures few { result ≤ 6 }
    {
        match self {
            StorageRow::Rx { .. } | StorageRow::Rs { .. } | StorageRow::Si { .. } => 4,
            StorageRow::Rxy { .. }
            | StorageRow::Rsy { .. }
            | StorageRow::Siy { .. }
            | StorageRow::Sil { .. }
            | StorageRow::Vrx { .. } => 6,
        }
    }
}

#[tactic(auto, using(crate::proofs::Encoding::indexed_encodes))]
fn rx_row(opcode: Option<u8>, r1: Reg, b2: Reg, x2: Reg, disp: UImm12) -> Option<StorageRow>
    ensures row { option_map row_of result
        ≡ of_opcode (λ o. rx o (number_of r1) (number_of b2) (number_of x2) (low_12 disp)) opcode }
    ensures encodes { (is_general_class r1 && rows_take_general opcode) ≡ true
        → (is_general_class b2 && is_general_class x2) ≡ true
        → IfSome result (λ row. row_encodes row ≡ true) }
{
    match opcode {
        Some(opcode) => Some(StorageRow::Rx {
            opcode,
            r1,
            b2,
            x2,
            disp,
        }),
        None => None,
    }
}

#[tactic(auto, using(crate::proofs::Encoding::indexed_encodes))]
fn rxy_row(opcode: Option<u16>, r1: Reg, b2: Reg, x2: Reg, disp: SImm20) -> Option<StorageRow>
    ensures row { option_map row_of result
        ≡ of_opcode
        (λ o. rxy o (number_of r1) (number_of b2) (number_of x2) (low_displacement disp))
        opcode }
    ensures encodes { (is_general_class r1 && rows_take_general opcode) ≡ true
        → (is_general_class b2 && is_general_class x2) ≡ true
        → IfSome result (λ row. row_encodes row ≡ true) }
{
    match opcode {
        Some(opcode) => Some(StorageRow::Rxy {
            opcode,
            r1,
            b2,
            x2,
            disp,
        }),
        None => None,
    }
}

#[tactic(auto, using(crate::proofs::Encoding::ranged_encodes))]
fn rs_row(opcode: Option<u8>, r1: Reg, r3: Reg, b2: Reg, disp: UImm12) -> Option<StorageRow>
    ensures row { option_map row_of result
        ≡ of_opcode (λ o. rs o (number_of r1) (number_of r3) (number_of b2) (low_12 disp)) opcode }
    ensures encodes { (is_general_class r1 && is_general_class r3) ≡ true
        → is_general_class b2 ≡ true → IfSome result (λ row. row_encodes row ≡ true) }
{
    match opcode {
        Some(opcode) => Some(StorageRow::Rs {
            opcode,
            r1,
            r3,
            b2,
            disp,
        }),
        None => None,
    }
}

#[tactic(auto, using(crate::proofs::Encoding::ranged_encodes))]
fn rsy_row(opcode: Option<u16>, r1: Reg, r3: Reg, b2: Reg, disp: SImm20) -> Option<StorageRow>
    ensures row { option_map row_of result
        ≡ of_opcode
        (λ o. rsy o (number_of r1) (number_of r3) (number_of b2) (low_displacement disp))
        opcode }
    ensures encodes { (is_general_class r1 && is_general_class r3) ≡ true
        → is_general_class b2 ≡ true → IfSome result (λ row. row_encodes row ≡ true) }
{
    match opcode {
        Some(opcode) => Some(StorageRow::Rsy {
            opcode,
            r1,
            r3,
            b2,
            disp,
        }),
        None => None,
    }
}

#[tactic(auto, using(crate::proofs::Encoding::masked_encodes))]
fn vrx_row(opcode: u16, v1: Reg, b2: Reg, x2: Reg, disp: UImm12, mask: u8) -> StorageRow
    ensures row { row_of result
        ≡ vrx opcode (number_of v1) (number_of b2) (number_of x2) mask (low_12 disp) }
    ensures encodes { (nat_lt mask 16 && is_vector v1) ≡ true
        → (is_general_class b2 && is_general_class x2) ≡ true → row_encodes result ≡ true }
{
    StorageRow::Vrx {
        opcode,
        v1,
        b2,
        x2,
        disp,
        mask,
    }
}

#[tactic(auto, using(crate::proofs::Encoding::float_encodes))]
fn float_rx_row(opcode: u8, r1: Reg, b2: Reg, x2: Reg, disp: UImm12) -> StorageRow
    ensures row { row_of result
        ≡ rx opcode (number_of r1) (number_of b2) (number_of x2) (low_12 disp) }
    ensures encodes { may_stand_first opcode r1 ≡ true
        → (is_general_class b2 && is_general_class x2) ≡ true → row_encodes result ≡ true }
{
    StorageRow::Rx {
        opcode,
        r1,
        b2,
        x2,
        disp,
    }
}

#[tactic(auto, using(crate::proofs::Encoding::float_encodes))]
fn float_rxy_row(opcode: u16, r1: Reg, b2: Reg, x2: Reg, disp: SImm20) -> StorageRow
    ensures row { row_of result
        ≡ rxy opcode (number_of r1) (number_of b2) (number_of x2) (low_displacement disp) }
    ensures encodes { may_stand_first opcode r1 ≡ true
        → (is_general_class b2 && is_general_class x2) ≡ true → row_encodes result ≡ true }
{
    StorageRow::Rxy {
        opcode,
        r1,
        b2,
        x2,
        disp,
    }
}

impl StorageRows {
    /// Which forms of an operand the rows take, in an instruction that accesses memory or loads an address.
    #[inline]
    pub fn forms(&self, accesses: bool) -> MemInstType
        ensures { result ≡ type_of (storage_form_of self.now) accesses }
    {
        match self {
            StorageRows::OneRegister { rx, rxy, ril, .. } => MemInstType {
                have_d12: rx.is_some(),
                have_d20: rxy.is_some(),
                have_pcrel: ril.is_some(),
                have_unaligned_pcrel: ril.is_some() && !accesses,
                have_index: true,
            },
            StorageRows::TwoRegisters { rs, rsy, .. } => MemInstType {
                have_d12: rs.is_some(),
                have_d20: rsy.is_some(),
                have_pcrel: false,
                have_unaligned_pcrel: false,
                have_index: false,
            },
            StorageRows::Byte { .. } => MemInstType {
                have_d12: true,
                have_d20: true,
                have_pcrel: false,
                have_unaligned_pcrel: false,
                have_index: false,
            },
            StorageRows::Halfword { .. } => MemInstType {
                have_d12: true,
                have_d20: false,
                have_pcrel: false,
                have_unaligned_pcrel: false,
                have_index: false,
            },
            StorageRows::Vector { .. } => MemInstType {
                have_d12: true,
                have_d20: false,
                have_pcrel: false,
                have_unaligned_pcrel: false,
                have_index: true,
            },
            StorageRows::Float { .. } => MemInstType {
                have_d12: true,
                have_d20: true,
                have_pcrel: false,
                have_unaligned_pcrel: false,
                have_index: true,
            },
        }
    }

    // The row at a displacement of 12 bits.
    fn short_row(&self, base: Reg, index: Reg, disp: UImm12) -> Option<StorageRow>
        ensures row { (flags : AccessFlags)
            → option_map row_of result
            ≡ storage_row (storage_form_of self.now) (BXD12 base index disp flags) }
        ensures encodes { rows_encode self.now ≡ true
            → (is_general_class base && is_general_class index) ≡ true
            → IfSome result (λ row. row_encodes row ≡ true) }
    {
        match self {
            StorageRows::OneRegister { register, rx, .. } => rx_row(
                *rx, *register, base, index, disp,
            ),
            StorageRows::TwoRegisters {
                first,
                second,
                rs,
                ..
            } => rs_row(*rs, *first, *second, base, disp),
            StorageRows::Byte { imm, si, .. } => Some(StorageRow::Si {
                opcode: *si,
                b1: base,
                disp,
                imm: *imm,
            }),
            StorageRows::Halfword { imm, sil } => Some(StorageRow::Sil {
                opcode: *sil,
                b1: base,
                disp,
                imm: *imm,
            }),
            StorageRows::Vector {
                register,
                vrx,
                mask,
            } => Some(vrx_row(*vrx, *register, base, index, disp, *mask)),
            StorageRows::Float { register, rx, .. } => {
                Some(float_rx_row(*rx, *register, base, index, disp))
            }
        }
    }

    // The row at a displacement of 20 bits.
    fn long_row(&self, base: Reg, index: Reg, disp: SImm20) -> Option<StorageRow>
        ensures row { (flags : AccessFlags)
            → option_map row_of result
            ≡ storage_row (storage_form_of self.now) (BXD20 base index disp flags) }
        ensures encodes { rows_encode self.now ≡ true
            → (is_general_class base && is_general_class index) ≡ true
            → IfSome result (λ row. row_encodes row ≡ true) }
    {
        match self {
            StorageRows::OneRegister { register, rxy, .. } => rxy_row(
                *rxy, *register, base, index, disp,
            ),
            StorageRows::TwoRegisters {
                first,
                second,
                rsy,
                ..
            } => rsy_row(*rsy, *first, *second, base, disp),
            StorageRows::Byte { imm, siy, .. } => Some(StorageRow::Siy {
                opcode: *siy,
                b1: base,
                disp,
                imm: *imm,
            }),
            StorageRows::Halfword { .. } | StorageRows::Vector { .. } => None,
            StorageRows::Float { register, rxy, .. } => {
                Some(float_rxy_row(*rxy, *register, base, index, disp))
            }
        }
    }

    /// The row at an operand that stands in it as it is, where there is one.
    pub fn row(&self, operand: &MemArg) -> Option<StorageRow>
        ensures row { option_map row_of result
            ≡ storage_row (storage_form_of self.now) operand.now }
        ensures encodes { rows_encode self.now ≡ true → operand_general operand.now ≡ true
            → IfSome result (λ row. row_encodes row ≡ true) }
    {
        match operand {
            MemArg::BXD12 {
                base,
                index,
                disp,
                ..
            } => self.short_row(*base, *index, *disp),
            MemArg::BXD20 {
                base,
                index,
                disp,
                ..
            } => self.long_row(*base, *index, *disp),
            _ => None,
        }
    }
}
