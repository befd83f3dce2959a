//! Fields, taken only as they are printed.
ghost use Rattle.std.specs.Prelude.{◌≡◌, ◌++◌, ◌∷◌, ◌<◌, ◌≤ℤ◌, ◌<ℤ◌, neg_ℤ, pos, IfSome};
ghost use Rattle.std.specs.Fmt.{decimal, signed_decimal};
ghost use Rattle.s390x_job_fields.specs.Atoms.{reg_text, IsReg};
ghost use Rattle.s390x_job_fields.specs.Numbers.{W8, W16, W32, S16, S32};
ghost use Rattle.s390x_job_fields.specs.Fields.{FAlu, FBool, FCmp, FCond, FInteger, FNatural, FReg, FShift, FShifted, FUnary, FVecBinary, FVecCompare, FVecShift, FVecUnary};
ghost use Rattle.s390x_job_exact.specs.Exact.{Takes};

use crate::cursor::ExactCursor;
use s390x_base::{
    Cond, MachLabel, Reg, RegClass, UImm16Shifted, UImm32Shifted, Writable, gpr_preg, vr_preg,
};
use s390x_inst::{
    ALUOp, CmpOp, ShiftOp, UnaryOp, VecBinaryOp, VecIntCmpOp, VecShiftOp, VecUnaryOp,
};
use s390x_job_fields::operators::{ALU_NAMES, CMP_NAMES, SHIFT_NAMES, UNARY_NAMES};
use s390x_job_fields::separators::until_separator;
use s390x_job_fields::vector_operators::{
    VEC_BINARY_NAMES, VEC_COMPARE_NAMES, VEC_SHIFT_NAMES, VEC_UNARY_NAMES,
};
use s390x_job_fields::word::{Names, Word, find};

impl<'a> ExactCursor<'a> {
    /// Takes the number of a register, which stands behind `%` and this letter.
    #[inline(always)]
    fn register_number(&mut self, letter: u8) -> Option<Reg>
        ensures text { IfSome result (λ r. 37 ∷ letter ∷ self.old ≡ reg_text r ++ self.new) }
        ensures range { IfSome result IsReg }
    {
        let number = self.natural()?;
        match letter {
            b'r' if number < 16 => Some(Reg::Real(gpr_preg(number as u8))),
            b'v' if number < 32 => Some(Reg::Real(vr_preg(number as u8))),
            b'i' if number < 4294967296 => Some(Reg::Virtual {
                num: number as u32,
                class: RegClass::Int,
            }),
            b'x' if number < 4294967296 => Some(Reg::Virtual {
                num: number as u32,
                class: RegClass::Float,
            }),
            _ => None,
        }
    }

    /// Takes a register's name.
    #[inline(always)]
    pub fn register(&mut self) -> Option<Reg>
        ensures text { IfSome result (λ r. self.old ≡ reg_text r ++ self.new) }
        ensures range { IfSome result IsReg }
    {
        let letter = self.letter()?;
        self.register_number(letter)
    }

    /// Takes a register.
    pub fn reg(&mut self) -> Option<Reg>
        ensures { IfSome result (λ r. Takes (FReg r) self.old self.new) }
    {
        let letter = self.spaced_letter()?;
        self.register_number(letter)
    }

    /// Takes a register that is written.
    #[inline(always)]
    pub fn written_reg(&mut self) -> Option<Writable<Reg>>
        ensures { IfSome result (λ r. Takes (FReg r) self.old self.new) }
    {
        let reg = self.reg()?;
        Some(Writable::from_reg(reg))
    }

    /// Takes `true` or `false`.
    pub fn truth(&mut self) -> Option<bool>
        ensures { IfSome result (λ b. Takes (FBool b) self.old self.new) }
    {
        match self.rest() {
            [_, b't', ..] => {
                self.text(b" true")?;
                Some(true)
            }
            _ => {
                self.text(b" false")?;
                Some(false)
            }
        }
    }

    /// Takes a number below a limit.
    #[inline(always)]
    fn below(&mut self, limit: u64) -> Option<u64>
        ensures text { IfSome result (λ n. self.old ≡ 32 ∷ (decimal n ++ self.new)) }
        ensures below { IfSome result (λ n. n < limit) }
    {
        self.byte(b' ')?;
        let number = self.natural()?;
        if number < limit { Some(number) } else { None }
    }

    /// Takes a number of 8 bits.
    pub fn u8(&mut self) -> Option<u8>
        ensures { IfSome result (λ n. Takes (FNatural W8 n) self.old self.new) }
    {
        let number = self.below(256)?;
        Some(number as u8)
    }

    /// Takes a number of 32 bits.
    pub fn u32(&mut self) -> Option<u32>
        ensures { IfSome result (λ n. Takes (FNatural W32 n) self.old self.new) }
    {
        let number = self.below(4294967296)?;
        Some(number as u32)
    }

    /// Takes a number of 8 bits behind a colon.
    fn place(&mut self) -> Option<u8>
        ensures text { IfSome result (λ n. self.old ≡ 58 ∷ (decimal n ++ self.new)) }
        ensures below { IfSome result (λ n. n < 256) }
    {
        self.byte(b':')?;
        let number = self.natural()?;
        if number < 256 {
            Some(number as u8)
        } else {
            None
        }
    }

    /// Takes 16 bits, and at which part of a doubleword they stand.
    pub fn shifted16(&mut self) -> Option<UImm16Shifted>
        ensures { IfSome result (λ i. Takes (FShifted W16 i.bits i.shift) self.old self.new) }
    {
        let number = self.below(65536)?;
        let shift = self.place()?;
        Some(UImm16Shifted {
            bits: number as u16,
            shift,
        })
    }

    /// Takes 32 bits, and at which half of a doubleword they stand.
    pub fn shifted32(&mut self) -> Option<UImm32Shifted>
        ensures { IfSome result (λ i. Takes (FShifted W32 i.bits i.shift) self.old self.new) }
    {
        let number = self.below(4294967296)?;
        let shift = self.place()?;
        Some(UImm32Shifted {
            bits: number as u32,
            shift,
        })
    }

    /// Takes the number of a block.
    pub fn label(&mut self) -> Option<MachLabel>
        ensures { IfSome result (λ l. Takes (FNatural W32 l.0) self.old self.new) }
    {
        let number = self.u32()?;
        Some(MachLabel(number))
    }

    /// Takes a condition.
    pub fn cond(&mut self) -> Option<Cond>
        ensures { IfSome result (λ c. Takes (FCond c) self.old self.new) }
    {
        let number = self.below(15)?;
        if 0 < number {
            Some(Cond::from_mask(number as u8))
        } else {
            None
        }
    }

    /// Takes a number with a sign, at least `-limit` and below `limit`.
    #[inline(always)]
    fn signed_number(&mut self, limit: i64) -> Option<i64>
        requires { pos 0 <ℤ limit }
        ensures text { IfSome result (λ z. self.old ≡ 32 ∷ (signed_decimal z ++ self.new)) }
        ensures least { IfSome result (λ z. neg_ℤ limit ≤ℤ z) }
        ensures below { IfSome result (λ z. z <ℤ limit) }
    {
        self.byte(b' ')?;
        let number = self.integer()?;
        if -limit <= number && number < limit {
            Some(number)
        } else {
            None
        }
    }

    /// Takes a number with a sign of 16 bits.
    pub fn i16(&mut self) -> Option<i16>
        ensures { IfSome result (λ z. Takes (FInteger S16 z) self.old self.new) }
    {
        let number = self.signed_number(1 << 15)?;
        Some(number as i16)
    }

    /// Takes a number with a sign of 32 bits.
    pub fn i32(&mut self) -> Option<i32>
        ensures { IfSome result (λ z. Takes (FInteger S32 z) self.old self.new) }
    {
        let number = self.signed_number(1 << 31)?;
        Some(number as i32)
    }

    /// Takes the word that spells a value.
    #[inline(always)]
    pub fn word<T: Word>(&mut self, names: Names<T>, other: T) -> Option<T>
        ensures { IfSome result (λ o. self.old ≡ T.spelling o ++ self.new) }
    {
        let value = find(names, until_separator(self.rest()), other);
        self.prefix(value.text().as_bytes())?;
        Some(value)
    }

    /// Takes the word that spells a value, behind a space.
    #[inline(always)]
    pub fn operator<T: Word>(&mut self, names: Names<T>, other: T) -> Option<T>
        ensures { IfSome result (λ o. self.old ≡ 32 ∷ (T.spelling o ++ self.new)) }
    {
        self.byte(b' ')?;
        self.word(names, other)
    }

    /// Takes the word that spells this value, behind a space.
    #[inline(always)]
    pub fn spelling_of<T: Word>(&mut self, value: T) -> Option<T>
        ensures { IfSome result (λ o. self.old ≡ 32 ∷ (T.spelling o ++ self.new)) }
    {
        self.byte(b' ')?;
        self.text(value.text().as_bytes())?;
        Some(value)
    }

    /// Takes an operation on integers. A few letters tell the sums, which compiled code has most.
    pub fn alu(&mut self) -> Option<ALUOp>
        ensures { IfSome result (λ o. Takes (FAlu o) self.old self.new) }
    {
        match self.rest() {
            [_, b'A', b'd', _, b'6', _, b' ', ..] => self.spelling_of(ALUOp::Add64),
            [_, b'A', b'd', _, b'3', _, b' ', ..] => self.spelling_of(ALUOp::Add32),
            [_, b'S', b'u', _, b'6', _, b' ', ..] => self.spelling_of(ALUOp::Sub64),
            [_, b'S', b'u', _, b'3', _, b' ', ..] => self.spelling_of(ALUOp::Sub32),
            _ => self.operator(ALU_NAMES, ALUOp::Add32),
        }
    }

    /// Takes a comparison.
    pub fn cmp(&mut self) -> Option<CmpOp>
        ensures { IfSome result (λ o. Takes (FCmp o) self.old self.new) }
    {
        self.operator(CMP_NAMES, CmpOp::CmpS32)
    }

    /// Takes a shift.
    pub fn shift_op(&mut self) -> Option<ShiftOp>
        ensures { IfSome result (λ o. Takes (FShift o) self.old self.new) }
    {
        self.operator(SHIFT_NAMES, ShiftOp::RotL32)
    }

    /// Takes an operation on one integer.
    pub fn unary(&mut self) -> Option<UnaryOp>
        ensures { IfSome result (λ o. Takes (FUnary o) self.old self.new) }
    {
        self.operator(UNARY_NAMES, UnaryOp::Abs32)
    }

    /// Takes an operation on two vectors. A few letters tell the sums of words and doublewords.
    pub fn vec_binary(&mut self) -> Option<VecBinaryOp>
        ensures { IfSome result (λ o. Takes (FVecBinary o) self.old self.new) }
    {
        match self.rest() {
            [_, b'A', _, _, b'6', ..] => self.spelling_of(VecBinaryOp::Add64x2),
            [_, b'A', _, _, b'3', ..] => self.spelling_of(VecBinaryOp::Add32x4),
            _ => self.operator(VEC_BINARY_NAMES, VecBinaryOp::Add8x16),
        }
    }

    /// Takes an operation on one vector.
    pub fn vec_unary(&mut self) -> Option<VecUnaryOp>
        ensures { IfSome result (λ o. Takes (FVecUnary o) self.old self.new) }
    {
        self.operator(VEC_UNARY_NAMES, VecUnaryOp::Abs8x16)
    }

    /// Takes a shift of a vector.
    pub fn vec_shift_op(&mut self) -> Option<VecShiftOp>
        ensures { IfSome result (λ o. Takes (FVecShift o) self.old self.new) }
    {
        self.operator(VEC_SHIFT_NAMES, VecShiftOp::RotL8x16)
    }

    /// Takes a comparison of vectors.
    pub fn vec_compare(&mut self) -> Option<VecIntCmpOp>
        ensures { IfSome result (λ o. Takes (FVecCompare o) self.old self.new) }
    {
        self.operator(VEC_COMPARE_NAMES, VecIntCmpOp::CmpEq8x16)
    }
}
