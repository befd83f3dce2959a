//! Memory operands, taken only as they are printed.
ghost use Rattle.std.specs.Prelude.{◌≡◌, ◌++◌, ◌∷◌, ◌<◌, ◌^◌, IfSome};
ghost use Rattle.std.specs.Fmt.{decimal, signed_decimal};
ghost use Rattle.s390x_job_fields.specs.Atoms.{access_text, aligned_text, reg_text, trap_suffix, trap_text, IsReg, IsSuffix};
ghost use Rattle.s390x_job_fields.specs.Numbers.{IsBelow};
ghost use Rattle.s390x_base.specs.Traps.{IsKind};
ghost use Rattle.s390x_job_fields.specs.Fields.{FMemory, FTrap};
ghost use Rattle.s390x_job_exact.specs.Exact.{Takes};

use crate::cursor::ExactCursor;
use s390x_base::{MachLabel, MachMemFlags, RegPair, SImm20, TrapCode, UImm12, VCodeConstant};
use s390x_inst::MemArg;

impl<'a> ExactCursor<'a> {
    /// Takes the trap code of this text.
    fn named_trap(&mut self, text: &[u8], code: TrapCode) -> Option<TrapCode>
        requires text { text.now ≡ trap_text code }
        requires range { IsKind code }
        ensures text { IfSome result (λ t. self.old ≡ trap_text t ++ self.new) }
        ensures range { IfSome result IsKind }
    {
        self.text(text)?;
        Some(code)
    }

    /// Takes a trap code of the user's.
    fn user_trap(&mut self) -> Option<TrapCode>
        ensures text { IfSome result (λ t. self.old ≡ trap_text t ++ self.new) }
        ensures range { IfSome result IsKind }
    {
        self.text(b"user")?;
        let number = self.natural()?;
        if number < 256 {
            TrapCode::user(number as u8)
        } else {
            None
        }
    }

    /// Takes a trap code.
    fn trap(&mut self) -> Option<TrapCode>
        ensures text { IfSome result (λ t. self.old ≡ trap_text t ++ self.new) }
        ensures range { IfSome result IsKind }
    {
        match self.rest() {
            [b'h', ..] => self.named_trap(b"heap_oob", TrapCode::HEAP_OUT_OF_BOUNDS),
            [b's', ..] => self.named_trap(b"stk_ovf", TrapCode::STACK_OVERFLOW),
            [b'b', ..] => self.named_trap(b"bad_toint", TrapCode::BAD_CONVERSION_TO_INTEGER),
            [_, _, _, _, b'o', ..] => self.named_trap(b"int_ovf", TrapCode::INTEGER_OVERFLOW),
            [b'i', ..] => self.named_trap(b"int_divz", TrapCode::INTEGER_DIVISION_BY_ZERO),
            _ => self.user_trap(),
        }
    }

    /// Takes a trap code behind a space.
    pub fn trap_code(&mut self) -> Option<TrapCode>
        ensures { IfSome result (λ t. Takes (FTrap t) self.old self.new) }
    {
        self.byte(b' ')?;
        self.trap()
    }

    /// Takes the trap code behind a `!`, where one stands there.
    #[inline(always)]
    fn suffix(&mut self) -> Option<Option<TrapCode>>
        ensures text { IfSome result (λ t. self.old ≡ trap_suffix t ++ self.new) }
        ensures range { IfSome result IsSuffix }
    {
        match self.rest() {
            [b'!', ..] => {
                self.byte(b'!')?;
                let code = self.trap()?;
                Some(Some(code))
            }
            _ => Some(None),
        }
    }

    /// Takes whether an access is known to be aligned.
    #[inline(always)]
    fn alignment_flag(&mut self) -> Option<bool>
        ensures { IfSome result (λ b. self.old ≡ aligned_text b ++ self.new) }
    {
        match self.next_byte()? {
            b'a' => Some(true),
            b'u' => Some(false),
            _ => None,
        }
    }

    /// Takes what is known of an access.
    #[inline(always)]
    fn access(&mut self) -> Option<MachMemFlags>
        ensures text { IfSome result (λ f. self.old ≡ access_text f ++ self.new) }
        ensures range { IfSome result (λ f. IsSuffix f.trap) }
    {
        let aligned = self.alignment_flag()?;
        let trap = self.suffix()?;
        Some(MachMemFlags { aligned, trap })
    }

    /// Takes a register and an offset.
    #[inline(always)]
    fn reg_offset(&mut self) -> Option<MemArg>
        ensures { IfSome result (λ m. Takes (FMemory m) self.old self.new) }
    {
        self.text(b" RegOffset(")?;
        let reg = self.register()?;
        self.byte(b',')?;
        let off = self.integer()?;
        self.byte(b',')?;
        let flags = self.access()?;
        self.byte(b')')?;
        Some(MemArg::RegOffset { reg, off, flags })
    }

    /// Takes a displacement of 12 bits.
    fn displacement12(&mut self) -> Option<UImm12>
        ensures text { IfSome result (λ d. self.old ≡ decimal d ++ self.new) }
        ensures below { IfSome result (λ d. d < 4096) }
    {
        let number = self.natural()?;
        UImm12::maybe_from_u64(number)
    }

    /// Takes a base and an index, each before a comma.
    #[inline(always)]
    fn base_index(&mut self) -> Option<RegPair>
        ensures text { IfSome result
            (λ p. self.old ≡ reg_text p.hi ++ (44 ∷ (reg_text p.lo ++ (44 ∷ self.new)))) }
        ensures base { IfSome result (λ p. IsReg p.hi) }
        ensures index { IfSome result (λ p. IsReg p.lo) }
    {
        let hi = self.register()?;
        self.byte(b',')?;
        let lo = self.register()?;
        self.byte(b',')?;
        Some(RegPair { hi, lo })
    }

    /// Takes a base, an index and a displacement of 12 bits.
    fn indexed12(&mut self) -> Option<MemArg>
        ensures { IfSome result (λ m. Takes (FMemory m) self.old self.new) }
    {
        self.text(b" BXD12(")?;
        let at = self.base_index()?;
        let disp = self.displacement12()?;
        let flags = self.access_end()?;
        Some(MemArg::BXD12 {
            base: at.hi,
            index: at.lo,
            disp,
            flags,
        })
    }

    /// Takes a displacement of 20 bits.
    fn displacement20(&mut self) -> Option<SImm20>
        ensures text { IfSome result (λ d. self.old ≡ signed_decimal d ++ self.new) }
        ensures below { IfSome result (IsBelow (2 ^ 19)) }
    {
        let number = self.integer()?;
        SImm20::maybe_from_i64(number)
    }

    /// Takes a base, an index and a displacement of 20 bits.
    fn indexed20(&mut self) -> Option<MemArg>
        ensures { IfSome result (λ m. Takes (FMemory m) self.old self.new) }
    {
        self.text(b" BXD20(")?;
        let at = self.base_index()?;
        let disp = self.displacement20()?;
        let flags = self.access_end()?;
        Some(MemArg::BXD20 {
            base: at.hi,
            index: at.lo,
            disp,
            flags,
        })
    }

    /// Takes a base, an index and a displacement.
    #[inline(never)]
    fn indexed_operand(&mut self) -> Option<MemArg>
        ensures { IfSome result (λ m. Takes (FMemory m) self.old self.new) }
    {
        match self.rest() {
            [_, _, _, _, b'1', ..] => self.indexed12(),
            _ => self.indexed20(),
        }
    }

    /// Takes a comma, what is known of an access, and the closing parenthesis.
    #[inline(always)]
    fn access_end(&mut self) -> Option<MachMemFlags>
        ensures text { IfSome result (λ f. self.old ≡ 44 ∷ (access_text f ++ (41 ∷ self.new))) }
        ensures range { IfSome result (λ f. IsSuffix f.trap) }
    {
        self.byte(b',')?;
        let flags = self.access()?;
        self.byte(b')')?;
        Some(flags)
    }

    /// Takes an offset in parentheses behind this text.
    #[inline(always)]
    fn offset(&mut self, form: &[u8]) -> Option<i64>
        ensures text { IfSome result
            (λ z. self.old ≡ form.now ++ (signed_decimal z ++ (41 ∷ self.new))) }
        ensures below { IfSome result (IsBelow (2 ^ 63)) }
    {
        self.text(form)?;
        let off = self.integer()?;
        self.byte(b')')?;
        Some(off)
    }

    /// Takes a symbol and an offset.
    #[inline(never)]
    fn symbol(&mut self) -> Option<MemArg>
        ensures { IfSome result (λ m. Takes (FMemory m) self.old self.new) }
    {
        self.text(b" Symbol(")?;
        let name = self.name()?;
        self.byte(b',')?;
        let offset = self.offset32()?;
        let flags = self.access_end()?;
        Some(MemArg::Symbol {
            name,
            offset,
            flags,
        })
    }

    /// Takes a number with a sign of 32 bits.
    fn offset32(&mut self) -> Option<i32>
        ensures text { IfSome result (λ z. self.old ≡ signed_decimal z ++ self.new) }
        ensures below { IfSome result (IsBelow (2 ^ 31)) }
    {
        let number = self.integer()?;
        if -2147483648 <= number && number < 2147483648 {
            Some(number as i32)
        } else {
            None
        }
    }

    /// Takes a number in parentheses behind this text.
    #[inline(always)]
    fn number_in_parentheses(&mut self, form: &[u8]) -> Option<u32>
        ensures text { IfSome result (λ n. self.old ≡ form.now ++ (decimal n ++ (41 ∷ self.new))) }
    {
        self.text(form)?;
        let number = self.natural()?;
        self.byte(b')')?;
        if number < 4294967296 {
            Some(number as u32)
        } else {
            None
        }
    }

    /// Takes a block.
    fn block(&mut self) -> Option<MemArg>
        ensures { IfSome result (λ m. Takes (FMemory m) self.old self.new) }
    {
        let number = self.number_in_parentheses(b" Label(")?;
        Some(MemArg::Label {
            target: MachLabel(number),
        })
    }

    /// Takes a constant.
    fn constant_operand(&mut self) -> Option<MemArg>
        ensures { IfSome result (λ m. Takes (FMemory m) self.old self.new) }
    {
        let number = self.number_in_parentheses(b" Constant(")?;
        Some(MemArg::Constant {
            constant: VCodeConstant(number),
        })
    }

    /// Takes an offset from the stack pointer at entry, or into the arguments.
    fn argument_offset(&mut self) -> Option<MemArg>
        ensures { IfSome result (λ m. Takes (FMemory m) self.old self.new) }
    {
        match self.rest() {
            [_, b'O', ..] => {
                let off = self.offset(b" OutgoingArgOffset(")?;
                Some(MemArg::OutgoingArgOffset { off })
            }
            [_, _, _, b'c', ..] => {
                let off = self.offset(b" IncomingArgOffset(")?;
                Some(MemArg::IncomingArgOffset { off })
            }
            _ => {
                let off = self.offset(b" InitialSPOffset(")?;
                Some(MemArg::InitialSPOffset { off })
            }
        }
    }

    /// Takes an offset into the stack slots or the spill area.
    #[inline(never)]
    fn stack_offset(&mut self) -> Option<MemArg>
        ensures { IfSome result (λ m. Takes (FMemory m) self.old self.new) }
    {
        match self.rest() {
            [_, b'S', b'l', ..] => {
                let off = self.offset(b" SlotOffset(")?;
                Some(MemArg::SlotOffset { off })
            }
            _ => {
                let off = self.offset(b" SpillOffset(")?;
                Some(MemArg::SpillOffset { off })
            }
        }
    }

    /// Takes a memory operand of one of the other forms.
    #[inline(never)]
    fn other_operand(&mut self) -> Option<MemArg>
        ensures { IfSome result (λ m. Takes (FMemory m) self.old self.new) }
    {
        match self.rest() {
            [_, b'L', ..] => self.block(),
            [_, b'C', ..] => self.constant_operand(),
            _ => self.argument_offset(),
        }
    }

    /// Takes a memory operand.
    pub fn memory(&mut self) -> Option<MemArg>
        ensures { IfSome result (λ m. Takes (FMemory m) self.old self.new) }
    {
        match self.rest() {
            [_, b'R', ..] => self.reg_offset(),
            [_, b'B', ..] => self.indexed_operand(),
            [_, b'S', b'y', ..] => self.symbol(),
            [_, b'S', ..] => self.stack_offset(),
            _ => self.other_operand(),
        }
    }
}
