//! Reading the fields of a line, one after the other. Each reader is total: it reads something from any text.
ghost use Rattle.std.specs.Prelude.{◌≡◌, ℕ, IfOk, drop};
ghost use Rattle.s390x_base.specs.Registers.{general, vector};
ghost use Rattle.s390x_base.specs.Sets.{has};
ghost use Rattle.s390x_job_fields.specs.Marks.{word, after_word, past};
ghost use Rattle.s390x_job_fields.specs.Numbers.{natural_of, integer_of, W8, W16, W32, W64, S8, S16, S20, S32};
ghost use Rattle.s390x_job_fields.specs.Operators.{alu_of, cmp_of, shift_of, rxsbg_of, unary_of, vec_binary_of, vec_unary_of, vec_shift_of, vec_compare_of, vec_element_compare_of, convention_of};
ghost use Rattle.s390x_job_fields.specs.Atoms.{real_register_of, reg_of, mask_of, trap_of, bool_of, name_of};
ghost use Rattle.s390x_job_fields.specs.Memory.{memory_operand_of};
ghost use Rattle.s390x_job_fields.specs.Lists.{list_of};
ghost use Rattle.s390x_job_fields.specs.Sets.{members_of, is_in};
ghost use Rattle.s390x_job_fields.specs.Calls.{call_target_of, reloc_of, call_result_of, try_part, try_of, after_try, arg_of, ret_of, use_of, label_of};
ghost use Rattle.s390x_job_fields.specs.Bytes.{bytes_of_text, value_of, facilities_of};
ghost use Rattle.s390x_job_fields.specs.Fields.{option_of};

use crate::atoms::{cond, name, real, reg, trap, truth, written_reg};
use crate::bytes::{bytes, facilities};
use crate::calls::{handlers, reloc, target};
use crate::cursor::Cursor;
use crate::list::list;
use crate::memory::{displacement20, memory};
use crate::number::{
    integer8, integer16, integer32, natural8, natural16, natural32, natural64, tail,
};
use crate::operators::{alu, cmp, convention, rxsbg, shift, unary};
use crate::separators::{after, word};
use crate::sets::set_of;
use crate::vector_operators::{vec_binary, vec_compare, vec_element_compare, vec_shift, vec_unary};
use s390x_base::{
    Cond, ExternalName, MachLabel, PReg, PRegSet, Reg, RegPair, SImm20, TrapCode, UImm16Shifted,
    UImm32Shifted, Writable, WritableRegPair,
};
use s390x_inst::{
    ALUOp, ArgPair, CallArgPair, CallConv, CallInstDest, CallRetPair, CmpOp, IsaFlags, MemArg,
    RetPair, RxSBGOp, ShiftOp, SymbolReloc, TryCallInfo, UnaryOp, VecBinaryOp, VecIntCmpOp,
    VecIntEltCmpOp, VecShiftOp, VecUnaryOp,
};
use std::alloc::{AllocError, Global};

impl<'a> Cursor<'a> {
    /// The register, real or not yet allocated, of the next word, `%r2` or `%i0`.
    #[inline(always)]
    pub fn reg(&mut self) -> Reg
        ensures value { result ≡ reg_of (word self.old) }
        ensures after { self.new ≡ after_word self.old }
    {
        reg(self.word())
    }

    /// The register of the next word, as one that is written.
    #[inline(always)]
    pub fn written_reg(&mut self) -> Writable<Reg>
        ensures value { result ≡ reg_of (word self.old) }
        ensures after { self.new ≡ after_word self.old }
    {
        written_reg(self.word())
    }

    /// The real register of the next word.
    #[inline(always)]
    pub fn real(&mut self) -> PReg
        ensures value { result ≡ real_register_of (word self.old) }
        ensures after { self.new ≡ after_word self.old }
    {
        real(self.word())
    }

    /// The ALU operator of the next word.
    #[inline(never)]
    pub fn alu(&mut self) -> ALUOp
        ensures value { result ≡ alu_of (word self.old) }
        ensures after { self.new ≡ after_word self.old }
    {
        alu(self.word())
    }

    /// The comparison of the next word.
    #[inline(never)]
    pub fn cmp(&mut self) -> CmpOp
        ensures value { result ≡ cmp_of (word self.old) }
        ensures after { self.new ≡ after_word self.old }
    {
        cmp(self.word())
    }

    /// The shift of the next word.
    #[inline(never)]
    pub fn shift_op(&mut self) -> ShiftOp
        ensures value { result ≡ shift_of (word self.old) }
        ensures after { self.new ≡ after_word self.old }
    {
        shift(self.word())
    }

    /// The operator of a rotate-then-insert of the next word.
    #[inline(never)]
    pub fn rxsbg(&mut self) -> RxSBGOp
        ensures value { result ≡ rxsbg_of (word self.old) }
        ensures after { self.new ≡ after_word self.old }
    {
        rxsbg(self.word())
    }

    /// The operator on one register of the next word.
    #[inline(never)]
    pub fn unary(&mut self) -> UnaryOp
        ensures value { result ≡ unary_of (word self.old) }
        ensures after { self.new ≡ after_word self.old }
    {
        unary(self.word())
    }

    /// The operator on two vectors of the next word.
    #[inline(never)]
    pub fn vec_binary(&mut self) -> VecBinaryOp
        ensures value { result ≡ vec_binary_of (word self.old) }
        ensures after { self.new ≡ after_word self.old }
    {
        vec_binary(self.word())
    }

    /// The operator on one vector of the next word.
    #[inline(never)]
    pub fn vec_unary(&mut self) -> VecUnaryOp
        ensures value { result ≡ vec_unary_of (word self.old) }
        ensures after { self.new ≡ after_word self.old }
    {
        vec_unary(self.word())
    }

    /// The shift of a vector of the next word.
    #[inline(never)]
    pub fn vec_shift_op(&mut self) -> VecShiftOp
        ensures value { result ≡ vec_shift_of (word self.old) }
        ensures after { self.new ≡ after_word self.old }
    {
        vec_shift(self.word())
    }

    /// The comparison of vectors of the next word.
    #[inline(never)]
    pub fn vec_compare(&mut self) -> VecIntCmpOp
        ensures value { result ≡ vec_compare_of (word self.old) }
        ensures after { self.new ≡ after_word self.old }
    {
        vec_compare(self.word())
    }

    /// The comparison of elements of the next word.
    #[inline(never)]
    pub fn vec_element_compare(&mut self) -> VecIntEltCmpOp
        ensures value { result ≡ vec_element_compare_of (word self.old) }
        ensures after { self.new ≡ after_word self.old }
    {
        vec_element_compare(self.word())
    }

    /// The calling convention of the next word.
    #[inline(never)]
    pub fn convention(&mut self) -> CallConv
        ensures value { result ≡ convention_of (word self.old) }
        ensures after { self.new ≡ after_word self.old }
    {
        convention(self.word())
    }

    /// The truth value of the next word.
    #[inline(never)]
    pub fn truth(&mut self) -> bool
        ensures value { result ≡ bool_of (word self.old) }
        ensures after { self.new ≡ after_word self.old }
    {
        truth(self.word())
    }

    /// The number below 2^8 of the next word, in decimal.
    #[inline(never)]
    pub fn u8(&mut self) -> u8
        ensures value { result ≡ natural_of W8 (word self.old) }
        ensures after { self.new ≡ after_word self.old }
    {
        natural8(self.word())
    }

    /// The number below 2^16 of the next word, in decimal.
    #[inline(never)]
    pub fn u16(&mut self) -> u16
        ensures value { result ≡ natural_of W16 (word self.old) }
        ensures after { self.new ≡ after_word self.old }
    {
        natural16(self.word())
    }

    /// The number below 2^32 of the next word, in decimal.
    #[inline(never)]
    pub fn u32(&mut self) -> u32
        ensures value { result ≡ natural_of W32 (word self.old) }
        ensures after { self.new ≡ after_word self.old }
    {
        natural32(self.word())
    }

    /// The number below 2^64 of the next word, in decimal.
    #[inline(never)]
    pub fn u64(&mut self) -> u64
        ensures value { result ≡ natural_of W64 (word self.old) }
        ensures after { self.new ≡ after_word self.old }
    {
        natural64(self.word())
    }

    /// The number of 8 bits with a sign of the next word, in decimal.
    #[inline(never)]
    pub fn i8(&mut self) -> i8
        ensures value { result ≡ integer_of S8 (word self.old) }
        ensures after { self.new ≡ after_word self.old }
    {
        integer8(self.word())
    }

    /// The number of 16 bits with a sign of the next word, in decimal.
    #[inline(never)]
    pub fn i16(&mut self) -> i16
        ensures value { result ≡ integer_of S16 (word self.old) }
        ensures after { self.new ≡ after_word self.old }
    {
        integer16(self.word())
    }

    /// The number of 32 bits with a sign of the next word, in decimal.
    #[inline(never)]
    pub fn i32(&mut self) -> i32
        ensures value { result ≡ integer_of S32 (word self.old) }
        ensures after { self.new ≡ after_word self.old }
    {
        integer32(self.word())
    }

    /// The displacement of 20 bits of the next word, in bytes.
    pub fn displacement(&mut self) -> SImm20
        ensures value { result ≡ integer_of S20 (word self.old) }
        ensures after { self.new ≡ after_word self.old }
    {
        displacement20(self.word())
    }

    /// The mask of a condition of the next word.
    #[inline(never)]
    pub fn cond(&mut self) -> Cond
        ensures value { result ≡ mask_of (word self.old) }
        ensures after { self.new ≡ after_word self.old }
    {
        cond(self.word())
    }

    /// The trap code of the next word.
    pub fn trap(&mut self) -> TrapCode
        ensures value { result ≡ trap_of (word self.old) }
        ensures after { self.new ≡ after_word self.old }
    {
        trap(self.word())
    }

    /// The external name of the next word, `u7`.
    #[inline(always)]
    pub fn name(&mut self) -> ExternalName
        ensures value { result ≡ record { 0 = name_of (word self.old) } }
        ensures after { self.new ≡ after_word self.old }
    {
        name(self.word())
    }

    /// The label of the next word: the number of a block.
    #[inline(always)]
    pub fn label(&mut self) -> MachLabel
        ensures value { result ≡ record { 0 = natural_of W32 (word self.old) } }
        ensures after { self.new ≡ after_word self.old }
    {
        MachLabel(natural32(self.word()))
    }

    /// What a call calls, by the next word.
    pub fn target(&mut self) -> CallInstDest
        ensures value { result ≡ call_target_of (word self.old) }
        ensures after { self.new ≡ after_word self.old }
    {
        target(self.word())
    }

    /// The pair of registers of the next two words, the high one first.
    #[inline(always)]
    pub fn pair(&mut self) -> RegPair
        ensures value { result
            ≡ record { hi = reg_of (word self.old); lo = reg_of (word (after_word self.old)) } }
        ensures after { self.new ≡ after_word (after_word self.old) }
    {
        let hi = self.reg();
        let lo = self.reg();
        RegPair { hi, lo }
    }

    /// The pair of registers of the next two words, as one that is written.
    #[inline(always)]
    pub fn written_pair(&mut self) -> WritableRegPair
        ensures value { result
            ≡ record { hi = reg_of (word self.old); lo = reg_of (word (after_word self.old)) } }
        ensures after { self.new ≡ after_word (after_word self.old) }
    {
        let hi = self.written_reg();
        let lo = self.written_reg();
        WritableRegPair { hi, lo }
    }

    /// The 16 bits of the next word, at the 16-bit part that the word behind it numbers.
    #[inline(always)]
    pub fn shifted16(&mut self) -> UImm16Shifted
        ensures value { result
            ≡ record {
              bits = natural_of W16 (word self.old);
              shift = natural_of W8 (word (after_word self.old));
            } }
        ensures after { self.new ≡ after_word (after_word self.old) }
    {
        let bits = self.u16();
        let shift = self.u8();
        UImm16Shifted { bits, shift }
    }

    /// The 32 bits of the next word, at the half that the word behind it numbers.
    #[inline(always)]
    pub fn shifted32(&mut self) -> UImm32Shifted
        ensures value { result
            ≡ record {
              bits = natural_of W32 (word self.old);
              shift = natural_of W8 (word (after_word self.old));
            } }
        ensures after { self.new ≡ after_word (after_word self.old) }
    {
        let bits = self.u32();
        let shift = self.u8();
        UImm32Shifted { bits, shift }
    }

    /// Goes on behind the first `c`.
    fn skip_past(&mut self, c: u8)
        ensures { self.new ≡ past c self.old }
    {
        let left = after(self.rest(), c);
        *self = Cursor::new(left);
    }

    /// The operand in memory that comes next, up to its closing parenthesis.
    #[inline(never)]
    pub fn memory(&mut self) -> MemArg
        ensures value { result ≡ memory_operand_of self.old }
        ensures after { self.new ≡ past 41 self.old }
    {
        let value = memory(self.rest());
        self.skip_past(b')');
        value
    }

    /// The symbol with its offset that comes next, up to its closing parenthesis.
    pub fn reloc(&mut self) -> SymbolReloc
        ensures value { result ≡ reloc_of self.old }
        ensures after { self.new ≡ past 41 self.old }
    {
        let value = reloc(self.rest());
        self.skip_past(b')');
        value
    }

    /// The list of labels that comes next. An error comes for want of memory alone.
    pub fn labels(&mut self, alloc: Global) -> Result<Vec<MachLabel>, AllocError>
        ensures value { IfOk result (λ v. v.items ≡ list_of label_of (drop 1 self.old)) }
        ensures after { self.new ≡ past 93 self.old }
    {
        let value = list(alloc, tail(self.rest(), 1));
        self.skip_past(b']');
        value
    }

    /// The list of arguments that comes next. An error comes for want of memory alone.
    pub fn args(&mut self, alloc: Global) -> Result<Vec<ArgPair>, AllocError>
        ensures value { IfOk result (λ v. v.items ≡ list_of arg_of (drop 1 self.old)) }
        ensures after { self.new ≡ past 93 self.old }
    {
        let value = list(alloc, tail(self.rest(), 1));
        self.skip_past(b']');
        value
    }

    /// The list of returned values that comes next. An error comes for want of memory alone.
    pub fn rets(&mut self, alloc: Global) -> Result<Vec<RetPair>, AllocError>
        ensures value { IfOk result (λ v. v.items ≡ list_of ret_of (drop 1 self.old)) }
        ensures after { self.new ≡ past 93 self.old }
    {
        let value = list(alloc, tail(self.rest(), 1));
        self.skip_past(b']');
        value
    }

    /// The list of a call's uses that comes next. An error comes for want of memory alone.
    pub fn uses(&mut self, alloc: Global) -> Result<Vec<CallArgPair>, AllocError>
        ensures value { IfOk result (λ v. v.items ≡ list_of use_of (drop 1 self.old)) }
        ensures after { self.new ≡ past 93 self.old }
    {
        let value = list(alloc, tail(self.rest(), 1));
        self.skip_past(b']');
        value
    }

    /// The list of a call's results that comes next. An error comes for want of memory alone.
    pub fn defs(&mut self, alloc: Global) -> Result<Vec<CallRetPair>, AllocError>
        ensures value { IfOk result (λ v. v.items ≡ list_of call_result_of (drop 1 self.old)) }
        ensures after { self.new ≡ past 93 self.old }
    {
        let value = list(alloc, tail(self.rest(), 1));
        self.skip_past(b']');
        value
    }

    /// The list of real registers that comes next. An error comes for want of memory alone.
    pub fn reals(&mut self, alloc: Global) -> Result<Vec<PReg>, AllocError>
        ensures value { IfOk result
            (λ v. v.items ≡ list_of (λ s. real_register_of (word s)) (drop 1 self.old)) }
        ensures after { self.new ≡ past 93 self.old }
    {
        let value = list(alloc, tail(self.rest(), 1));
        self.skip_past(b']');
        value
    }

    /// The set of real registers that comes next, as a list. An error comes for want of memory alone.
    pub fn set(&mut self, alloc: Global) -> Result<PRegSet, AllocError>
        ensures value { IfOk result
            (λ p. members_of (has p)
            ≡ members_of (is_in (list_of (λ s. real_register_of (word s)) (drop 1 self.old)))) }
        ensures after { self.new ≡ past 93 self.old }
    {
        let members = self.reals(alloc)?;
        Ok(set_of(&members))
    }

    fn skip_handlers(&mut self)
        ensures { self.new ≡ after_try self.old }
    {
        if word(self.rest()) == b"-".as_slice() {
            let _word = self.word();
        } else {
            self.skip_past(b']');
        }
    }

    /// The handlers of a call that come next, or none. An error comes for want of memory alone.
    pub fn handlers(&mut self, alloc: Global) -> Result<Option<TryCallInfo>, AllocError>
        ensures value { IfOk result (λ t. try_part t ≡ try_of self.old) }
        ensures after { self.new ≡ after_try self.old }
    {
        let value = handlers(alloc, self.rest());
        self.skip_handlers();
        value
    }

    /// The number below 2^8 of the next word, or none.
    pub fn option8(&mut self) -> Option<u8>
        ensures value { result ≡ option_of W8 (word self.old) }
        ensures after { self.new ≡ after_word self.old }
    {
        let w = self.word();
        if w == b"-".as_slice() {
            None
        } else {
            Some(natural8(w))
        }
    }

    /// The number below 2^32 of the next word, or none.
    pub fn option32(&mut self) -> Option<u32>
        ensures value { result ≡ option_of W32 (word self.old) }
        ensures after { self.new ≡ after_word self.old }
    {
        let w = self.word();
        if w == b"-".as_slice() {
            None
        } else {
            Some(natural32(w))
        }
    }

    /// The bytes of the next word, in hex. An error comes for want of memory alone.
    pub fn bytes(&mut self, alloc: Global) -> Result<Vec<u8>, AllocError>
        ensures value { IfOk result (λ v. v.items ≡ bytes_of_text (word self.old)) }
        ensures after { self.new ≡ after_word self.old }
    {
        bytes(alloc, self.word())
    }

    /// All that is left, as facilities.
    pub fn facilities(&self) -> IsaFlags
        ensures { result ≡ facilities_of self.now }
    {
        facilities(self.rest())
    }
}
