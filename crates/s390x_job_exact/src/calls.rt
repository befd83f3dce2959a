//! The fields of calls, taken only as they are printed.
ghost use Rattle.std.specs.Prelude.{◌≡◌, ◌++◌, ◌∷◌, ◌<◌, [], IfSome};
ghost use Rattle.std.specs.Fmt.{decimal};
ghost use Rattle.s390x_base.specs.Sets.{has};
ghost use Rattle.s390x_job_fields.specs.Atoms.{reg_text, IsReg};
ghost use Rattle.s390x_job_fields.specs.Calls.{IsLocation, IsResult, IsUse, location_text, pair_text, result_text, try_part, use_text};
ghost use Rattle.s390x_job_fields.specs.Numbers.{W32};
ghost use Rattle.s390x_job_fields.specs.Operators.{type_text};
ghost use Rattle.s390x_job_fields.specs.Sets.{members_of};
ghost use Rattle.s390x_job_fields.specs.Fields.{FConvention, FDefs, FOption, FReloc, FSet, FTarget, FTry, FUses};
ghost use Rattle.s390x_job_exact.specs.Exact.{Takes};

use crate::cursor::ExactCursor;
use crate::list::{ExactElement, list};
use s390x_base::{ExternalName, PRegSet, RegPair, ValueType, Writable};
use s390x_inst::{
    CallArgPair, CallConv, CallInstDest, CallRetPair, RetLocation, SymbolReloc, TryCallInfo,
};
use s390x_job_fields::operators::{CONVENTION_NAMES, TYPE_NAMES};
use std::alloc::Global;

impl ExactElement for CallArgPair {
    ghost spelling = { use_text };

    ghost IsIn = { IsUse };

    fn take(cursor: &mut ExactCursor) -> Option<CallArgPair> {
        let pair = cursor.register_and_place()?;
        Some(CallArgPair {
            vreg: pair.hi,
            preg: pair.lo,
        })
    }
}

impl ExactElement for CallRetPair {
    ghost spelling = { result_text };

    ghost IsIn = { IsResult };

    fn take(cursor: &mut ExactCursor) -> Option<CallRetPair> {
        let vreg = cursor.register()?;
        let location = cursor.location()?;
        Some(CallRetPair {
            vreg: Writable::from_reg(vreg),
            location,
        })
    }
}

impl<'a> ExactCursor<'a> {
    /// Takes a value's register and the place that it has.
    fn register_and_place(&mut self) -> Option<RegPair>
        ensures text { IfSome result (λ p. self.old ≡ pair_text p.hi p.lo ++ self.new) }
        ensures value { IfSome result (λ p. IsReg p.hi) }
        ensures place { IfSome result (λ p. IsReg p.lo) }
    {
        let hi = self.register()?;
        self.byte(b'=')?;
        let lo = self.register()?;
        Some(RegPair { hi, lo })
    }

    /// Takes a type behind a colon.
    fn value_type(&mut self) -> Option<ValueType>
        ensures { IfSome result (λ t. self.old ≡ 58 ∷ (type_text t ++ self.new)) }
    {
        self.byte(b':')?;
        self.word(TYPE_NAMES, ValueType::I8)
    }

    /// Takes where a result comes back in a register, with its type.
    fn register_location(&mut self) -> Option<RetLocation>
        ensures text { IfSome result (λ l. self.old ≡ location_text l ++ self.new) }
        ensures range { IfSome result IsLocation }
    {
        self.byte(b'=')?;
        let reg = self.register()?;
        let ty = self.value_type()?;
        Some(RetLocation::Reg(reg, ty))
    }

    /// Takes where a result comes back in the stack, with its type.
    fn stack_location(&mut self) -> Option<RetLocation>
        ensures text { IfSome result (λ l. self.old ≡ location_text l ++ self.new) }
        ensures range { IfSome result IsLocation }
    {
        self.text(b"=@")?;
        let off = self.integer()?;
        let ty = self.value_type()?;
        Some(RetLocation::Stack(off, ty))
    }

    /// Takes where a result comes back, and its type.
    fn location(&mut self) -> Option<RetLocation>
        ensures text { IfSome result (λ l. self.old ≡ location_text l ++ self.new) }
        ensures range { IfSome result IsLocation }
    {
        match self.rest() {
            [_, b'@', ..] => self.stack_location(),
            _ => self.register_location(),
        }
    }

    /// Takes a symbol's name.
    #[inline(always)]
    pub fn name(&mut self) -> Option<ExternalName>
        ensures text { IfSome result (λ n. self.old ≡ 117 ∷ (decimal n.0 ++ self.new)) }
    {
        self.byte(b'u')?;
        let number = self.natural()?;
        if number < 4294967296 {
            Some(ExternalName(number as u32))
        } else {
            None
        }
    }

    /// Takes the target of a call.
    pub fn target(&mut self) -> Option<CallInstDest>
        ensures { IfSome result (λ d. Takes (FTarget d) self.old self.new) }
    {
        self.byte(b' ')?;
        match self.rest() {
            [b'u', ..] => {
                let name = self.name()?;
                Some(CallInstDest::Direct { name })
            }
            _ => {
                let reg = self.register()?;
                Some(CallInstDest::Indirect { reg })
            }
        }
    }

    /// Takes what a relocation names.
    pub fn reloc(&mut self) -> Option<SymbolReloc>
        ensures { IfSome result (λ r. Takes (FReloc r) self.old self.new) }
    {
        self.text(b" Absolute(")?;
        let name = self.name()?;
        self.byte(b',')?;
        let offset = self.integer()?;
        self.byte(b')')?;
        Some(SymbolReloc::Absolute { name, offset })
    }

    /// Takes a calling convention, of which `SystemV` alone begins with `S`.
    #[inline(always)]
    pub fn convention(&mut self) -> Option<CallConv>
        ensures { IfSome result (λ c. Takes (FConvention c) self.old self.new) }
    {
        match self.rest() {
            [_, b'S', ..] => self.spelling_of(CallConv::SystemV),
            _ => self.operator(CONVENTION_NAMES, CallConv::Fast),
        }
    }

    /// Takes that a call has no handlers.
    pub fn no_handlers(&mut self) -> Option<Option<TryCallInfo>>
        ensures { IfSome result (λ t. Takes (FTry (try_part t)) self.old self.new) }
    {
        self.text(b" -")?;
        Some(None)
    }

    /// Takes a number of 32 bits, or none.
    pub fn option32(&mut self) -> Option<Option<u32>>
        ensures { IfSome result (λ n. Takes (FOption W32 n) self.old self.new) }
    {
        match self.rest() {
            [_, b'-', ..] => {
                self.text(b" -")?;
                Some(None)
            }
            _ => {
                let number = self.u32()?;
                Some(Some(number))
            }
        }
    }

    /// Takes a set without members.
    #[tactic(auto, using(crate::proofs::EmptySet::empty))]
    pub fn empty_set(&mut self) -> Option<PRegSet>
        ensures { IfSome result (λ p. Takes (FSet (members_of (has p))) self.old self.new) }
    {
        self.text(b" []")?;
        Some(PRegSet::empty())
    }

    /// Takes the arguments of a call.
    pub fn uses(&mut self, alloc: Global) -> Option<Vec<CallArgPair>>
        ensures { IfSome result (λ v. Takes (FUses v.items) self.old self.new) }
    {
        list(self, alloc)
    }

    /// Takes the results of a call.
    pub fn defs(&mut self, alloc: Global) -> Option<Vec<CallRetPair>>
        ensures { IfSome result (λ v. Takes (FDefs v.items) self.old self.new) }
    {
        list(self, alloc)
    }
}
