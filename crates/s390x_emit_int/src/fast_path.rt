//! The kinds of instructions that emission tells apart before it asks for any cause.
ghost use Rattle.std.specs.Prelude.{◌≡◌, true, cond, Some, None};
ghost use Rattle.s390x_base.specs.declared.trap.TrapKind.TheVariants.{IntegerDivisionByZero};
ghost use Rattle.s390x_inst.specs.Facilities.{alu_facility, vec_binary_facility};
ghost use Rattle.s390x_inst.specs.declared.facility.InstructionSet.TheVariants.{Base};
ghost use Rattle.s390x_inst.specs.declared.inst.Inst.TheVariants.{Vector};
ghost use Rattle.s390x_typed_steps.specs.Memory.{memory};
ghost use Rattle.s390x_typed_steps.specs.VectorOpcodes.{is_division};
ghost use Rattle.s390x_emit_int.specs.Plain.{IsPlain, IsRegister};
ghost use Rattle.s390x_emit_int.specs.declared.fast_path.FastPath.TheVariants.{Load, Store, Load64, Store64, Whole, Access, Branch, Register};

use s390x_inst::{ALUOp, Inst, VecBinaryOp, VecInst};

/// What emission knows of an instruction by its variant, and by the operator of an `AluRRR`.
#[derive(Clone, Copy)]
pub enum FastPath {
    /// A load into a general register.
    Load,
    /// A store of a general register.
    Store,
    /// The load of a doubleword into a general register, which is met most often.
    Load64,
    /// The store of one.
    Store64,
    /// A load or a store of a vector register as it stands.
    Whole,
    /// A store of an immediate, the load of an address, or an operator or a comparison with an operand in memory.
    Access,
    /// A branch to labels or to the address in a register.
    Branch,
    /// Arithmetic, a comparison, a shift or a move on general registers and immediates, or an operator on vectors, that needs no facility.
    Register,
    /// Any other, of which these don't tell enough.
    Other,
}

// Whether an operator of `AluRRR` needs no facility.
#[inline(always)]
fn is_base(op: ALUOp) -> bool
    ensures { result ≡ true → alu_facility op ≡ Base }
{
    !matches!(
        op,
        ALUOp::NotAnd32
            | ALUOp::NotAnd64
            | ALUOp::NotOrr32
            | ALUOp::NotOrr64
            | ALUOp::NotXor32
            | ALUOp::NotXor64
            | ALUOp::AndNot32
            | ALUOp::AndNot64
            | ALUOp::OrrNot32
            | ALUOp::OrrNot64
    )
}

// Whether it is a load of a general register.
#[inline(always)]
fn is_load(inst: &Inst) -> bool
    ensures { result ≡ true → IsPlain inst.now }
{
    inst.as_load().is_some()
}

// Whether it is a store of a general register.
#[inline(always)]
fn is_store(inst: &Inst) -> bool
    ensures { result ≡ true → IsPlain inst.now }
{
    inst.as_store().is_some()
}

// Whether an operator on two vectors needs no facility; none that does is a division.
#[inline(always)]
fn is_base_binary(op: VecBinaryOp) -> bool
    ensures { result ≡ true
        → (vec_binary_facility op ≡ Base)
        × (None ≡ cond (is_division op) (Some IntegerDivisionByZero) None) }
{
    !matches!(
        op,
        VecBinaryOp::Mul64x2
            | VecBinaryOp::Mul128
            | VecBinaryOp::UMulHi64x2
            | VecBinaryOp::UMulHi128
            | VecBinaryOp::SMulHi64x2
            | VecBinaryOp::SMulHi128
            | VecBinaryOp::UMulEven64x2
            | VecBinaryOp::SMulEven64x2
            | VecBinaryOp::UMulOdd64x2
            | VecBinaryOp::SMulOdd64x2
            | VecBinaryOp::UDiv32x4
            | VecBinaryOp::UDiv64x2
            | VecBinaryOp::UDiv128
            | VecBinaryOp::SDiv32x4
            | VecBinaryOp::SDiv64x2
            | VecBinaryOp::SDiv128
            | VecBinaryOp::URem32x4
            | VecBinaryOp::URem64x2
            | VecBinaryOp::URem128
            | VecBinaryOp::SRem32x4
            | VecBinaryOp::SRem64x2
            | VecBinaryOp::SRem128
            | VecBinaryOp::UMax128
            | VecBinaryOp::SMax128
            | VecBinaryOp::UMin128
            | VecBinaryOp::SMin128
            | VecBinaryOp::UAvg128
            | VecBinaryOp::SAvg128
    )
}

// The kind of a vector instruction.
#[inline(always)]
fn vector_path(inst: &VecInst) -> FastPath
    ensures load { result ≡ Load → IsPlain (Vector inst.now) }
    ensures store { result ≡ Store → IsPlain (Vector inst.now) }
    ensures load64 { result ≡ Load64 → IsPlain (Vector inst.now) }
    ensures store64 { result ≡ Store64 → IsPlain (Vector inst.now) }
    ensures whole { result ≡ Whole → IsPlain (Vector inst.now) }
    ensures access { result ≡ Access → IsPlain (Vector inst.now) }
    ensures branch { result ≡ Branch
        → IsPlain (Vector inst.now) × (None ≡ memory (Vector inst.now)) }
    ensures register { result ≡ Register → IsRegister (Vector inst.now) }
{
    match inst {
        VecInst::VecLoad { .. } | VecInst::VecStore { .. } => FastPath::Whole,
        VecInst::VecRRR { op, .. } => {
            if is_base_binary(*op) {
                FastPath::Register
            } else {
                FastPath::Other
            }
        }
        _ => FastPath::Other,
    }
}

/// The kind of an instruction.
#[inline(always)]
pub fn fast_path_of(inst: &Inst) -> FastPath
    ensures load { result ≡ Load → IsPlain inst.now }
    ensures store { result ≡ Store → IsPlain inst.now }
    ensures load64 { result ≡ Load64 → IsPlain inst.now }
    ensures store64 { result ≡ Store64 → IsPlain inst.now }
    ensures whole { result ≡ Whole → IsPlain inst.now }
    ensures access { result ≡ Access → IsPlain inst.now }
    ensures branch { result ≡ Branch → IsPlain inst.now × (None ≡ memory inst.now) }
    ensures register { result ≡ Register → IsRegister inst.now }
{
    match inst {
        Inst::Load64 { .. } => FastPath::Load64,
        Inst::Store64 { .. } => FastPath::Store64,
        Inst::LoadAddr { .. }
        | Inst::StoreImm8 { .. }
        | Inst::StoreImm16 { .. }
        | Inst::StoreImm32SExt16 { .. }
        | Inst::StoreImm64SExt16 { .. }
        | Inst::AluRX { .. }
        | Inst::CmpRX { .. } => FastPath::Access,
        Inst::AluRRR { alu_op, .. } => {
            if is_base(*alu_op) {
                FastPath::Register
            } else {
                FastPath::Other
            }
        }
        Inst::AluRR { .. }
        | Inst::AluRRSImm16 { .. }
        | Inst::AluRSImm16 { .. }
        | Inst::AluRSImm32 { .. }
        | Inst::AluRUImm32 { .. }
        | Inst::CmpRR { .. }
        | Inst::CmpRSImm16 { .. }
        | Inst::CmpRSImm32 { .. }
        | Inst::CmpRUImm32 { .. }
        | Inst::ShiftRR { .. }
        | Inst::Mov64 { .. }
        | Inst::Mov32 { .. } => FastPath::Register,
        Inst::Jump { .. } | Inst::CondBr { .. } | Inst::IndirectBr { .. } | Inst::Ret { .. } =>
            FastPath::Branch,
        Inst::Vector(inst) => vector_path(inst),
        _ => {
            if is_load(inst) {
                FastPath::Load
            } else if is_store(inst) {
                FastPath::Store
            } else {
                FastPath::Other
            }
        }
    }
}
