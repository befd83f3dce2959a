//! Reporting a few registers in order.
//!
//! Where `denied` is true, an output that has to be an input is refused, whatever the visitor denies.
#![tactic(auto, using(crate::proofs::Reporting::reports_taken, crate::proofs::Reporting::refuses_denied, crate::proofs::Reporting::passes_none))]

ghost use Rattle.std.specs.Prelude.{◌≡◌, ◌<◌, ◌++◌, ◌∷◌, [], Some, map};
ghost use Rattle.s390x_operands.specs.declared.constraint.Reported.TheVariants.{Fixed};
ghost use Rattle.s390x_operands.specs.Requests.{Reports, reported_use, reported_def, reported_reuse, scratch_request, fixed_use, fixed_def, memory_requests};

use crate::constraint::OperandError;
use crate::visitor::OperandVisitor;
use s390x_base::{PReg, Reg, RegPair, Writable, WritableRegPair, gpr_preg};
use s390x_inst::MemArg;

/// Reports a register that is read.
#[inline(always)]
pub fn report_use<V: OperandVisitor>(v: &mut V, denied: bool, reg: &Reg) -> Result<(), OperandError>
    ensures { Reports denied (reported_use reg.now ∷ []) (V.items v.old) (V.items v.new)
        (V.denies v.old) (V.denies v.new) result }
{
    v.reg_use(*reg)
}

/// Reports a register that is written.
#[inline(always)]
pub fn report_def<V: OperandVisitor>(
    v: &mut V,
    denied: bool,
    reg: &Writable<Reg>,
) -> Result<(), OperandError>
    ensures { Reports denied (reported_def reg.now ∷ []) (V.items v.old) (V.items v.new)
        (V.denies v.old) (V.denies v.new) result }
{
    v.reg_def(*reg)
}

/// Reports an output that has to be the operand with index 1.
pub fn report_reuse<V: OperandVisitor>(
    v: &mut V,
    denied: bool,
    reg: &Writable<Reg>,
) -> Result<(), OperandError>
    ensures { Reports denied (reported_reuse reg.now ∷ []) (V.items v.old) (V.items v.new)
        (V.denies v.old) (V.denies v.new) result }
{
    match reg.to_reg() {
        Reg::Virtual { .. } if denied => Err(OperandError::ReuseInLoop),
        _ => v.reg_reuse_def(*reg, 1),
    }
}

/// Reports the register that emission may overwrite.
#[inline(always)]
pub fn report_scratch<V: OperandVisitor>(v: &mut V, denied: bool) -> Result<(), OperandError>
    ensures { Reports denied (scratch_request ∷ []) (V.items v.old) (V.items v.new) (V.denies v.old)
        (V.denies v.new) result }
{
    v.reg_fixed_nonallocatable(gpr_preg(1))
}

/// Reports nothing.
pub fn report_nothing<V: OperandVisitor>(_v: &mut V, _denied: bool) -> Result<(), OperandError>
    ensures { Reports _denied ([]) (V.items _v.old) (V.items _v.new) (V.denies _v.old)
        (V.denies _v.new) result }
{
    Ok(())
}

/// Reports a real register.
pub fn report_fixed<V: OperandVisitor>(
    v: &mut V,
    denied: bool,
    preg: PReg,
) -> Result<(), OperandError>
    ensures { Reports denied (Some (Fixed preg) ∷ []) (V.items v.old) (V.items v.new)
        (V.denies v.old) (V.denies v.new) result }
{
    v.reg_fixed_nonallocatable(preg)
}

/// Reports an input in the general register of this number.
pub fn report_fixed_use<V: OperandVisitor>(
    v: &mut V,
    denied: bool,
    reg: &Reg,
    number: u8,
) -> Result<(), OperandError>
    requires { number < 16 }
    ensures { Reports denied (fixed_use reg.now number ∷ []) (V.items v.old) (V.items v.new)
        (V.denies v.old) (V.denies v.new) result }
{
    v.reg_fixed_use(*reg, gpr_preg(number))
}

/// Reports an output in the general register of this number.
pub fn report_fixed_def<V: OperandVisitor>(
    v: &mut V,
    denied: bool,
    reg: &Writable<Reg>,
    number: u8,
) -> Result<(), OperandError>
    requires { number < 16 }
    ensures { Reports denied (fixed_def reg.now number ∷ []) (V.items v.old) (V.items v.new)
        (V.denies v.old) (V.denies v.new) result }
{
    v.reg_fixed_def(*reg, gpr_preg(number))
}

/// Reports registers that are read.
pub fn report_uses<V: OperandVisitor>(
    v: &mut V,
    denied: bool,
    uses: &[Reg],
) -> Result<(), OperandError>
    ensures { Reports denied (map reported_use uses.now) (V.items v.old) (V.items v.new)
        (V.denies v.old) (V.denies v.new) result }
{
    for reg in uses {
        report_use(v, denied, reg)?;
    }
    Ok(())
}

/// Reports the registers of an address, and the one that it may need.
pub fn report_address<V: OperandVisitor>(
    v: &mut V,
    denied: bool,
    registers: &[Reg],
) -> Result<(), OperandError>
    ensures { Reports denied (map reported_use registers.now ++ scratch_request ∷ [])
        (V.items v.old) (V.items v.new) (V.denies v.old) (V.denies v.new) result }
{
    report_uses(v, denied, registers)?;
    report_scratch(v, denied)
}

/// Reports a memory operand.
pub fn report_memory<V: OperandVisitor>(
    v: &mut V,
    denied: bool,
    mem: &MemArg,
) -> Result<(), OperandError>
    ensures { Reports denied (memory_requests mem.now) (V.items v.old) (V.items v.new)
        (V.denies v.old) (V.denies v.new) result }
{
    match mem {
        MemArg::BXD12 { base, index, .. } | MemArg::BXD20 { base, index, .. } => {
            report_address(v, denied, &[*base, *index])
        }
        MemArg::RegOffset { reg, .. } => report_use_scratch(v, denied, reg),
        _ => report_scratch(v, denied),
    }
}

/// Reports registers that are read, and a memory operand.
pub fn report_inputs<V: OperandVisitor>(
    v: &mut V,
    denied: bool,
    uses: &[Reg],
    mem: &MemArg,
) -> Result<(), OperandError>
    ensures { Reports denied (map reported_use uses.now ++ memory_requests mem.now) (V.items v.old)
        (V.items v.new) (V.denies v.old) (V.denies v.new) result }
{
    report_uses(v, denied, uses)?;
    report_memory(v, denied, mem)
}

/// Reports a register that is read, and a memory operand.
#[inline(never)]
pub fn report_input_from<V: OperandVisitor>(
    v: &mut V,
    denied: bool,
    reg: &Reg,
    mem: &MemArg,
) -> Result<(), OperandError>
    ensures { Reports denied (reported_use reg.now ∷ memory_requests mem.now) (V.items v.old)
        (V.items v.new) (V.denies v.old) (V.denies v.new) result }
{
    report_use(v, denied, reg)?;
    report_memory(v, denied, mem)
}

/// Reports an output and inputs.
#[inline(always)]
pub fn report_output<V: OperandVisitor>(
    v: &mut V,
    denied: bool,
    rd: &Writable<Reg>,
    uses: &[Reg],
) -> Result<(), OperandError>
    ensures { Reports denied (reported_def rd.now ∷ map reported_use uses.now) (V.items v.old)
        (V.items v.new) (V.denies v.old) (V.denies v.new) result }
{
    report_def(v, denied, rd)?;
    report_uses(v, denied, uses)
}

/// Reports an output and a memory operand.
#[inline(never)]
pub fn report_output_from<V: OperandVisitor>(
    v: &mut V,
    denied: bool,
    rd: &Writable<Reg>,
    mem: &MemArg,
) -> Result<(), OperandError>
    ensures { Reports denied (reported_def rd.now ∷ memory_requests mem.now) (V.items v.old)
        (V.items v.new) (V.denies v.old) (V.denies v.new) result }
{
    report_def(v, denied, rd)?;
    report_memory(v, denied, mem)
}

/// Reports an output, an input and a memory operand.
pub fn report_update<V: OperandVisitor>(
    v: &mut V,
    denied: bool,
    rd: &Writable<Reg>,
    rn: &Reg,
    mem: &MemArg,
) -> Result<(), OperandError>
    ensures { Reports denied (reported_def rd.now ∷ reported_use rn.now ∷ memory_requests mem.now)
        (V.items v.old) (V.items v.new) (V.denies v.old) (V.denies v.new) result }
{
    report_def(v, denied, rd)?;
    report_input_from(v, denied, rn, mem)
}

/// Reports an output that has to be the first input, and the inputs.
pub fn report_reused<V: OperandVisitor>(
    v: &mut V,
    denied: bool,
    rd: &Writable<Reg>,
    uses: &[Reg],
) -> Result<(), OperandError>
    ensures { Reports denied (reported_reuse rd.now ∷ map reported_use uses.now) (V.items v.old)
        (V.items v.new) (V.denies v.old) (V.denies v.new) result }
{
    report_reuse(v, denied, rd)?;
    report_uses(v, denied, uses)
}

/// Reports an output that has to be the first input, the inputs and a memory operand.
pub fn report_reused_from<V: OperandVisitor>(
    v: &mut V,
    denied: bool,
    rd: &Writable<Reg>,
    uses: &[Reg],
    mem: &MemArg,
) -> Result<(), OperandError>
    ensures { Reports denied
        (reported_reuse rd.now ∷ (map reported_use uses.now ++ memory_requests mem.now))
        (V.items v.old) (V.items v.new) (V.denies v.old) (V.denies v.new) result }
{
    report_reuse(v, denied, rd)?;
    report_inputs(v, denied, uses, mem)
}

/// Reports an output that is the pair of `%r2` and `%r3`.
pub fn report_halves<V: OperandVisitor>(
    v: &mut V,
    denied: bool,
    pair: &WritableRegPair,
) -> Result<(), OperandError>
    ensures { Reports denied (fixed_def pair.now.hi 2 ∷ fixed_def pair.now.lo 3 ∷ [])
        (V.items v.old) (V.items v.new) (V.denies v.old) (V.denies v.new) result }
{
    report_fixed_def(v, denied, &pair.hi, 2)?;
    report_fixed_def(v, denied, &pair.lo, 3)
}

/// Reports inputs, and an output that is a pair.
pub fn report_pair<V: OperandVisitor>(
    v: &mut V,
    denied: bool,
    pair: &WritableRegPair,
    uses: &[Reg],
) -> Result<(), OperandError>
    ensures { Reports denied
        (map reported_use uses.now ++ fixed_def pair.now.hi 2 ∷ fixed_def pair.now.lo 3 ∷ [])
        (V.items v.old) (V.items v.new) (V.denies v.old) (V.denies v.new) result }
{
    report_uses(v, denied, uses)?;
    report_halves(v, denied, pair)
}

/// Reports an input, an output that is a pair, and the input in its low register.
pub fn report_pair_low<V: OperandVisitor>(
    v: &mut V,
    denied: bool,
    pair: &WritableRegPair,
    low: &Reg,
    rn: &Reg,
) -> Result<(), OperandError>
    ensures { Reports denied
        (reported_use rn.now ∷ fixed_def pair.now.hi 2 ∷ fixed_def pair.now.lo 3
        ∷ fixed_use low.now 3 ∷ []) (V.items v.old) (V.items v.new) (V.denies v.old)
        (V.denies v.new) result }
{
    report_use(v, denied, rn)?;
    report_halves(v, denied, pair)?;
    report_fixed_use(v, denied, low, 3)
}

/// Reports an input that is the pair of `%r2` and `%r3`.
pub fn report_dividend<V: OperandVisitor>(
    v: &mut V,
    denied: bool,
    pair: &RegPair,
) -> Result<(), OperandError>
    ensures { Reports denied (fixed_use pair.now.hi 2 ∷ fixed_use pair.now.lo 3 ∷ [])
        (V.items v.old) (V.items v.new) (V.denies v.old) (V.denies v.new) result }
{
    report_fixed_use(v, denied, &pair.hi, 2)?;
    report_fixed_use(v, denied, &pair.lo, 3)
}

/// Reports an input, an output that is a pair, and an input that is the same pair.
pub fn report_pair_whole<V: OperandVisitor>(
    v: &mut V,
    denied: bool,
    pair: &WritableRegPair,
    whole: &RegPair,
    rn: &Reg,
) -> Result<(), OperandError>
    ensures { Reports denied
        (reported_use rn.now ∷ fixed_def pair.now.hi 2 ∷ fixed_def pair.now.lo 3
        ∷ fixed_use whole.now.hi 2 ∷ fixed_use whole.now.lo 3 ∷ []) (V.items v.old)
        (V.items v.new) (V.denies v.old) (V.denies v.new) result }
{
    report_use(v, denied, rn)?;
    report_halves(v, denied, pair)?;
    report_dividend(v, denied, whole)
}

/// Reports an output and a real register.
pub fn report_output_fixed<V: OperandVisitor>(
    v: &mut V,
    denied: bool,
    rd: &Writable<Reg>,
    preg: PReg,
) -> Result<(), OperandError>
    ensures { Reports denied (reported_def rd.now ∷ Some (Fixed preg) ∷ []) (V.items v.old)
        (V.items v.new) (V.denies v.old) (V.denies v.new) result }
{
    report_def(v, denied, rd)?;
    report_fixed(v, denied, preg)
}

/// Reports an output and the register that emission may overwrite.
pub fn report_output_scratch<V: OperandVisitor>(
    v: &mut V,
    denied: bool,
    rd: &Writable<Reg>,
) -> Result<(), OperandError>
    ensures { Reports denied (reported_def rd.now ∷ scratch_request ∷ []) (V.items v.old)
        (V.items v.new) (V.denies v.old) (V.denies v.new) result }
{
    report_def(v, denied, rd)?;
    report_scratch(v, denied)
}

/// Reports an input and the register that emission may overwrite.
#[inline(always)]
pub fn report_use_scratch<V: OperandVisitor>(
    v: &mut V,
    denied: bool,
    reg: &Reg,
) -> Result<(), OperandError>
    ensures { Reports denied (reported_use reg.now ∷ scratch_request ∷ []) (V.items v.old)
        (V.items v.new) (V.denies v.old) (V.denies v.new) result }
{
    report_use(v, denied, reg)?;
    report_scratch(v, denied)
}
