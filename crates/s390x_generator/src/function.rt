//! The generated function.
ghost use Rattle.std.specs.Prelude.{◌≡◌, ◌+◌, ◌*◌, ◌<◌, ◌%◌, ◌/◌, IfOk};
ghost use Rattle.s390x_generator.specs.Generator.{IsGenerated, above_stack, added, ending, generated_block, insts_of, next_number, sum, work};

use s390x_base::{Cond, MachLabel, MachMemFlags, Reg, Writable, gpr, stack_reg, writable_gpr};
use s390x_inst::{ALUOp, AllocatedFunction, Block, Inst, MemArg};
use std::alloc::{AllocError, Global};

/// A function of so many blocks, whose instructions are drawn by a linear congruential sequence from `start` on. Each block
/// computes, loads or stores, and goes on to the next or to a drawn one; the last returns.
///
/// An error comes for want of memory alone.
pub fn generated_function(
    alloc: Global,
    count: u32,
    start: u32,
) -> Result<AllocatedFunction, AllocError>
    ensures { IfOk result (λ f. IsGenerated count start f) }
{
    let mut blocks = Vec::new(alloc);
    let mut drawn = start;
    for number in 0..count {
        drawn = next_number(drawn);
        let block = generated_block(alloc, count, number, drawn)?;
        blocks.push(block)?;
    }
    Ok(AllocatedFunction {
        blocks,
        constants: Vec::new(alloc),
    })
}

// The next number of the sequence.
fn next_number(drawn: u32) -> u32
    ensures { result ≡ next_number drawn }
{
    let next = (u64::from(drawn) * 1664525 + 1013904223) % 4294967296;
    next as u32
}

// The block of a number, by what was drawn for it.
fn generated_block(alloc: Global, count: u32, number: u32, drawn: u32) -> Result<Block, AllocError>
    requires { number < count }
    ensures { IfOk result (λ b. insts_of b ≡ generated_block count number drawn) }
{
    let insts = vec![in alloc;
        work(drawn / 65536 % 4, 8 * (drawn / 256 % 65536)),
        ending(count, number, drawn),
    ]?;
    Ok(Block { insts })
}

// The first instruction of a block: a sum, a load or a store.
fn work(choice: u32, offset: u32) -> Inst
    ensures { result ≡ work choice offset }
{
    match choice {
        0 => sum(writable_gpr(2), gpr(3), gpr(4)),
        1 => added(writable_gpr(2), gpr(2), gpr(4)),
        2 => Inst::Load64 {
            rd: writable_gpr(2),
            mem: above_stack(u64::from(offset)),
        },
        _ => Inst::Store64 {
            rd: gpr(4),
            mem: above_stack(u64::from(offset) + 524288),
        },
    }
}

// A register becomes the sum of two.
fn sum(rd: Writable<Reg>, rn: Reg, rm: Reg) -> Inst
    ensures { result ≡ sum rd rn rm }
{
    let alu_op = ALUOp::Add64;
    Inst::AluRRR { alu_op, rd, rn, rm }
}

// A register becomes its sum with another one; `ri` is `rd`.
fn added(rd: Writable<Reg>, ri: Reg, rm: Reg) -> Inst
    ensures { result ≡ added rd ri rm }
{
    let alu_op = ALUOp::Add64;
    Inst::AluRR { alu_op, rd, ri, rm }
}

// The operand so many bytes above the stack pointer.
fn above_stack(offset: u64) -> MemArg
    requires { offset < 8589934592 }
    ensures { result ≡ above_stack offset }
{
    MemArg::reg_plus_off(stack_reg(), offset as i64, MachMemFlags::trusted())
}

// The last instruction of a block: the last block returns, another one goes to a drawn block or to the next.
fn ending(count: u32, number: u32, drawn: u32) -> Inst
    requires { number < count }
    ensures { result ≡ ending count number drawn }
{
    if number + 1 == count {
        return Inst::Ret { link: gpr(14) };
    }
    Inst::CondBr {
        taken: MachLabel(drawn % count),
        not_taken: MachLabel(number + 1),
        cond: Cond::from_mask(8),
    }
}
