//! A function of one retry loop, which adds to a word that several processors share.
ghost use Rattle.std.specs.Prelude.{◌≡◌, IfOk, []};
ghost use Rattle.s390x_inst.specs.Emission.{Emission};
ghost use Rattle.s390x_inst.specs.declared.state.IsaFlags.{IsaFlags};
ghost use Rattle.s390x_typed_steps.specs.Tree.{Tree, loop_node, prepend};
ghost use Rattle.s390x_emit_int.specs.Function.{constants_of, trees_of};
ghost use Rattle.s390x_interference.specs.Example.{adding_members, adding_trees};

use s390x_base::{Cond, MachMemFlags, gpr, writable_gpr};
use s390x_inst::{ALUOp, AllocatedFunction, Block, Inst, MemArg};
use std::alloc::{AllocError, Global};

/// A loop that adds `%r3` to the word at `%r5`, which other processors may change meanwhile. `%r2` is what the word is taken to hold at first, and
/// then what it was found to hold; `%r4` is the sum.
pub fn adding_loop(alloc: Global) -> Result<Inst, AllocError>
    ensures { IfOk result
        (λ i. (e : Emission) (rest : Tree) → prepend e i rest ≡ loop_node 4 adding_members rest) }
{
    let body = vec![in alloc;
        Inst::AluRRR {
            alu_op: ALUOp::Add32,
            rd: writable_gpr(4),
            rn: gpr(2),
            rm: gpr(3),
        },
        Inst::AtomicCas32 {
            rd: writable_gpr(2),
            ri: gpr(2),
            rn: gpr(4),
            mem: MemArg::reg(gpr(5), MachMemFlags::trusted()),
        },
    ]?;
    Ok(Inst::Loop {
        cond: Cond::from_mask(4),
        body,
    })
}

/// A function of one block: that loop, and then a return to `%r14`.
pub fn adding_function(alloc: Global) -> Result<AllocatedFunction, AllocError>
    ensures trees { IfOk result
        (λ f. (flags : IsaFlags) (e : Emission) → trees_of flags e f ≡ adding_trees) }
    ensures constants { IfOk result (λ f. constants_of f ≡ []) }
{
    let insts = vec![in alloc; adding_loop(alloc)?, Inst::Ret { link: gpr(14) }]?;
    Ok(AllocatedFunction {
        blocks: vec![in alloc; Block { insts }]?,
        constants: Vec::new(alloc),
    })
}
