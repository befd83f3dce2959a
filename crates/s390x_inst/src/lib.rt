//! Typed instructions of the s390x back end, their operators, operands and emission state.
#![tactic(auto)]

mod abi;
mod args;
mod calls;
mod copy;
mod defaults;
mod facility;
mod function;
mod inst;
mod load;
mod make;
mod ops;
mod state;
mod store;
mod table;
mod vec_inst;
mod vec_ops;
mod whole;

pub use abi::{gen_retval_loads, gen_tail_epilogue};
pub use args::MemArg;
pub use calls::{
    ArgPair, CallArgPair, CallConv, CallInfo, CallInstDest, CallRetPair, RetLocation, RetPair,
    ReturnCallInfo, SymbolReloc, TryCallHandler, TryCallInfo,
};
pub use facility::InstructionSet;
pub use function::{AllocatedFunction, Block};
pub use inst::Inst;
pub use load::{LOAD_COUNT, Load, LoadOp};
pub use ops::{ALUOp, CmpOp, RxSBGOp, ShiftOp, UnaryOp};
pub use state::{
    EmitInfo, EmitState, FrameLayout, IsaFlags, MachInstEmitState, REG_SAVE_AREA_SIZE,
};
pub use store::{STORE_COUNT, Store, StoreOp};
pub use vec_inst::VecInst;
pub use vec_ops::{VecBinaryOp, VecIntCmpOp, VecIntEltCmpOp, VecShiftOp, VecUnaryOp};
pub use whole::{Direction, LAYOUT_COUNT, WholeAccess, WholeLayout};
