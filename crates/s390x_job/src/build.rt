//! A job, as far as its lines have told it.
ghost use Rattle.std.specs.Prelude.{◌≡◌, [], IfOk, OnOk, length, ◌<◌, vec_len, vec_capacity};
ghost use Rattle.s390x_base.specs.Registers.{general, vector};
ghost use Rattle.s390x_job.specs.Items.{item_line, IsItem, flags_line, frame_line, constant_line, symbol_line, register_line, memory_line, block_line, loop_line, close_line, end_line};
ghost use Rattle.s390x_job.specs.Grammar.{class, Header, Within, Instruction, may_follow};
ghost use Rattle.s390x_job.specs.Jobs.{job_lines};
ghost use Rattle.s390x_job_lines.specs.Instructions.{inst_line};
ghost use Rattle.s390x_job.specs.Builds.{beginning_lines, body_lines, done_lines, lines_at, place_at, rank_of, IsBegun, IsFullBody, IsAt, IsWhole, IsNext, Follows};

use crate::heading::{is_plain_flags, is_plain_frame};
use crate::item::{Frame, Item};
use crate::job::{Job, MemLine, StartRegs, SymbolLine};
use s390x_base::{Cond, ConstantData};
use s390x_inst::{
    AllocatedFunction, Block, CallConv, EmitInfo, EmitState, FrameLayout, Inst, IsaFlags,
    MachInstEmitState,
};
use s390x_job_fields::{GeneralStart, VectorStart};
use std::alloc::{AllocError, Global};
use std::mem;

/// The lines before the blocks, in their order.
#[derive(Clone, Copy)]
pub enum Stage {
    Flags,
    Frame,
    Constants,
    Symbols,
    Registers,
    Memory,
}

/// What the lines before the blocks tell.
#[derive(Drop)]
pub struct Beginning {
    pub flags: IsaFlags,
    pub conv: CallConv,
    pub layout: FrameLayout,
    pub constants: Vec<ConstantData>,
    pub symbols: Vec<SymbolLine>,
    pub registers: StartRegs,
    pub memory: Vec<MemLine>,
}

/// A loop that is open: its condition, and what stands before it.
#[derive(Drop)]
pub struct OpenLoop {
    pub cond: Cond,
    pub before: Vec<Inst>,
}

/// What is told so far. Before the blocks, the beginning alone.
#[derive(Drop)]
pub struct Body {
    pub beginning: Beginning,
    pub blocks: Vec<Block>,
    pub loops: Vec<OpenLoop>,
    pub here: Vec<Inst>,
}

/// Where the lines of a job have come to.
#[derive(Clone, Copy)]
pub enum Progress {
    /// Before the blocks: the kind of the last line, and the least first number of one more of that kind.
    Head(Stage, u128),
    Inside,
    Done,
}

/// No line is told yet.
pub fn start(alloc: Global) -> Body
    ensures state { IsBegun 0 0 result }
    ensures lines { beginning_lines result.beginning ≡ [] }
{
    let beginning = Beginning {
        flags: IsaFlags {
            has_mie3: false,
            has_mie4: false,
            has_vxrs_ext2: false,
            has_vxrs_ext3: false,
            no_relative_memory: false,
        },
        conv: CallConv::SystemV,
        layout: FrameLayout {
            incoming_args_size: 0,
            tail_args_size: 0,
            clobber_size: 0,
            fixed_frame_storage_size: 0,
            stackslots_size: 0,
            outgoing_args_size: 0,
            first_saved_gpr: None,
            saved_fprs: 0,
        },
        constants: Vec::new(alloc),
        symbols: Vec::new(alloc),
        registers: StartRegs {
            general: [0; 16],
            vector: [0; 32],
        },
        memory: Vec::new(alloc),
    };
    Body {
        beginning,
        blocks: Vec::new(alloc),
        loops: Vec::new(alloc),
        here: Vec::new(alloc),
    }
}

fn rank(stage: Stage) -> u8
    ensures { result ≡ rank_of stage }
{
    match stage {
        Stage::Flags => 0,
        Stage::Frame => 1,
        Stage::Constants => 2,
        Stage::Symbols => 3,
        Stage::Registers => 4,
        Stage::Memory => 5,
    }
}

/// Whether a line of a kind may follow, by the number with which it begins.
fn may_stand(stage: Stage, bound: u128, kind: Stage, first: u128) -> bool
    ensures { result ≡ may_follow (rank_of stage) bound (rank_of kind) first }
{
    rank(stage) < rank(kind) || (rank(stage) == rank(kind) && bound <= first)
}

/// The facilities of a line `flags`.
fn head_flags(
    alloc: Global,
    b: &mut Body,
    stage: Stage,
    bound: u128,
    flags: IsaFlags,
) -> Result<Option<Progress>, AllocError>
    requires { IsBegun (rank_of stage) bound b.old }
    ensures { IfOk result
        (Follows b.new (beginning_lines b.old.beginning) (Header (rank_of stage) bound)
        (flags_line flags)) }
{
    if is_plain_flags(alloc, flags)? || !may_stand(stage, bound, Stage::Flags, 0) {
        return Ok(None);
    }
    b.beginning.flags = flags;
    Ok(Some(Progress::Head(Stage::Flags, 1)))
}

fn head_frame(
    alloc: Global,
    b: &mut Body,
    stage: Stage,
    bound: u128,
    frame: Frame,
) -> Result<Option<Progress>, AllocError>
    requires { IsBegun (rank_of stage) bound b.old }
    ensures { IfOk result
        (Follows b.new (beginning_lines b.old.beginning) (Header (rank_of stage) bound)
        (frame_line frame.conv frame.layout)) }
{
    if is_plain_frame(alloc, frame.conv, &frame.layout)?
        || !may_stand(stage, bound, Stage::Frame, 0)
    {
        return Ok(None);
    }
    b.beginning.conv = frame.conv;
    b.beginning.layout = frame.layout;
    Ok(Some(Progress::Head(Stage::Frame, 1)))
}

fn head_constant(
    b: &mut Body,
    stage: Stage,
    bound: u128,
    constant: ConstantData,
) -> Result<Option<Progress>, AllocError>
    requires { IsBegun (rank_of stage) bound b.old }
    ensures { IfOk result
        (Follows b.new (beginning_lines b.old.beginning) (Header (rank_of stage) bound)
        (constant_line constant)) }
{
    if !may_stand(stage, bound, Stage::Constants, 0) {
        return Ok(None);
    }
    b.beginning.constants.push(constant)?;
    Ok(Some(Progress::Head(Stage::Constants, 0)))
}

fn head_symbol(
    b: &mut Body,
    stage: Stage,
    bound: u128,
    symbol: SymbolLine,
) -> Result<Option<Progress>, AllocError>
    requires { IsBegun (rank_of stage) bound b.old }
    ensures { IfOk result
        (Follows b.new (beginning_lines b.old.beginning) (Header (rank_of stage) bound)
        (symbol_line symbol)) }
{
    let number = u128::from(symbol.name.0);
    if !may_stand(stage, bound, Stage::Symbols, number) {
        return Ok(None);
    }
    b.beginning.symbols.push(symbol)?;
    Ok(Some(Progress::Head(Stage::Symbols, number + 1)))
}

fn head_general(b: &mut Body, stage: Stage, bound: u128, start: GeneralStart) -> Option<Progress>
    requires number { start.number < 16 }
    requires beginning { IsBegun (rank_of stage) bound b.old }
    ensures { Follows b.new (beginning_lines b.old.beginning) (Header (rank_of stage) bound)
        (register_line (general start.number) start.value) result }
{
    let place = u128::from(start.number);
    if start.value == 0 || !may_stand(stage, bound, Stage::Registers, place) {
        return None;
    }
    b.beginning.registers.general[start.number as usize] = start.value;
    Some(Progress::Head(Stage::Registers, place + 1))
}

fn head_vector(b: &mut Body, stage: Stage, bound: u128, start: VectorStart) -> Option<Progress>
    requires number { start.number < 32 }
    requires beginning { IsBegun (rank_of stage) bound b.old }
    ensures { Follows b.new (beginning_lines b.old.beginning) (Header (rank_of stage) bound)
        (register_line (vector start.number) start.value) result }
{
    let place = 16 + u128::from(start.number);
    if !may_stand(stage, bound, Stage::Registers, place) || start.value == 0 {
        return None;
    }
    b.beginning.registers.vector[start.number as usize] = start.value;
    Some(Progress::Head(Stage::Registers, place + 1))
}

fn head_memory(
    b: &mut Body,
    stage: Stage,
    bound: u128,
    region: MemLine,
) -> Result<Option<Progress>, AllocError>
    requires { IsBegun (rank_of stage) bound b.old }
    ensures { IfOk result
        (Follows b.new (beginning_lines b.old.beginning) (Header (rank_of stage) bound)
        (memory_line region)) }
{
    let address = u128::from(region.address);
    let bytes: &[u8] = &region.bytes;
    let size = bytes.len();
    let end = address + size as u128;
    if size == 0 || 1 << 64 < end || !may_stand(stage, bound, Stage::Memory, address) {
        return Ok(None);
    }
    b.beginning.memory.push(region)?;
    Ok(Some(Progress::Head(Stage::Memory, end)))
}

/// The whole job.
pub fn job_of(b: Body) -> Job
    requires { IsFullBody b }
    ensures lines { job_lines result ≡ done_lines b }
    ensures whole { IsWhole result }
{
    let Body {
        beginning,
        blocks,
        loops: _,
        here: _,
    } = b;
    Job {
        function: AllocatedFunction {
            blocks,
            constants: beginning.constants,
        },
        info: EmitInfo::new(beginning.flags),
        conv: beginning.conv,
        state: EmitState::new(beginning.layout, beginning.conv),
        symbols: beginning.symbols,
        registers: beginning.registers,
        memory: beginning.memory,
    }
}

fn head(
    alloc: Global,
    b: &mut Body,
    stage: Stage,
    bound: u128,
    i: Item,
) -> Result<Option<Progress>, AllocError>
    requires item { IsItem i }
    requires beginning { IsBegun (rank_of stage) bound b.old }
    ensures { IfOk result
        (Follows b.new (beginning_lines b.old.beginning) (Header (rank_of stage) bound)
        (item_line i)) }
{
    match i {
        Item::Flags(flags) => head_flags(alloc, b, stage, bound, flags),
        Item::Frame(frame) => head_frame(alloc, b, stage, bound, frame),
        Item::Constant(constant) => head_constant(b, stage, bound, constant),
        Item::Symbol(symbol) => head_symbol(b, stage, bound, symbol),
        Item::General(start) => Ok(head_general(b, stage, bound, start)),
        Item::Vector(start) => Ok(head_vector(b, stage, bound, start)),
        Item::Memory(region) => head_memory(b, stage, bound, region),
        Item::Block => Ok(Some(Progress::Inside)),
        Item::End => Ok(Some(Progress::Done)),
        Item::Open(_) => Ok(None),
        Item::Close => Ok(None),
        Item::One(_) => Ok(None),
    }
}

/// More instructions are moved with their list, which costs no copy.
const MOST_COPIED: usize = 64;

/// Takes all instructions, in a list without spare room. The list that they stood in keeps its room for the next ones, where they are few.
fn take_insts(alloc: Global, insts: &mut Vec<Inst>) -> Result<Vec<Inst>, AllocError>
    ensures taken { IfOk result (λ v. v.items ≡ insts.old.items) }
    ensures left { OnOk result (insts.new.items ≡ []) }
{
    if insts.len() > MOST_COPIED {
        insts.shrink_to_fit();
        return Ok(mem::replace(insts, Vec::new(alloc)));
    }
    let mut taken = Vec::with_capacity(alloc, insts.len())?;
    taken.append(insts)?;
    Ok(taken)
}

/// The block ends.
fn close_block(alloc: Global, b: &mut Body) -> Result<(), AllocError>
    requires none { b.old.loops.items ≡ [] }
    requires full { IsFullBody b.old }
    ensures more { OnOk result
        (IsNext (body_lines b.old) (Within (length b.old.loops.items)) block_line Progress.Inside
        b.new) }
    ensures done { OnOk result
        (IsNext (body_lines b.old) (Within (length b.old.loops.items)) end_line Progress.Done
        b.new) }
{
    let insts = take_insts(alloc, &mut b.here)?;
    b.blocks.push(Block { insts })?;
    Ok(())
}

fn open(alloc: Global, b: &mut Body, cond: Cond) -> Result<(), AllocError>
    requires few { length b.old.loops.items < 9 }
    requires full { IsFullBody b.old }
    ensures { OnOk result
        (IsNext (body_lines b.old) (Within (length b.old.loops.items)) (loop_line cond)
        Progress.Inside b.new) }
{
    let before = mem::replace(&mut b.here, Vec::new(alloc));
    b.loops.push(OpenLoop { cond, before })?;
    Ok(())
}

fn close(b: &mut Body) -> Result<(), AllocError>
    requires some { 0 < length b.old.loops.items }
    requires full { IsFullBody b.old }
    ensures { OnOk result
        (IsNext (body_lines b.old) (Within (length b.old.loops.items)) close_line Progress.Inside
        b.new) }
{
    match b.loops.pop() {
        Some(top) => {
            let OpenLoop { cond, before } = top;
            b.here.shrink_to_fit();
            let body = mem::replace(&mut b.here, before);
            b.here.push(Inst::Loop { cond, body })?;
            Ok(())
        }
        None => unreachable!(),
    }
}

/// Makes room for one more instruction. A full block grows fourfold, since each growth copies it.
#[inline(always)]
pub fn make_room(insts: &mut Vec<Inst>) -> Result<(), AllocError>
    ensures items { insts.new.items ≡ insts.old.items }
    ensures room { OnOk result (vec_len insts.new < vec_capacity insts.new) }
{
    let len = insts.len();
    if len < insts.capacity() {
        return Ok(());
    }
    insts.reserve(len.saturating_mul(3).saturating_add(1))
}

/// Adds an instruction to the block, which has room for it.
#[inline(always)]
pub fn add(b: &mut Body, x: Inst)
    requires room { vec_len b.old.here < vec_capacity b.old.here }
    requires one { class (inst_line x) ≡ Instruction }
    requires full { IsFullBody b.old }
    ensures { IsNext (body_lines b.old) (Within (length b.old.loops.items)) (inst_line x)
        Progress.Inside b.new }
{
    b.here.push_reserved(x);
}

/// Adds an instruction to the block, and makes room for it before.
fn add_with_room(b: &mut Body, x: Inst) -> Result<(), AllocError>
    requires one { class (inst_line x) ≡ Instruction }
    requires full { IsFullBody b.old }
    ensures { OnOk result
        (IsNext (body_lines b.old) (Within (length b.old.loops.items)) (inst_line x) Progress.Inside
        b.new) }
{
    make_room(&mut b.here)?;
    add(b, x);
    Ok(())
}

fn inside(alloc: Global, b: &mut Body, i: Item) -> Result<Option<Progress>, AllocError>
    requires item { IsItem i }
    requires full { IsFullBody b.old }
    ensures { IfOk result
        (Follows b.new (body_lines b.old) (Within (length b.old.loops.items)) (item_line i)) }
{
    match i {
        Item::Block => {
            if b.loops.is_empty() {
                close_block(alloc, b)?;
                Ok(Some(Progress::Inside))
            } else {
                Ok(None)
            }
        }
        Item::End => {
            if b.loops.is_empty() {
                close_block(alloc, b)?;
                Ok(Some(Progress::Done))
            } else {
                Ok(None)
            }
        }
        Item::Open(cond) => {
            if b.loops.len() < 9 {
                open(alloc, b, cond)?;
                Ok(Some(Progress::Inside))
            } else {
                Ok(None)
            }
        }
        Item::Close => {
            if b.loops.is_empty() {
                Ok(None)
            } else {
                close(b)?;
                Ok(Some(Progress::Inside))
            }
        }
        Item::One(x) => {
            add_with_room(b, x)?;
            Ok(Some(Progress::Inside))
        }
        Item::Flags(_) => Ok(None),
        Item::Frame(_) => Ok(None),
        Item::Constant(_) => Ok(None),
        Item::Symbol(_) => Ok(None),
        Item::General(_) => Ok(None),
        Item::Vector(_) => Ok(None),
        Item::Memory(_) => Ok(None),
    }
}

/// Adds one more line. Answers where the lines have come to, or none where the line may not stand there.
pub fn push(
    alloc: Global,
    b: &mut Body,
    progress: Progress,
    i: Item,
) -> Result<Option<Progress>, AllocError>
    requires item { IsItem i }
    requires state { IsAt progress b.old }
    ensures { IfOk result
        (Follows b.new (lines_at progress b.old) (place_at progress b.old) (item_line i)) }
{
    match progress {
        Progress::Head(stage, bound) => head(alloc, b, stage, bound, i),
        Progress::Inside => inside(alloc, b, i),
        Progress::Done => Ok(None),
    }
}
