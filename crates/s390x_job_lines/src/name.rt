//! The names of lines: the parts of a job, and the instructions.
ghost use Rattle.std.specs.Prelude.{◌≡◌, ◌<◌};
ghost use Rattle.s390x_job_lines.specs.Names.{line_name_of, name_text};
ghost use Rattle.s390x_job_lines.specs.Slots.{mix, slot_of};
ghost use Rattle.s390x_job_lines.specs.declared.name.LineName.{LineName};

use crate::access_names::{load_name, store_name, whole_name};
use crate::inst_name::{ControlName, IntegerName, MemoryName, VectorName};
use crate::name_hash::ALL_NAMES;
use s390x_inst::{Direction, LoadOp, StoreOp, WholeLayout};
use s390x_job_fields::word::Word;

/// The name of a line. Instructions stand in groups, a loop by itself, since lines of its members follow.
#[derive(Clone, Copy)]
pub enum LineName {
    /// A line `flags`.
    FlagsLine,
    /// A line `frame`.
    FrameLine,
    /// A line `const`.
    ConstantLine,
    /// A line `symbol`.
    SymbolLine,
    /// A line `reg`.
    RegisterLine,
    /// A line `mem`.
    MemoryLine,
    /// A line `block`.
    BlockLine,
    /// A line `endloop`.
    EndLoopLine,
    /// A line `end`.
    EndLine,
    /// A line `Loop`.
    Loop,
    Integer(IntegerName),
    /// A load of one register.
    Load(LoadOp),
    /// A store of one register.
    Store(StoreOp),
    Memory(MemoryName),
    Control(ControlName),
    Vector(VectorName),
    /// A load or a store of a whole vector register.
    Whole(Direction, WholeLayout),
}

/// What each number of letters adds to `mix`, so that no two names have one slot.
#[rattlefmt::skip]
pub const OFFSETS: [u8; 32] = [
    0, 0, 0, 1, 1, 0, 3, 6, 4, 0, 0, 8, 4, 0, 15, 0,
    2, 10, 2, 4, 0, 1, 0, 0, 0, 0, 0, 0, 0, 0, 0, 0,
];

/// A number below 512 that the letters of a word tell.
fn mix(word: &[u8]) -> usize
    ensures value { result ≡ mix 0 word.now }
    ensures below { result < 512 }
{
    let mut h: usize = 0;
    for x in word {
        h = (h * 5 + usize::from(*x)) % 512;
    }
    h
}

/// The slot of a word.
#[tactic(auto, unfolding(crate::specs::Slots::slot_of))]
fn slot(word: &[u8]) -> usize
    ensures value { result ≡ slot_of word.now }
    ensures below { result < 512 }
{
    let offsets: &[u8] = &OFFSETS;
    (usize::from(offsets[word.len() % 32]) + mix(word)) % 512
}

/// The one name that this word may spell; any name for a word that spells none.
pub fn candidate(word: &[u8]) -> LineName
    ensures { (name : LineName) → name_text name ≡ word.now → result ≡ name }
{
    let names: &[LineName] = &ALL_NAMES;
    names[slot(word)]
}

/// The name that a word spells, `EndLine` for a word that spells none.
pub fn find_name(word: &[u8]) -> LineName
    ensures { result ≡ line_name_of word.now }
{
    let name = candidate(word);
    if name.text().as_bytes() == word {
        name
    } else {
        LineName::EndLine
    }
}

impl Word for LineName {
    ghost spelling = { name_text };

    fn text(self) -> &'static str {
        match self {
            LineName::FlagsLine => "flags",
            LineName::FrameLine => "frame",
            LineName::ConstantLine => "const",
            LineName::SymbolLine => "symbol",
            LineName::RegisterLine => "reg",
            LineName::MemoryLine => "mem",
            LineName::BlockLine => "block",
            LineName::EndLoopLine => "endloop",
            LineName::EndLine => "end",
            LineName::Loop => "Loop",
            LineName::Integer(name) => name.text(),
            LineName::Load(op) => load_name(op),
            LineName::Store(op) => store_name(op),
            LineName::Memory(name) => name.text(),
            LineName::Control(name) => name.text(),
            LineName::Vector(name) => name.text(),
            LineName::Whole(direction, layout) => whole_name(direction, layout),
        }
    }
}
