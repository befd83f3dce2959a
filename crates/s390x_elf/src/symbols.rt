//! The global symbols of an object.
ghost use Rattle.std.specs.Prelude.{◌≡◌, ◌+◌, ◌<◌, ◌≤◌, ◌^◌, ◌∷◌, [], ◌++◌, None, is_some, IfOk, length, map, string_bytes};
ghost use Rattle.s390x_elf.specs.Symbols.{null_symbol};
ghost use Rattle.s390x_elf.specs.Object.{function_of, function_symbol, place, string_table, with_name};
ghost use Rattle.s390x_elf.specs.Tables.{FunctionFits, Indexes, symbol_of, symbol_number, symbol_entry, symbol_entries};

use crate::fields::{Field, put_fields};
use std::alloc::{AllocError, Global};
use std::collections::BTreeMap;

/// Where a function stands in the text, in bytes.
#[derive(Clone, Copy)]
pub struct Extent {
    pub start: u64,
    pub size: u64,
}

/// A function in a text.
#[derive(Drop)]
pub struct TextFunction {
    pub name: String,
    /// Where it starts, in bytes.
    pub start: u64,
    /// How many bytes it has.
    pub size: u64,
}

/// A global symbol: a function of the object, or a name that it uses and doesn't define.
#[derive(Drop)]
pub struct GlobalSymbol {
    pub name: String,
    pub extent: Option<Extent>,
}

/// Global symbols, no two of a name.
#[derive(Drop)]
pub struct GlobalSymbols {
    pub symbols: Vec<GlobalSymbol>,
    /// The place of each name among them.
    pub places: BTreeMap<String, u64>,
}

/// The number of the text among the sections.
pub const TEXT: u16 = 3;
// A global function, and a global symbol of no kind: `st_info` and `st_other`.
const GLOBAL_FUNCTION: u16 = 0x1200;

const GLOBAL_NAME: u16 = 0x1000;

// Where a function stands.
fn extent_of(start: u64, size: u64) -> Extent
    ensures value { result ≡ record { start = start; size = size } }
    ensures start_fits { start < 2 ^ 64 }
    ensures size_fits { size < 2 ^ 64 }
{
    Extent { start, size }
}

impl GlobalSymbols {
    /// No symbols. It keeps the allocator.
    pub fn new(alloc: Global) -> GlobalSymbols
        ensures symbols { result.symbols.items ≡ [] }
        ensures places { Indexes result.places (map symbol_of result.symbols.items) }
    {
        GlobalSymbols {
            symbols: Vec::new(alloc),
            places: BTreeMap::new(alloc),
        }
    }

    /// Puts a symbol behind the others, none of which has its name.
    pub fn push(&mut self, symbol: GlobalSymbol) -> Result<(), AllocError>
        requires places { Indexes self.old.places (map symbol_of self.old.symbols.items) }
        requires name { place (map symbol_of self.old.symbols.items) (string_bytes symbol.name)
            ≡ None }
        ensures places { IfOk result
            (λ _. Indexes self.new.places (map symbol_of self.new.symbols.items)) }
        ensures symbols { IfOk result
            (λ _. map symbol_of self.new.symbols.items
            ≡ map symbol_of self.old.symbols.items ++ symbol_of symbol ∷ []) }
    {
        let name = symbol.name.clone()?;
        let next = self.symbols.len() as u64;
        self.places.insert(name, next)?;
        self.symbols.push(symbol)?;
        Ok(())
    }

    /// Whether a symbol has a name.
    pub fn has(&self, name: &str) -> bool
        requires { Indexes self.now.places (map symbol_of self.now.symbols.items) }
        ensures { result ≡ is_some (place (map symbol_of self.now.symbols.items) name.now) }
    {
        self.places.contains_key(name)
    }

    /// Puts a function behind the others, none of which has its name.
    pub fn add_function(&mut self, function: &TextFunction) -> Result<(), AllocError>
        requires places { Indexes self.old.places (map symbol_of self.old.symbols.items) }
        requires name { place (map symbol_of self.old.symbols.items)
            (string_bytes function.now.name) ≡ None }
        ensures places { IfOk result
            (λ _. Indexes self.new.places (map symbol_of self.new.symbols.items)) }
        ensures symbols { IfOk result
            (λ _. map symbol_of self.new.symbols.items
            ≡ map symbol_of self.old.symbols.items ++ function_symbol (function_of function.now)
            ∷ []) }
        ensures fits { IfOk result (λ _. FunctionFits (function_of function.now)) }
    {
        let name = function.name.clone()?;
        let extent = extent_of(function.start, function.size);
        self.push(GlobalSymbol {
            name,
            extent: Some(extent),
        })?;
        Ok(())
    }

    /// Puts a name that the object uses behind the others, where no symbol has it.
    pub fn add_name(&mut self, name: String) -> Result<(), AllocError>
        requires { Indexes self.old.places (map symbol_of self.old.symbols.items) }
        ensures places { IfOk result
            (λ _. Indexes self.new.places (map symbol_of self.new.symbols.items)) }
        ensures symbols { IfOk result
            (λ _. map symbol_of self.new.symbols.items
            ≡ with_name (map symbol_of self.old.symbols.items) (string_bytes name)) }
    {
        if self.has(name.as_str()) {
            return Ok(());
        }
        self.push(GlobalSymbol { name, extent: None })?;
        Ok(())
    }

    /// The number of the symbol with a name, from 1 on; 0 where none has it.
    pub fn number(&self, name: &str) -> u64
        requires { Indexes self.now.places (map symbol_of self.now.symbols.items) }
        ensures value { result ≡ symbol_number (map symbol_of self.now.symbols.items) name.now }
        ensures within { result ≤ length self.now.symbols.items }
    {
        match self.places.get(name) {
            Some(place) => *place + 1,
            None => 0,
        }
    }
}

/// The names of symbols, each with a zero behind it, behind the empty one.
pub fn string_table(alloc: Global, symbols: &[GlobalSymbol]) -> Result<Vec<u8>, AllocError>
    ensures { IfOk result (λ names. names.items ≡ 0 ∷ string_table (map symbol_of symbols.now)) }
{
    let mut names = Vec::new(alloc);
    names.push(0)?;
    for symbol in symbols {
        names.extend_from_slice(symbol.name.as_bytes())?;
        names.push(0)?;
    }
    Ok(names)
}

// Puts the entry of a symbol behind others.
fn put_entry(entries: &mut Vec<u8>, name_at: u32, symbol: &GlobalSymbol) -> Result<(), AllocError>
    ensures { IfOk result
        (λ _. entries.new.items
        ≡ entries.old.items ++ symbol_entry name_at (symbol_of symbol.now)) }
{
    match symbol.extent {
        Some(extent) => put_fields(
            entries,
            &[
                Field::Word(name_at),
                Field::Half(GLOBAL_FUNCTION),
                Field::Half(TEXT),
                Field::Wide(extent.start),
                Field::Wide(extent.size),
            ],
        ),
        None => put_fields(
            entries,
            &[
                Field::Word(name_at),
                Field::Half(GLOBAL_NAME),
                Field::Half(0),
                Field::Wide(0),
                Field::Wide(0),
            ],
        ),
    }
}

/// The entries of symbols, behind the one of the symbol that stands for none.
pub fn symbol_entries(alloc: Global, symbols: &[GlobalSymbol]) -> Result<Vec<u8>, AllocError>
    requires { 1 + length (string_table (map symbol_of symbols.now)) < 2 ^ 32 }
    ensures { IfOk result
        (λ entries. entries.items
        ≡ symbol_entry 0 null_symbol ++ symbol_entries 1 (map symbol_of symbols.now)) }
{
    let mut entries = Vec::new(alloc);
    entries.extend_from_slice(&[0; 24])?;
    let mut name_at: u32 = 1;
    for symbol in symbols {
        put_entry(&mut entries, name_at, symbol)?;
        name_at += symbol.name.len() as u32 + 1;
    }
    Ok(entries)
}
