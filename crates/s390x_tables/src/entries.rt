//! The entries of the tables. Each offset is in bytes from the code's beginning.

/// A field that is to be filled when the code is linked.
#[repr(C)]
#[derive(Clone, Copy)]
pub struct Relocation {
    /// Where the field begins.
    pub offset: u32,
    /// The ELF number: `R_390_PC32DBL` 19, `R_390_PLT32DBL` 20, `R_390_64` 22.
    pub kind: u32,
    /// The number of the symbol's name.
    pub symbol: u32,
    /// What is added to the symbol's address, in bytes.
    pub addend: i64,
}

/// A trap.
#[repr(C)]
#[derive(Clone, Copy)]
pub struct Trap {
    /// Where the instruction begins that stops, at an access of memory; at any other stop its last byte.
    pub offset: u32,
    /// 1 to 250 for a user's code, 251 to 255 for the named ones.
    pub code: u32,
}

/// A call with a try.
#[repr(C)]
#[derive(Clone, Copy)]
pub struct Try {
    /// Where the call returns to.
    pub offset: u32,
    /// How many handlers it has.
    pub handler_count: usize,
    /// The place of its first handler in the table of handlers.
    pub first_handler: usize,
    /// From the stack pointer behind the call up to where the caller's frame begins, in bytes.
    pub frame: u64,
}

/// A handler of a call with a try.
#[repr(C)]
#[derive(Clone, Copy)]
pub struct Handler {
    /// Where the handler begins; 0 where its label was never bound.
    pub offset: u32,
    /// 1 where it is for a tag, 0 where it is for all tags.
    pub has_tag: u32,
    /// The tag; 0 where there is none.
    pub tag: u32,
}

/// A patchable call.
#[repr(C)]
#[derive(Clone, Copy)]
pub struct PatchableCall {
    /// Where the call returns to.
    pub offset: u32,
    /// How many bytes it has.
    pub length: u32,
}

/// A stack map.
#[repr(C)]
#[derive(Clone, Copy)]
pub struct StackMap {
    /// Where the call returns to.
    pub offset: u32,
    /// The number of the map.
    pub map: u32,
}
