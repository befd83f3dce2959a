//! Where a cause stands.
ghost use Rattle.std.specs.Prelude.{◌≡◌, []};
ghost use Rattle.s390x_calls.specs.Places.{block_end, no_place, of_instruction, padded_path, start, whole_code};

/// How many numbers of a path are told. No instruction has more, since loops are nested at most eight deep.
pub const MOST_NUMBERS: usize = 9;

/// Where a cause stands. Blocks and instructions are counted from 0; what the kind doesn't speak of is 0.
#[repr(C)]
#[derive(Clone, Copy)]
pub struct Place {
    /// 0: no place is told. 1: before the blocks. 2: an instruction. 3: the end of a block. 4: the length of the whole code.
    pub kind: u32,
    /// The block, with 2 and 3.
    pub block: usize,
    /// How many numbers lead to the instruction, with 2: one, and one more for each `Loop` that it stands in.
    pub depth: usize,
    /// The first `MOST_NUMBERS` of them, and zeros: the instruction's number in the block; for a member of a `Loop` that of the outermost
    /// `Loop`, and then, from the outside in, each member's number in the `Loop` around it.
    pub path: [usize; 9],
}

impl Place {
    /// No place.
    pub fn none() -> Place
        ensures { result ≡ no_place }
    {
        of_kind(0, 0)
    }

    /// Before the blocks.
    pub fn start() -> Place
        ensures { result ≡ start }
    {
        of_kind(1, 0)
    }

    /// The instruction to which the path leads in the block.
    pub fn of_instruction(block: usize, path: &[usize]) -> Place
        ensures { result ≡ of_instruction block path.now }
    {
        Place {
            kind: 2,
            block,
            depth: path.len(),
            path: first_numbers(path),
        }
    }

    /// The end of the block.
    pub fn block_end(block: usize) -> Place
        ensures { result ≡ block_end block }
    {
        of_kind(3, block)
    }

    /// The length of the whole code.
    pub fn whole_code() -> Place
        ensures { result ≡ whole_code }
    {
        of_kind(4, 0)
    }
}

// A place without a path.
fn of_kind(kind: u32, block: usize) -> Place
    ensures { result ≡ record { kind = kind; block = block; depth = 0; path = padded_path [] } }
{
    Place {
        kind,
        block,
        depth: 0,
        path: [0; 9],
    }
}

// The first numbers of a path, and zeros.
fn first_numbers(path: &[usize]) -> [usize; 9]
    ensures { result ≡ padded_path path.now }
{
    let mut numbers = [0; 9];
    let told = if path.len() < MOST_NUMBERS {
        path.len()
    } else {
        MOST_NUMBERS
    };
    numbers[..told].copy_from_slice(&path[..told]);
    numbers
}
