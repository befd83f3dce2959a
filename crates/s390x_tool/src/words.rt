//! The words after the program's name.
ghost use Rattle.std.specs.Prelude.{◌≡◌, ◌≢◌, ◌↔◌, ◌∷◌, [], ℕ, ◌^◌, ◌<◌, codes, IsTrue, IfSome, IfNone};
ghost use Rattle.std.specs.Fmt.{decimal};
ghost use Rattle.s390x_tool.specs.Words.{IsForm, IsNoForm, IsPlain, texts};

/// What the program is asked to do with a job.
#[derive(Clone, Copy)]
pub enum JobCommand {
    /// The image of the job, linked at this base.
    Image { base: u64 },
    /// The code of the job with its tables.
    Emit,
    /// What the machine does with the job's image at this base, in at most so many steps.
    Run { base: u64, steps: u32 },
    /// What each instruction of the job reports to a register allocator.
    Operands,
    /// The text of each instruction of the job.
    Show,
}

/// What the program is asked for.
#[derive(Clone, Copy)]
pub enum Command {
    /// Something about the job that the input is.
    OnJob(JobCommand),
    /// How many bytes the image of a generated function of so many blocks has, and their sum; the input isn't read.
    Generate {
        count: u32,
        start: u32,
    },
    /// What so many processors do that add to one word; the input isn't read.
    Simulate {
        base: u64,
        word: u64,
        count: u32,
        steps: u32,
        start: u32,
    },
    /// The job that the input is, with the registers of the plan that stands behind it.
    Allocate,
    /// The image at this base of the functions that the input is.
    Bundle {
        base: u64,
    },
}

/// The most steps that a command may ask for.
const MOST_STEPS: u64 = 1_000_000;

/// The most blocks that a generated function may have.
const MOST_BLOCKS: u64 = 100_000;

/// The most processors that a simulation may have.
const MOST_PROCESSORS: u64 = 64;

/// The command of these words, where they are one.
pub fn read_words(words: &[String]) -> Option<Command>
    ensures form { IfSome result (λ command. IsForm (texts words.now) command) }
    ensures none { IfNone result (IsNoForm (texts words.now)) }
{
    match words {
        [name] => read_alone(name.as_str()),
        [name, first] => read_with_one(name.as_str(), first.as_str()),
        [name, first, second] => read_with_two(name.as_str(), first.as_str(), second.as_str()),
        [name, first, second, third, fourth, fifth] => read_with_five(
            name.as_str(),
            first.as_str(),
            second.as_str(),
            third.as_str(),
            fourth.as_str(),
            fifth.as_str(),
        ),
        _ => None,
    }
}

// The command that is this word alone.
fn read_alone(name: &str) -> Option<Command>
    ensures form { IfSome result (λ command. IsForm (name.now ∷ []) command) }
    ensures none { IfNone result (IsNoForm (name.now ∷ [])) }
{
    if name == "emit" {
        return Some(Command::OnJob(JobCommand::Emit));
    }
    if name == "operands" {
        return Some(Command::OnJob(JobCommand::Operands));
    }
    if name == "show" {
        return Some(Command::OnJob(JobCommand::Show));
    }
    if name == "alloc" {
        return Some(Command::Allocate);
    }
    None
}

// The command with this name and one word behind it.
fn read_with_one(name: &str, first: &str) -> Option<Command>
    ensures form { IfSome result (λ command. IsForm (name.now ∷ first.now ∷ []) command) }
    ensures none { IfNone result (IsNoForm (name.now ∷ first.now ∷ [])) }
{
    if name == "image" {
        return read_image(first);
    }
    if name == "bundle" {
        return read_bundle(first);
    }
    None
}

// The command with this name and two words behind it.
fn read_with_two(name: &str, first: &str, second: &str) -> Option<Command>
    ensures form { IfSome result
        (λ command. IsForm (name.now ∷ first.now ∷ second.now ∷ []) command) }
    ensures none { IfNone result (IsNoForm (name.now ∷ first.now ∷ second.now ∷ [])) }
{
    if name == "run" {
        return read_run(first, second);
    }
    if name == "gen" {
        return read_generate(first, second);
    }
    None
}

// The command with this name and five words behind it.
fn read_with_five(
    name: &str,
    first: &str,
    second: &str,
    third: &str,
    fourth: &str,
    fifth: &str,
) -> Option<Command>
    ensures form { IfSome result
        (λ command. IsForm
        (name.now ∷ first.now ∷ second.now ∷ third.now ∷ fourth.now ∷ fifth.now ∷ []) command) }
    ensures none { IfNone result
        (IsNoForm (name.now ∷ first.now ∷ second.now ∷ third.now ∷ fourth.now ∷ fifth.now ∷ [])) }
{
    if name == "smp" {
        return read_simulation(first, second, third, fourth, fifth);
    }
    None
}

// The command `image` with this word behind it.
fn read_image(base: &str) -> Option<Command>
    ensures form { IfSome result (λ command. IsForm (codes "image" ∷ base.now ∷ []) command) }
    ensures none { IfNone result (IsNoForm (codes "image" ∷ base.now ∷ [])) }
{
    let base = read_number(base)?;
    Some(Command::OnJob(JobCommand::Image { base }))
}

// The command `bundle` with this word behind it.
fn read_bundle(base: &str) -> Option<Command>
    ensures form { IfSome result (λ command. IsForm (codes "bundle" ∷ base.now ∷ []) command) }
    ensures none { IfNone result (IsNoForm (codes "bundle" ∷ base.now ∷ [])) }
{
    let base = read_number(base)?;
    Some(Command::Bundle { base })
}

// The command `run` with these words behind it.
fn read_run(base: &str, steps: &str) -> Option<Command>
    ensures form { IfSome result
        (λ command. IsForm (codes "run" ∷ base.now ∷ steps.now ∷ []) command) }
    ensures none { IfNone result (IsNoForm (codes "run" ∷ base.now ∷ steps.now ∷ [])) }
{
    let base = read_number(base)?;
    let steps = read_number(steps)?;
    if steps > MOST_STEPS {
        return None;
    }
    let steps = steps as u32;
    Some(Command::OnJob(JobCommand::Run { base, steps }))
}

// The command `gen` with these words behind it.
fn read_generate(count: &str, start: &str) -> Option<Command>
    ensures form { IfSome result
        (λ command. IsForm (codes "gen" ∷ count.now ∷ start.now ∷ []) command) }
    ensures none { IfNone result (IsNoForm (codes "gen" ∷ count.now ∷ start.now ∷ [])) }
{
    let count = read_number(count)?;
    let start = read_number(start)?;
    if count > MOST_BLOCKS {
        return None;
    }
    if start > 4294967295 {
        return None;
    }
    let count = count as u32;
    let start = start as u32;
    Some(Command::Generate { count, start })
}

// The command `smp` with these words behind it.
fn read_simulation(base: &str, word: &str, count: &str, steps: &str, start: &str) -> Option<Command>
    ensures form { IfSome result
        (λ command. IsForm
        (codes "smp" ∷ base.now ∷ word.now ∷ count.now ∷ steps.now ∷ start.now ∷ []) command) }
    ensures none { IfNone result
        (IsNoForm (codes "smp" ∷ base.now ∷ word.now ∷ count.now ∷ steps.now ∷ start.now ∷ [])) }
{
    let base = read_number(base)?;
    let word = read_number(word)?;
    let count = read_number(count)?;
    let steps = read_number(steps)?;
    let start = read_number(start)?;
    if count == 0 {
        return None;
    }
    if count > MOST_PROCESSORS {
        return None;
    }
    if steps > MOST_STEPS {
        return None;
    }
    if start > 4294967295 {
        return None;
    }
    let count = count as u32;
    let steps = steps as u32;
    let start = start as u32;
    Some(Command::Simulate {
        base,
        word,
        count,
        steps,
        start,
    })
}

/// The number below 2^64 that this word writes, in decimal without leading zeros; none where it writes none.
pub fn read_number(word: &str) -> Option<u64>
    ensures some { IfSome result (λ n. word.now ≡ decimal n) }
    ensures none { IfNone result ((n : ℕ) → n < 2 ^ 64 → word.now ≢ decimal n) }
{
    if !is_plain(word.as_bytes()) {
        return None;
    }
    match word.parse::<u64>() {
        Ok(number) => Some(number),
        Err(_) => None,
    }
}

// Whether no sign stands first, and a zero only alone.
fn is_plain(digits: &[u8]) -> bool
    ensures { IsTrue result ↔ IsPlain digits.now }
{
    match digits.first() {
        Some(first) => *first != b'+' && (*first != b'0' || digits.len() == 1),
        None => true,
    }
}
