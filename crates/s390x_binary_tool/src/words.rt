//! The words after the program's name.
ghost use Rattle.std.specs.Prelude.{◌≡◌, ◌≢◌, ◌∷◌, [], codes, IfSome, IfNone};
ghost use Rattle.s390x_tool.specs.Words.{texts};
ghost use Rattle.s390x_binary_tool.specs.Words.{IsForm, IsNoForm, object_name};

use s390x_tool::read_number;

/// What the second program is asked for.
#[derive(Clone, Copy)]
pub enum Command {
    /// Where emission refuses the job that the input is.
    Refusal,
    /// Whether the bytes behind the job are its image at this base.
    Verify { base: u64 },
    /// The disassembly of the code that the input is, at this base.
    Disassemble { base: u64 },
    /// The code of which the input is a source, at this base.
    Assemble { base: u64 },
    /// The listing of the job that the input is, with its image at this base.
    Listing { base: u64 },
    /// The object of the job that the input is; `object_name` is its function's.
    Object,
    /// The object of the functions that the input is, each called by its name.
    Objects,
}

/// The command of these words, where they are one.
pub fn read_words(words: &[String]) -> Option<Command>
    ensures form { IfSome result (λ command. IsForm (texts words.now) command) }
    ensures none { IfNone result (IsNoForm (texts words.now)) }
{
    match words {
        [name] => read_alone(name.as_str()),
        [name, word] => read_pair(name.as_str(), word.as_str()),
        _ => None,
    }
}

/// The name of the function for `object`: the word behind it, or `function`.
pub fn object_name(words: &[String]) -> &str
    ensures { result.now ≡ object_name (texts words.now) }
{
    match words.get(1) {
        Some(name) => name.as_str(),
        None => "function",
    }
}

// The command that is this word alone.
fn read_alone(name: &str) -> Option<Command>
    ensures form { IfSome result (λ command. IsForm (name.now ∷ []) command) }
    ensures none { IfNone result (IsNoForm (name.now ∷ [])) }
{
    if name == "refusal" {
        return Some(Command::Refusal);
    }
    if name == "object" {
        return Some(Command::Object);
    }
    if name == "objects" {
        return Some(Command::Objects);
    }
    None
}

// The command with this name and a word behind it.
fn read_pair(name: &str, word: &str) -> Option<Command>
    ensures form { IfSome result (λ command. IsForm (name.now ∷ word.now ∷ []) command) }
    ensures none { IfNone result (IsNoForm (name.now ∷ word.now ∷ [])) }
{
    if name == "object" {
        return Some(Command::Object);
    }
    read_with_base(name, word)
}

// The command with this name and a base behind it.
fn read_with_base(name: &str, base: &str) -> Option<Command>
    requires { name.now ≢ codes "object" }
    ensures form { IfSome result (λ command. IsForm (name.now ∷ base.now ∷ []) command) }
    ensures none { IfNone result (IsNoForm (name.now ∷ base.now ∷ [])) }
{
    let base = read_number(base)?;
    if name == "verify" {
        return Some(Command::Verify { base });
    }
    if name == "disassemble" {
        return Some(Command::Disassemble { base });
    }
    if name == "assemble" {
        return Some(Command::Assemble { base });
    }
    if name == "list" {
        return Some(Command::Listing { base });
    }
    None
}
