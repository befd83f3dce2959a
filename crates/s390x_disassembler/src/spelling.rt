//! The letters that an instruction's masks choose at the end of its mnemonic.
ghost use Rattle.std.specs.Prelude.{◌≡◌, map};
ghost use Rattle.s390x_disassembler.specs.Spelling.{letters_for, choice, letters_of, name_in};

use s390x_format::{Fields, Suffix};

// The letters for the values of a mask from 0 on. Where a text is empty, or none stands, the mask is an operand.
pub const SIZES: [&str; 5] = ["b", "h", "f", "g", "q"];

pub const HALFWORD_SIZES: [&str; 5] = ["b", "hw", "f", "g", "q"];

#[rattlefmt::skip]
pub const SIZES_AND_CODES: [&str; 13] = [
    "b", "h", "f", "g", "q", "", "", "", "bs", "hs", "fs", "gs", "qs",
];

#[rattlefmt::skip]
pub const CONDITIONS: [&str; 16] = [
    "", "o", "h", "nle", "l", "nhe", "lh", "ne", "e", "nlh", "he", "nl", "le", "nh", "no", "",
];

#[rattlefmt::skip]
pub const TRAPS: [&str; 13] = [
    "", "", "h", "", "l", "", "ne", "", "e", "", "nl", "", "nh",
];

#[rattlefmt::skip]
pub const JUMPS: [&str; 16] = [
    "nop", "o", "h", "nle", "l", "nhe", "lh", "ne", "e", "nlh", "he", "nl", "le", "nh", "no", "",
];

#[rattlefmt::skip]
pub const RETURNS: [&str; 16] = [
    "nopr", "bor", "bhr", "bnler", "blr", "bnher", "blhr", "bner", "ber", "bnlhr", "bher", "bnlr", "bler", "bnhr", "bnor", "br",
];

/// The letters from which a suffix chooses.
pub fn letter_table(suffix: Suffix) -> &'static [&'static str]
    ensures { map (λ name. name.now) result.now ≡ letters_for suffix }
{
    match suffix {
        Suffix::Plain => &[],
        Suffix::Size | Suffix::ThirdSize => &SIZES,
        Suffix::HalfwordSize => &HALFWORD_SIZES,
        Suffix::SizeAndCode => &SIZES_AND_CODES,
        Suffix::Condition => &CONDITIONS,
        Suffix::Trap => &TRAPS,
        Suffix::Jump => &JUMPS,
        Suffix::Return => &RETURNS,
    }
}

// Which of them an instruction's fields choose.
fn name_index(suffix: Suffix, fields: &Fields) -> usize
    ensures { result ≡ choice suffix fields.now }
{
    match suffix {
        Suffix::ThirdSize => usize::from(fields.masks[2]),
        Suffix::SizeAndCode => usize::from(fields.masks[0]) + 8 * usize::from(fields.masks[1]),
        Suffix::Return => usize::from(fields.regs[0]),
        _ => usize::from(fields.masks[0]),
    }
}

/// The letters that an instruction's fields choose.
#[tactic(auto, unfolding(crate::specs::Spelling::letters_of))]
pub fn letters(suffix: Suffix, fields: &Fields) -> &'static str
    ensures { result.now ≡ letters_of suffix fields.now }
{
    name_at(letter_table(suffix), name_index(suffix, fields))
}

// The name at a place of a table; an empty text past its end.
fn name_at(names: &'static [&'static str], at: usize) -> &'static str
    ensures { result.now ≡ name_in (map (λ name. name.now) names.now) at }
{
    if at < names.len() { names[at] } else { "" }
}
