//! Reading the cases: a line begins one, belongs to its input or to what it must write, or is a job with its texts.

use crate::case::Case;
use s390x_case_runner::LineError;
use std::alloc::{AllocError, Global};
use std::mem;

/// What a line asks, or the end of the lines.
#[derive(Drop)]
pub enum Asked {
    /// A run, or texts of errors.
    Case(Case),
    /// The texts of the job in the line itself.
    Texts,
}

/// What the next line belongs to.
#[derive(Clone, Copy)]
enum Part {
    /// No case.
    Outside,
    /// The input of a case, or it ends it.
    Input,
    /// What a case must write, or it ends it.
    Text,
}

/// A reader of lines.
#[derive(Drop)]
pub struct Reader {
    // The number of the line that it took last.
    number: u64,
    part: Part,
    // What was read of the case that isn't ended.
    case: Case,
}

impl Reader {
    /// A reader that has taken no line.
    pub fn new(alloc: Global) -> Reader {
        Reader {
            number: 0,
            part: Part::Outside,
            case: empty_case(alloc, 0),
        }
    }

    /// Takes the line of this number, and gives the case that it ends, or says that it is one. `Unreadable` where no line of this form can
    /// stand.
    pub fn take_line(
        &mut self,
        alloc: Global,
        number: u64,
        line: &str,
    ) -> Result<Option<Asked>, LineError> {
        self.number = number;
        match self.part {
            Part::Outside => self.take_outside(alloc, line),
            Part::Input => self.take_input(line),
            Part::Text => self.take_text(alloc, line),
        }
    }

    /// Gives the case that the end of the lines ends. `Unreadable` where it lacks what must be written.
    pub fn take_end(&mut self, alloc: Global) -> Result<Option<Asked>, LineError> {
        match self.part {
            Part::Outside => Ok(None),
            Part::Input => Err(LineError::Unreadable),
            Part::Text => Ok(Some(Asked::Case(self.end_case(alloc)))),
        }
    }

    // A line that isn't within a case.
    fn take_outside(&mut self, alloc: Global, line: &str) -> Result<Option<Asked>, LineError> {
        if line.starts_with("#") {
            return Ok(None);
        }
        if let Some(words) = text_behind_mark(line, ">") {
            self.begin_case(alloc, words)?;
            self.part = Part::Input;
            return Ok(None);
        }
        if let Some(name) = text_behind_mark(line, "=") {
            self.begin_case(alloc, name)?;
            self.case.is_of_errors = true;
            self.part = Part::Text;
            return Ok(None);
        }
        Ok(Some(Asked::Texts))
    }

    // Begins a case with these words.
    fn begin_case(&mut self, alloc: Global, words: &str) -> Result<(), AllocError> {
        self.case = empty_case(alloc, self.number);
        self.case.words.push_str(words)
    }

    // A line of a case's input, or the one behind it with the status.
    fn take_input(&mut self, line: &str) -> Result<Option<Asked>, LineError> {
        match text_behind_mark(line, "<") {
            Some(rest) => {
                let digits = rest.strip_suffix(" in hex");
                let status = digits.unwrap_or(rest);
                self.case.status = status.parse::<u8>().map_err(|_| LineError::Unreadable)?;
                self.case.in_hex = digits.is_some();
                self.part = Part::Text;
            }
            None => {
                self.case.input.push_str(line)?;
                self.case.input.push_str("\n")?;
            }
        }
        Ok(None)
    }

    // A line that a case must write, or one that ends the case.
    fn take_text(&mut self, alloc: Global, line: &str) -> Result<Option<Asked>, LineError> {
        if ends_text(line) {
            let ended = self.end_case(alloc);
            self.take_outside(alloc, line)?;
            return Ok(Some(Asked::Case(ended)));
        }
        self.case.text.push_str(line)?;
        self.case.text.push_str("\n")?;
        Ok(None)
    }

    // The case that was read, whose end this is.
    fn end_case(&mut self, alloc: Global) -> Case {
        self.part = Part::Outside;
        mem::replace(&mut self.case, empty_case(alloc, 0))
    }
}

// What stands behind a mark and a space, if a line begins so; behind the mark alone stands nothing.
fn text_behind_mark<'a>(line: &'a str, mark: &str) -> Option<&'a str> {
    match line.strip_prefix(mark) {
        Some("") => Some(""),
        Some(rest) => rest.strip_prefix(" "),
        None => None,
    }
}

// Whether a line ends the text of a case: it is a comment, or begins a case.
fn ends_text(line: &str) -> bool {
    let is_run = text_behind_mark(line, ">").is_some();
    is_run || line.starts_with("#") || text_behind_mark(line, "=").is_some()
}

// A case of which nothing was read.
fn empty_case(alloc: Global, line: u64) -> Case {
    Case {
        line,
        words: String::new(alloc),
        is_of_errors: false,
        input: String::new(alloc),
        status: 0,
        text: String::new(alloc),
        in_hex: false,
    }
}
