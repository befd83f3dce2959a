//! Reading the cases: a line begins one, belongs to its input or to what it must write, or is a case by itself.

use crate::case::{Case, Wanted};
use crate::ends::Ends;
use crate::exact::ExactLine;
use s390x_case_runner::LineError;
use s390x_tool::Status;
use std::alloc::{AllocError, Global};
use std::mem;

/// What a line asks, or the end of the lines.
#[derive(Drop)]
pub enum Asked {
    Run(Case),
    Exact(ExactLine),
}

/// What the next line belongs to.
#[derive(Clone, Copy)]
enum Part {
    /// No case, or it is one by itself.
    Outside,
    /// The input of a case, or it ends it.
    Input,
    /// What a case must write, or it ends it.
    Text,
}

/// A reader of lines.
#[derive(Drop)]
pub struct Reader {
    // The number of the line that it took last.
    number: u64,
    part: Part,
    // The first line of the jobs of rows with its line feed, or nothing.
    head: String,
    // What the next case reads from and writes to.
    ends: Ends,
    // What was read of the case that isn't ended.
    case: Case,
}

impl Reader {
    /// A reader that has taken no line.
    pub fn new(alloc: Global) -> Reader {
        Reader {
            number: 0,
            part: Part::Outside,
            head: String::new(alloc),
            ends: Ends::new(),
            case: empty_case(alloc, 0, Ends::new()),
        }
    }

    /// Takes the line of this number, and gives the case that it ends or is. `Unreadable` where no line of this form can stand.
    pub fn take_line(
        &mut self,
        alloc: Global,
        number: u64,
        line: &str,
    ) -> Result<Option<Asked>, LineError> {
        self.number = number;
        match self.part {
            Part::Outside => self.take_outside(alloc, line),
            Part::Input => self.take_input(line),
            Part::Text => self.take_text(alloc, line),
        }
    }

    /// Gives the case that the end of the lines ends. `Unreadable` where it lacks what must be written.
    pub fn take_end(&mut self, alloc: Global) -> Result<Option<Asked>, LineError> {
        match self.part {
            Part::Outside => Ok(None),
            Part::Input => Err(LineError::Unreadable),
            Part::Text => Ok(Some(Asked::Run(self.end_case(alloc)))),
        }
    }

    // A line that isn't within a case.
    fn take_outside(&mut self, alloc: Global, line: &str) -> Result<Option<Asked>, LineError> {
        if line.starts_with("#") {
            return Ok(None);
        }
        if let Some(words) = text_behind_mark(line, ">") {
            let ends = mem::replace(&mut self.ends, Ends::new());
            self.case = empty_case(alloc, self.number, ends);
            self.case.words.push_str(words)?;
            self.part = Part::Input;
            return Ok(None);
        }
        if let Some(head) = text_behind_mark(line, "*") {
            self.head = line_of(alloc, head)?;
            return Ok(None);
        }
        if let Some(ends) = text_behind_mark(line, "!") {
            self.ends = Ends::read(ends)?;
            return Ok(None);
        }
        self.take_alone(alloc, line)
    }

    // A line that is a case by itself.
    fn take_alone(&mut self, alloc: Global, line: &str) -> Result<Option<Asked>, LineError> {
        if let Some(taken) = text_behind_mark(line, "+") {
            return Ok(Some(Asked::Exact(self.exact_line_case(alloc, taken, true)?)));
        }
        if let Some(left) = text_behind_mark(line, "-") {
            return Ok(Some(Asked::Exact(self.exact_line_case(alloc, left, false)?)));
        }
        Ok(Some(Asked::Run(self.row(alloc, line)?)))
    }

    // The case of a line that the exact readers take or leave.
    fn exact_line_case(
        &self,
        alloc: Global,
        text: &str,
        is_taken: bool,
    ) -> Result<ExactLine, AllocError> {
        let text = String::from_str(alloc, text)?;
        Ok(ExactLine {
            line: self.number,
            text,
            is_taken,
        })
    }

    // A line of a case's input, or the one behind it with the status.
    fn take_input(&mut self, line: &str) -> Result<Option<Asked>, LineError> {
        if let Some(status) = text_behind_mark(line, "<") {
            return self.take_status(status);
        }
        if let Some(status) = text_behind_mark(line, "|") {
            self.case.input.pop();
            return self.take_status(status);
        }
        self.case.input.push_str(line)?;
        self.case.input.push_str("\n")?;
        Ok(None)
    }

    // The status with which a case must end.
    fn take_status(&mut self, status: &str) -> Result<Option<Asked>, LineError> {
        self.case.wanted.status = status.parse::<u8>().map_err(|_| LineError::Unreadable)?;
        self.part = Part::Text;
        Ok(None)
    }

    // A line that a case must write, or one that ends the case.
    fn take_text(&mut self, alloc: Global, line: &str) -> Result<Option<Asked>, LineError> {
        if ends_text(line) {
            let ended = self.end_case(alloc);
            self.take_outside(alloc, line)?;
            return Ok(Some(Asked::Run(ended)));
        }
        self.case.wanted.text.push_str(line)?;
        self.case.wanted.text.push_str("\n")?;
        Ok(None)
    }

    // The case that was read, whose end this is. Where a write fails, the last line that is told has no line feed.
    fn end_case(&mut self, alloc: Global) -> Case {
        self.part = Part::Outside;
        if self.case.wanted.status == Status::WriteFault.number() {
            self.case.wanted.text.pop();
        }
        mem::replace(&mut self.case, empty_case(alloc, 0, Ends::new()))
    }

    // The case of an instruction and its code, or of why it is refused.
    fn row(&self, alloc: Global, line: &str) -> Result<Case, LineError> {
        let Some((instruction, wanted)) = line.split_once(" = ") else {
            return Err(LineError::Unreadable);
        };
        let wanted = match wanted.split_once(" # ") {
            Some((text, _)) => text,
            None => wanted,
        };
        let status = if wanted.starts_with("refused ") {
            Status::Refused
        } else {
            Status::Ok
        };
        let head = self.head.as_str();
        Ok(Case {
            line: self.number,
            ends: Ends::new(),
            words: String::from_str(alloc, "image 4096")?,
            input: format!(in alloc; "{head}block\n{instruction}\nend\n")?,
            wanted: Wanted {
                status: status.number(),
                text: line_of(alloc, wanted)?,
            },
        })
    }
}

// What stands behind a mark and a space, if a line begins so; behind the mark alone stands nothing.
fn text_behind_mark<'a>(line: &'a str, mark: &str) -> Option<&'a str> {
    match line.strip_prefix(mark) {
        Some("") => Some(""),
        Some(rest) => rest.strip_prefix(" "),
        None => None,
    }
}

// Whether a line ends the text of a case: it is a comment, begins a case, or tells how jobs begin or what the next case reads from.
fn ends_text(line: &str) -> bool {
    let begins = line.starts_with("#") || text_behind_mark(line, ">").is_some();
    begins || text_behind_mark(line, "*").is_some() || text_behind_mark(line, "!").is_some()
}

// A text with its line feed, or nothing.
fn line_of(alloc: Global, text: &str) -> Result<String, AllocError> {
    if text.is_empty() {
        Ok(String::new(alloc))
    } else {
        format!(in alloc; "{text}\n")
    }
}

// A case of which nothing was read.
fn empty_case(alloc: Global, line: u64, ends: Ends) -> Case {
    Case {
        line,
        ends,
        words: String::new(alloc),
        input: String::new(alloc),
        wanted: Wanted {
            status: 0,
            text: String::new(alloc),
        },
    }
}
