//! The lines of a plan: printing and reading.
ghost use Rattle.std.specs.Prelude.{◌≡◌, ◌++◌, IfOk, OnOk, drop, string_bytes};
ghost use Rattle.s390x_job_fields.specs.Atoms.{reg_of, reg_text};
ghost use Rattle.s390x_job_fields.specs.Lists.{begins_element, elements, list_of, list_text, more_text, open_text};
ghost use Rattle.s390x_job_fields.specs.Marks.{after_word, word};
ghost use Rattle.s390x_job_plan.specs.Errors.{IsRead, line_value};
ghost use Rattle.s390x_job_plan.specs.Lines.{Stepping, line_of, line_text, place_of, place_text, step_register_of};

use s390x_alloc::{Edit, EntryPair, Place};
use s390x_base::Reg;
use s390x_job_fields::atoms::{put_real, put_reg, real, reg};
use s390x_job_fields::number::{first_byte, natural16, put, put_char, put_natural, tail};
use s390x_job_fields::separators::{after_word, before, word};
use std::alloc::{AllocError, Global};

/// What a line of a plan says.
#[derive(Drop)]
pub enum Line {
    /// The plan begins.
    Plan,
    /// A block begins.
    Block,
    /// A pair with which the block begins.
    Entry(EntryPair),
    /// A move, or an instruction with its registers.
    Edit(Edit),
    /// The text ends.
    Close,
}

fn put_place(out: &mut String, place: Place) -> Result<(), AllocError>
    ensures { OnOk result (string_bytes out.new ≡ string_bytes out.old ++ place_text place) }
{
    match place {
        Place::Reg(register) => put_real(out, register),
        Place::Slot(slot) => {
            put_char(out, 's')?;
            put_natural(out, u64::from(slot))
        }
    }
}

fn put_more(out: &mut String, regs: &[Reg]) -> Result<(), AllocError>
    ensures { OnOk result
        (string_bytes out.new ≡ string_bytes out.old ++ more_text reg_text regs.now) }
{
    for r in regs {
        put(out, ",")?;
        put_reg(out, *r)?;
    }
    Ok(())
}

fn put_open(out: &mut String, regs: &[Reg]) -> Result<(), AllocError>
    ensures { OnOk result
        (string_bytes out.new ≡ string_bytes out.old ++ open_text reg_text regs.now) }
{
    match regs {
        [] => put(out, "["),
        [r, rest @ ..] => {
            put(out, "[")?;
            put_reg(out, *r)?;
            put_more(out, rest)
        }
    }
}

fn put_registers(out: &mut String, regs: &[Reg]) -> Result<(), AllocError>
    ensures { OnOk result
        (string_bytes out.new ≡ string_bytes out.old ++ list_text reg_text regs.now) }
{
    put_open(out, regs)?;
    put(out, "]")
}

fn put_pair(out: &mut String, pair: EntryPair) -> Result<(), AllocError>
    ensures { OnOk result
        (string_bytes out.new ≡ string_bytes out.old ++ line_text (line_value (Line.Entry pair))) }
{
    put(out, "entry ")?;
    put_place(out, pair.place)?;
    put_char(out, '=')?;
    put_reg(out, pair.vreg)
}

fn put_move(out: &mut String, to: Place, from: Place) -> Result<(), AllocError>
    ensures { OnOk result
        (string_bytes out.new
        ≡ string_bytes out.old ++ line_text (line_value (Line.Edit (Edit.Move to from)))) }
{
    put(out, "move ")?;
    put_place(out, to)?;
    put_char(out, ' ')?;
    put_place(out, from)
}

fn put_step(out: &mut String, regs: &[Reg]) -> Result<(), AllocError>
    ensures { OnOk result
        (string_bytes out.new ≡ string_bytes out.old ++ line_text (Stepping regs.now)) }
{
    put(out, "step ")?;
    put_registers(out, regs)
}

/// Appends a line of a plan, without the line feed.
pub fn put_line(out: &mut String, line: &Line) -> Result<(), AllocError>
    ensures { OnOk result
        (string_bytes out.new ≡ string_bytes out.old ++ line_text (line_value line.now)) }
{
    match line {
        Line::Plan => put(out, "plan"),
        Line::Block => put(out, "block"),
        Line::Entry(pair) => put_pair(out, *pair),
        Line::Edit(Edit::Move { to, from }) => put_move(out, *to, *from),
        Line::Edit(Edit::Step { regs }) => put_step(out, regs),
        Line::Close => put(out, "close"),
    }
}

/// The place of a word, some place for any other word.
fn place(w: &[u8]) -> Place
    ensures { result ≡ place_of w.now }
{
    if first_byte(w) == b's' {
        Place::Slot(u32::from(natural16(tail(w, 1))))
    } else {
        Place::Reg(real(w))
    }
}

fn begins(x: u8) -> bool
    ensures { result ≡ begins_element x }
{
    match x {
        b'[' | b',' => true,
        _ => false,
    }
}

fn push_registers(regs: &mut Vec<Reg>, s: &[u8]) -> Result<(), AllocError>
    ensures { OnOk result (regs.new.items ≡ regs.old.items ++ elements step_register_of s.now) }
{
    for (i, x) in s.iter().enumerate() {
        if begins(*x) {
            regs.push(reg(word(&s[i..])))?;
        }
    }
    Ok(())
}

/// The registers of the list whose opening bracket `s` begins with.
fn registers(alloc: Global, s: &[u8]) -> Result<Vec<Reg>, AllocError>
    ensures { IfOk result (λ v. v.items ≡ list_of step_register_of s.now) }
{
    let inside = before(s, b']');
    let mut regs = Vec::new(alloc);
    if inside.len() == 1 {
        return Ok(regs);
    }
    push_registers(&mut regs, inside)?;
    Ok(regs)
}

fn pair(w: &[u8]) -> EntryPair
    ensures { result
        ≡ record {
          place = place_of (word (drop 5 w.now));
          vreg = reg_of (word (after_word (drop 5 w.now)));
        } }
{
    let fields = tail(w, 5);
    EntryPair {
        place: place(word(fields)),
        vreg: reg(word(after_word(fields))),
    }
}

fn movement(w: &[u8]) -> Edit
    ensures { result
        ≡ Edit.Move (place_of (word (drop 4 w.now))) (place_of (word (after_word (drop 4 w.now)))) }
{
    let fields = tail(w, 4);
    Edit::Move {
        to: place(word(fields)),
        from: place(word(after_word(fields))),
    }
}

// What a line says, by its first letter; some line for any other text.
fn parse(alloc: Global, w: &[u8]) -> Result<Line, AllocError>
    ensures { IfOk result (λ l. line_value l ≡ line_of w.now) }
{
    match first_byte(w) {
        b'p' => Ok(Line::Plan),
        b'b' => Ok(Line::Block),
        b'e' => Ok(Line::Entry(pair(w))),
        b'm' => Ok(Line::Edit(movement(w))),
        b's' => Ok(Line::Edit(Edit::Step {
            regs: registers(alloc, tail(w, 5))?,
        })),
        _ => Ok(Line::Close),
    }
}

/// The line of a plan that this is, or none where it is no line of a plan. The text is room for printing.
pub fn read_line(alloc: Global, text: &mut String, w: &[u8]) -> Result<Option<Line>, AllocError>
    ensures { IfOk result (IsRead w.now) }
{
    let line = parse(alloc, w)?;
    text.clear();
    put_line(text, &line)?;
    if text.as_bytes() == w {
        Ok(Some(line))
    } else {
        Ok(None)
    }
}
