//! The exact reader of lines.
ghost use Rattle.std.specs.Prelude.{◌≡◌, ◌≢◌, IfOk, MatchOption};
ghost use Rattle.s390x_job_fields.specs.Marks.{before_mark, from_mark};
ghost use Rattle.s390x_job_lines.specs.Line.{Line, IsLine, line_text, line_of};
ghost use Rattle.s390x_job.specs.Items.{item_line, IsItem};

use crate::item::Item;
use crate::print_line::put_item;
use crate::read_line::item;
use s390x_job_fields::Cursor;
use s390x_job_fields::number::tail;
use s390x_job_fields::separators::until_separator;
use s390x_job_lines::find_name;
use std::alloc::{AllocError, Global};

/// The fields of a line, behind its name.
fn fields_of<'a>(w: &'a [u8], name: &[u8]) -> Cursor<'a>
    requires { name.now ≡ before_mark w.now }
    ensures { result ≡ from_mark w.now }
{
    Cursor::new(tail(w, name.len()))
}

fn parse(alloc: Global, w: &[u8]) -> Result<Item, AllocError>
    ensures line { IfOk result (λ i. item_line i ≡ line_of w.now) }
    ensures is { IfOk result IsItem }
{
    let name = until_separator(w);
    let mut fields = fields_of(w, name);
    item(alloc, find_name(name), &mut fields)
}

/// As `read_item`: the line is read, printed and compared.
fn printed_item(alloc: Global, text: &mut String, w: &[u8]) -> Result<Option<Item>, AllocError>
    ensures { IfOk result
        (λ o. MatchOption o ((l : Line) → IsLine l → line_text l ≢ w.now)
        (λ i. IsItem i × IsLine (item_line i) × (line_text (item_line i) ≡ w.now))) }
{
    let i = parse(alloc, w)?;
    text.clear();
    put_item(alloc, text, &i)?;
    if text.as_bytes() == w {
        Ok(Some(i))
    } else {
        Ok(None)
    }
}

/// The part of a job whose line this is, or none where it is no line of a job. The text is room for printing.
pub fn read_item(alloc: Global, text: &mut String, w: &[u8]) -> Result<Option<Item>, AllocError>
    ensures { IfOk result
        (λ o. MatchOption o ((l : Line) → IsLine l → line_text l ≢ w.now)
        (λ i. IsItem i × IsLine (item_line i) × (line_text (item_line i) ≡ w.now))) }
{
    if w == b"block".as_slice() {
        return Ok(Some(Item::Block));
    }
    printed_item(alloc, text, w)
}
