//! Lists of elements: printing and reading.
ghost use Rattle.std.specs.Prelude.{◌≡◌, ◌++◌, ◌∷◌, ℕ, List, OnOk, IfOk, string_bytes};
ghost use Rattle.s390x_job_fields.specs.Lists.{more_text, open_text, list_text, begins_element, elements, list_of};

use crate::number::put;
use crate::separators::before;
use std::alloc::{AllocError, Global};

/// An element of a list in a line.
pub trait Element: Copy {
    ghost spelling: { Self → List ℕ };

    ghost reading: { List ℕ → Self };

    /// Appends the element.
    fn put(self, out: &mut String) -> Result<(), AllocError>
        ensures { OnOk result (string_bytes out.new ≡ string_bytes out.old ++ spelling self) };

    /// The element after one mark, some element where none stands there.
    fn read(s: &[u8]) -> Self
        ensures { result ≡ reading s.now };
}

fn put_more<T: Element>(out: &mut String, xs: &[T]) -> Result<(), AllocError>
    ensures { OnOk result
        (string_bytes out.new ≡ string_bytes out.old ++ more_text T.spelling xs.now) }
{
    for x in xs {
        put(out, ",")?;
        x.put(out)?;
    }
    Ok(())
}

fn put_open<T: Element>(out: &mut String, xs: &[T]) -> Result<(), AllocError>
    ensures { OnOk result
        (string_bytes out.new ≡ string_bytes out.old ++ open_text T.spelling xs.now) }
{
    match xs {
        [] => put(out, "["),
        [x, rest @ ..] => {
            put(out, "[")?;
            x.put(out)?;
            put_more(out, rest)
        }
    }
}

/// Appends a list in brackets.
pub fn put_list<T: Element>(out: &mut String, xs: &[T]) -> Result<(), AllocError>
    ensures { OnOk result
        (string_bytes out.new ≡ string_bytes out.old ++ list_text T.spelling xs.now) }
{
    put_open(out, xs)?;
    put(out, "]")
}

fn begins(x: u8) -> bool
    ensures { result ≡ begins_element x }
{
    match x {
        b'[' | b',' => true,
        _ => false,
    }
}

fn push_elements<T: Element + Drop>(v: &mut Vec<T>, s: &[u8]) -> Result<(), AllocError>
    ensures { OnOk result (v.new.items ≡ v.old.items ++ elements T.reading s.now) }
{
    for (i, x) in s.iter().enumerate() {
        if begins(*x) {
            v.push(T::read(&s[i..]))?;
        }
    }
    Ok(())
}

/// The list whose opening bracket `s` begins with.
pub fn list<T: Element + Drop>(alloc: Global, s: &[u8]) -> Result<Vec<T>, AllocError>
    ensures { IfOk result (λ v. v.items ≡ list_of T.reading s.now) }
{
    let inside = before(s, b']');
    let mut v = Vec::new(alloc);
    if inside.len() == 1 {
        return Ok(v);
    }
    push_elements(&mut v, inside)?;
    Ok(v)
}
