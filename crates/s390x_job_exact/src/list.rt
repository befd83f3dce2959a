//! Lists in brackets, taken only as they are printed.
ghost use Rattle.std.specs.Prelude.{◌≡◌, ◌++◌, [], ◌<◌, ℕ, List, IfSome, length};
ghost use Rattle.s390x_job_fields.specs.Lists.{AllItems};
ghost use Rattle.s390x_job_exact.specs.Exact.{TakesElement, TakesElements, TakesList};

use crate::cursor::ExactCursor;
use std::alloc::Global;

/// An element of a list in a line.
pub trait ExactElement: Copy {
    ghost spelling: { Self → List ℕ };

    ghost IsIn: { Self → Type 0 };

    /// Takes the element.
    fn take(cursor: &mut ExactCursor) -> Option<Self>
        ensures text { IfSome result (λ x. cursor.old ≡ spelling x ++ cursor.new) }
        ensures range { IfSome result IsIn };
}

/// Takes an element, and adds it to those before it.
#[tactic(auto, using(crate::proofs::Elements::one_more))]
fn element<T: ExactElement + Drop>(cursor: &mut ExactCursor, items: &mut Vec<T>) -> Option<()>
    ensures { IfSome result
        (λ _. TakesElement T.spelling T.IsIn items.old.items items.new.items cursor.old
        cursor.new) }
{
    let x = T::take(cursor)?;
    match items.push(x) {
        Ok(()) => Some(()),
        Err(_) => None,
    }
}

/// Takes a comma and an element behind at least one.
#[tactic(auto, using(crate::proofs::Elements::following, crate::proofs::Elements::some, crate::proofs::Elements::shorter))]
fn next_element<T: ExactElement + Drop>(cursor: &mut ExactCursor, items: &mut Vec<T>) -> Option<()>
    requires some { 0 < length items.old.items }
    requires range { AllItems T.IsIn items.old.items }
    ensures taken { IfSome result
        (λ _. TakesElements T.spelling T.IsIn items.old.items items.new.items cursor.old
        cursor.new) }
    ensures some { IfSome result (λ _. 0 < length items.new.items) }
    ensures shorter { IfSome result (λ _. length cursor.new < length cursor.old) }
{
    cursor.byte(b',')?;
    element(cursor, items)
}

fn is_comma(cursor: &ExactCursor) -> bool {
    match cursor.rest() {
        [b',', ..] => true,
        _ => false,
    }
}

/// Takes the elements behind the first one.
#[tactic(auto, using(crate::proofs::Elements::joined))]
fn more<T: ExactElement + Drop>(cursor: &mut ExactCursor, items: &mut Vec<T>) -> Option<()>
    requires some { 0 < length items.old.items }
    requires range { AllItems T.IsIn items.old.items }
    ensures { IfSome result
        (λ _. TakesElements T.spelling T.IsIn items.old.items items.new.items cursor.old
        cursor.new) }
{
    while is_comma(cursor) {
        next_element(cursor, items)?;
    }
    Some(())
}

/// Takes the elements of a list that isn't empty.
#[tactic(auto, using(crate::proofs::Elements::first, crate::proofs::Elements::joined, crate::proofs::Elements::some))]
fn elements<T: ExactElement + Drop>(cursor: &mut ExactCursor, items: &mut Vec<T>) -> Option<()>
    requires { items.old.items ≡ [] }
    ensures { IfSome result
        (λ _. TakesElements T.spelling T.IsIn [] items.new.items cursor.old cursor.new) }
{
    element(cursor, items)?;
    more(cursor, items)
}

/// Takes a list without elements.
#[tactic(auto, using(crate::proofs::Elements::nothing))]
#[inline(always)]
fn empty_list<T: ExactElement + Drop>(cursor: &mut ExactCursor, alloc: Global) -> Option<Vec<T>>
    ensures { IfSome result (λ v. TakesList T.spelling T.IsIn v.items cursor.old cursor.new) }
{
    cursor.text(b" []")?;
    Some(Vec::new(alloc))
}

/// Takes a list that isn't empty; none also where there is no memory.
#[tactic(auto, using(crate::proofs::Elements::closed))]
#[inline(never)]
fn filled_list<T: ExactElement + Drop>(cursor: &mut ExactCursor, alloc: Global) -> Option<Vec<T>>
    ensures { IfSome result (λ v. TakesList T.spelling T.IsIn v.items cursor.old cursor.new) }
{
    let mut items = Vec::new(alloc);
    cursor.text(b" [")?;
    elements(cursor, &mut items)?;
    cursor.byte(b']')?;
    Some(items)
}

/// Takes a list; none also where there is no memory.
#[inline(always)]
pub fn list<T: ExactElement + Drop>(cursor: &mut ExactCursor, alloc: Global) -> Option<Vec<T>>
    ensures { IfSome result (λ v. TakesList T.spelling T.IsIn v.items cursor.old cursor.new) }
{
    match cursor.rest() {
        [_, _, b']', ..] => empty_list(cursor, alloc),
        _ => filled_list(cursor, alloc),
    }
}
