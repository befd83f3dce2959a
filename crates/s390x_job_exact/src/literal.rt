//! Known texts, taken byte by byte: where the text is a literal, the compiler tests each byte by itself, and the length once.
ghost use Rattle.std.specs.Prelude.{◌≡◌, ◌++◌, ◌∷◌, IfSome};

/// What follows this byte.
#[inline(always)]
fn behind_byte(s: &[u8], byte: u8) -> Option<&[u8]>
    ensures { IfSome result (λ r. s.now ≡ byte ∷ r.now) }
{
    match s {
        [first, rest @ ..] if *first == byte => Some(rest),
        _ => None,
    }
}

/// What follows this text.
#[tactic(auto, using(crate::proofs::Literals::one_more))]
#[inline(always)]
pub fn behind_text<'a>(s: &'a [u8], text: &[u8]) -> Option<&'a [u8]>
    ensures { IfSome result (λ r. s.now ≡ text.now ++ r.now) }
{
    if s.len() < text.len() {
        return None;
    }
    let mut left = s;
    for x in text {
        let next = behind_byte(left, *x)?;
        left = next;
    }
    Some(left)
}
