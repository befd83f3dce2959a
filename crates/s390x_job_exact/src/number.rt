//! Numbers, taken only as they are printed.
ghost use Rattle.std.specs.Prelude.{◌≡◌, ◌++◌, ◌∷◌, ◌+◌, ◌<◌, IfSome};
ghost use Rattle.std.specs.Fmt.{decimal};

/// A number, and what follows it.
#[derive(Clone, Copy)]
pub struct Taken<'a> {
    pub number: u64,
    pub rest: &'a [u8],
}

/// Past this, a number isn't read further.
const LIMIT: u64 = 1000000000000000000;

/// A digit, and what follows it.
#[inline(always)]
fn digit(s: &[u8]) -> Option<Taken<'_>>
    ensures { IfSome result (λ d. (d.number < 10) × (s.now ≡ (48 + d.number) ∷ d.rest.now)) }
{
    match s {
        [first, rest @ ..] if b'0' <= *first && *first <= b'9' => Some(Taken {
            number: u64::from(*first - b'0'),
            rest,
        }),
        _ => None,
    }
}

/// A decimal number as it is printed, and what follows it.
#[inline(always)]
pub fn natural(s: &[u8]) -> Option<Taken<'_>>
    ensures { IfSome result (λ d. s.now ≡ decimal d.number ++ d.rest.now) }
{
    let first = digit(s)?;
    let mut number = first.number;
    let mut rest = first.rest;
    while 0 < number && number < LIMIT {
        match digit(rest) {
            None => return Some(Taken { number, rest }),
            Some(next) => {
                number = number * 10 + next.number;
                rest = next.rest;
            }
        }
    }
    Some(Taken { number, rest })
}
