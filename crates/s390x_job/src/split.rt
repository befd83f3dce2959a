//! Cutting off the first line of a text.
ghost use Rattle.std.specs.Prelude.{◌≡◌};
ghost use Rattle.s390x_job_fields.specs.Marks.{upto};

use memchr::memchr;

/// The bytes before the first `c`, many of them compared at a time.
pub fn before(s: &[u8], c: u8) -> &[u8]
    ensures { result.now ≡ upto c s.now }
{
    match memchr(c, s) {
        Some(at) => &s[..at],
        None => s,
    }
}
