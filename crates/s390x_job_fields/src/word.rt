//! Named values, and how they are spelled.
ghost use Rattle.std.specs.Prelude.{◌≡◌, ◌<◌, ℕ, List, length};
ghost use Rattle.s390x_job_fields.specs.Found.{rows_of, found_by_name, name_at};

/// A value that one word spells.
pub trait Word: Copy {
    ghost spelling: { Self → List ℕ };

    /// The word.
    fn text(self) -> &'static str
        ensures { result.now ≡ spelling self };
}

/// A table of values and their names.
pub type Names<T> = &'static [(T, &'static str)];

/// The first value of this name, or `other`.
pub fn find<T: Copy>(names: Names<T>, word: &[u8], other: T) -> T
    ensures { result ≡ found_by_name (rows_of names.now) word.now other }
{
    for row in names {
        if row.1.as_bytes() == word {
            return row.0;
        }
    }
    other
}

/// The name in the n-th row.
pub fn name_at<T: Copy>(names: Names<T>, n: usize) -> &'static str
    requires { n < length names.now }
    ensures { result.now ≡ name_at (rows_of names.now) n }
{
    names[n].1
}
