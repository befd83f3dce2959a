//! The line of a block.
ghost use Rattle.std.specs.Prelude.{◌≡◌, ◌++◌, OnOk, string_bytes};
ghost use Rattle.s390x_listing.specs.Listings.{block_head};

use s390x_text_rows::{put, put_natural};
use std::alloc::AllocError;

/// Appends `block K` and a line feed.
pub fn put_head(out: &mut String, number: usize) -> Result<(), AllocError>
    ensures { OnOk result (string_bytes out.new ≡ string_bytes out.old ++ block_head number) }
{
    put(out, "block ")?;
    put_natural(out, number as u64)?;
    put(out, "\n")
}
