//! What is printed: the image in lower-case hex, and a line for each block and each trap.

use crate::linked::Linked;
use std::alloc::{AllocError, Global};

/// The image and its tables, each offset in bytes from the image's beginning.
pub fn text_of(alloc: Global, linked: &Linked) -> Result<String, AllocError> {
    let mut out = hex::encode(alloc, &linked.image.bytes)?;
    out.push_str("\n")?;
    for (number, offset) in linked.code.block_starts.iter().enumerate() {
        writeln!(out, "block {number} {offset}")?;
    }
    for trap in &linked.code.traps {
        let offset = trap.offset;
        let code = trap.code;
        writeln!(out, "trap {offset} {code}")?;
    }
    Ok(out)
}
