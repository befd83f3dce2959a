//! The program's lines for causes that no input of it has: a label too far away or a buffer that refused a call before, and a bundle of 2^31 bytes.

use s390x_base::{EmitError, ExternalName};
use s390x_bundle::BundleError;
use s390x_tool::{bundle_refused, emit_error_line};
use std::alloc::{AllocError, Global};

/// The lines.
pub fn put_lines(alloc: Global, text: &mut String) -> Result<(), AllocError> {
    text.push_str(emit_error_line(EmitError::LabelOutOfRange))?;
    text.push_str(emit_error_line(EmitError::Failed))?;
    let name = ExternalName(3);
    let reply = bundle_refused(alloc, BundleError::TooLong { name });
    text.push_str(reply.text.as_str())
}
