//! The octets of a capture before its packets.
ghost use Rattle.std.specs.Prelude.{◌≡◌, IfOk};
ghost use Rattle.capture.specs.Capture.{file_header};

use crate::blocks::put_header;
use std::alloc::{AllocError, Global};

/// The octets of a capture before its packets. The error is out of memory.
pub fn capture_start(alloc: Global) -> Result<Vec<u8>, AllocError>
    ensures { IfOk result (λ made. made.items ≡ file_header) }
{
    let mut out = Vec::new(alloc);
    put_header(alloc, &mut out)?;
    Ok(out)
}
