//! Buffers for reads.
ghost use Rattle.std.specs.Prelude.{◌≡◌, vec_len, IfOk};
ghost use Rattle.lc_io.specs.Buffers.{buffer_len};

use std::alloc::{AllocError, Global};

/// The length in bytes of a buffer for reads.
pub const BUFFER_LEN: usize = 65_536;

/// Makes a buffer of 65,536 bytes for reads.
pub fn new_buffer(alloc: Global) -> Result<Vec<u8>, AllocError>
    ensures { IfOk result (λ buffer. vec_len buffer ≡ buffer_len) }
{
    Ok(vec![in alloc; 0u8; BUFFER_LEN]?)
}
