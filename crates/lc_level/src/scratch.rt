//! The buffers of a worker.
ghost use Rattle.std.specs.Prelude.{◌≡◌, vec_len};
ghost use Rattle.lc_io.specs.Buffers.{buffer_len};

use crate::file_attributes::SharedAttributes;
use crate::path_buffer::PathBuffer;
use lc_io::new_buffer;
use std::alloc::{AllocError, Global};

/// The buffers of a worker, which it uses again for each directory instead of allocating new ones.
#[derive(Drop)]
pub struct Scratch {
    // Of one read of a file.
    pub(crate) buffer: Vec<u8>,
    // Of a rule file.
    pub(crate) rules: Vec<u8>,
    // Of an entry.
    pub(crate) path: PathBuffer,
    // Of the files that were counted last.
    pub(crate) attributes: SharedAttributes,
    ghost sized: { vec_len buffer ≡ buffer_len },
}

impl Scratch {
    /// Makes the buffers. The buffer for reads has `BUFFER_LEN` bytes, and the others are empty.
    pub fn new(alloc: Global) -> Result<Scratch, AllocError> {
        Ok(Scratch {
            buffer: new_buffer(alloc)?,
            rules: Vec::new(alloc),
            path: PathBuffer::new(alloc),
            attributes: SharedAttributes::new(alloc),
        })
    }
}
