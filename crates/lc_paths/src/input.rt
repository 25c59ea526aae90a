//! Reading the input of `lc check` or `lc explain`. The input is read whole, and each of its lines names a path.

ghost use Rattle.lc_paths.specs.Input.{ReadsInput};

use lc_io::{Source, WholeFault, new_buffer, read_whole};
use std::alloc::Global;

/// The greatest number of bytes of an input: 16 MiB.
pub const MAX_INPUT: usize = 16_777_216;

/// Reads an input to its end, or up to the first byte past [`MAX_INPUT`].
pub fn read_input<S: Source>(alloc: Global, input: &mut S) -> Result<Vec<u8>, WholeFault>
    ensures { ReadsInput S.may_give input.old result input.new }
{
    let Ok(mut buffer) = new_buffer(alloc) else {
        return Err(WholeFault::Memory);
    };
    let mut bytes = Vec::new(alloc);
    match read_whole(&mut buffer, &mut bytes, input, MAX_INPUT) {
        Ok(()) => Ok(bytes),
        Err(fault) => Err(fault),
    }
}
