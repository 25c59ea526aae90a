//! Reading all bytes of a reader, up to a limit.
ghost use Rattle.std.specs.Prelude.{◌+◌, ◌^◌, ◌<◌, length};
ghost use Rattle.lc_io.specs.Whole.{AnswersWhole};

use crate::source::Source;

/// Why a reader was not read whole.
#[derive(Clone, Copy, Debug, Drop, PartialEq, Eq)]
pub enum WholeFault {
    /// A read failed, with an error of any kind. No read was made after it.
    Read,
    /// The reader has more bytes than the limit. The bytes were read up to the first byte past the limit, and no further.
    TooLong,
    /// There is no memory for the bytes.
    Memory,
}

/// Reads all bytes of a reader into a vector. If the reader has more bytes than `limit`, stops after the first byte past the limit.
///
/// The caller lends the buffer and the vector, and may lend both again for the next reader. The vector is cleared first. After an error,
/// the vector has the bytes that were added before the error.
///
/// ```
/// let mut buffer = new_buffer(alloc)?;
/// let mut bytes = Vec::new(alloc);
/// let mut reader = b"*.o\n".as_slice();
/// let answer = read_whole(&mut buffer, &mut bytes, &mut reader, 4); // `Ok`, and a limit of 3 would be `TooLong`
/// ```
pub fn read_whole<S: Source>(
    buffer: &mut [u8],
    bytes: &mut Vec<u8>,
    reader: &mut S,
    limit: usize,
) -> Result<(), WholeFault>
    requires some { 0 < length buffer.old }
    requires countable { limit + 1 < 2 ^ 64 }
    ensures { AnswersWhole S.may_give limit reader.old result bytes.new.items reader.new }
{
    bytes.clear();
    'reads: loop {
        let room = (limit + 1 - bytes.len()).min(buffer.len());
        let Ok(count) = reader.read(&mut buffer[..room]) else {
            return Err(WholeFault::Read);
        };
        if count == 0 {
            return Ok(());
        }
        let Ok(()) = bytes.extend_from_slice(&buffer[..count]) else {
            return Err(WholeFault::Memory);
        };
        if bytes.len() > limit {
            return Err(WholeFault::TooLong);
        }
    }
}
