//! Counting the lines and bytes of a reader, up to its end.
ghost use Rattle.std.specs.Prelude.{◌≡◌, ◌≢◌, ◌<◌, ◌≤◌, length};
ghost use Rattle.lc_census.specs.Counting.{AnswersCount};
ghost use Rattle.lc_census.specs.declared.counting.CensusFault.TheVariants.{Memory};
ghost use Rattle.lc_census.specs.Limits.{max_turns};
ghost use Rattle.lc_io.specs.Buffers.{buffer_len};

use crate::census::Census;
use crate::line_count::Count;
use lc_io::{Source, new_buffer};
use std::alloc::{AllocError, Global};

/// Why a reader's bytes were not counted. The reader has advanced past the bytes that were read.
#[derive(Clone, Copy, Debug, Drop, PartialEq, Eq)]
pub enum CensusFault {
    /// A read failed, with an error of any kind. No read was made after it.
    Read,
    /// All allowed reads were made, and none of them reached the reader's end.
    Endless,
    /// There is no memory for the buffer. No read was made.
    Memory,
}

impl From<AllocError> for CensusFault {
    ghost from_gives = { λ _ fault. fault ≡ Memory };

    fn from(_refused: AllocError) -> CensusFault {
        CensusFault::Memory
    }
}

/// The greatest number of reads that `count` makes, and the greatest limit that `count_within` and `count_source` accept: 2^32.
pub const MAX_TURNS: u64 = 4_294_967_296;

/// Counts the lines and bytes of a reader up to its end, in at most `turns` reads into the caller's buffer.
///
/// A thread that counts many files can lend one buffer for all of them. Nothing is allocated, so the error is never `Memory`.
///
/// ```
/// let mut buffer = new_buffer(alloc)?;
/// let mut reader = StdSource(fs::open(rt, "notes.txt")?);
/// let count = count_source(&mut buffer, &mut reader, MAX_TURNS);
/// ```
pub fn count_source<S: Source>(
    buffer: &mut [u8],
    reader: &mut S,
    turns: u64,
) -> Result<Count, CensusFault>
    requires some { 0 < length buffer.old }
    requires room { length buffer.old ≤ buffer_len }
    requires turns { turns ≤ max_turns }
    ensures counts { AnswersCount S.may_give (length buffer.old) turns reader.old result reader.new }
    ensures no_memory { result ≢ Err CensusFault.Memory }
{
    let mut census = Census::new();
    for _turn in 0..turns {
        match reader.read(buffer) {
            Ok(0) => return Ok(census.finish()),
            Ok(taken) => census.feed(&buffer[..taken]),
            Err(_) => return Err(CensusFault::Read),
        }
    }
    Err(CensusFault::Endless)
}

/// Counts the lines and bytes of a reader up to its end, in at most `turns` reads of up to 65,536 bytes.
///
/// The buffer is allocated before the first read.
///
/// ```
/// let mut reader = b"ab".as_slice();
/// let count = count_within(rt.alloc(), &mut reader, 1); // `Endless`: the end would be met by the second read
/// ```
pub fn count_within<S: Source>(
    alloc: Global,
    reader: &mut S,
    turns: u64,
) -> Result<Count, CensusFault>
    requires { turns ≤ max_turns }
    ensures { AnswersCount S.may_give buffer_len turns reader.old result reader.new }
{
    let mut buffer = new_buffer(alloc)?;
    count_source(&mut buffer, reader, turns)
}

/// Counts the lines and bytes of a reader up to its end, in at most 2^32 reads of up to 65,536 bytes.
///
/// ```
/// let mut reader = b"one\n\ntwo".as_slice();
/// let count = count(rt.alloc(), &mut reader); // 3 lines, 1 blank, 8 bytes, `Eol::Lf`
/// ```
pub fn count<S: Source>(alloc: Global, reader: &mut S) -> Result<Count, CensusFault>
    ensures { AnswersCount S.may_give buffer_len max_turns reader.old result reader.new }
{
    count_within(alloc, reader, MAX_TURNS)
}
