//! Readers of std as sources.
ghost use Rattle.std.specs.Prelude.{◌≢◌, IfErr};
ghost use Rattle.std.specs.Io.{ReadsAtMost};
ghost use Rattle.std.specs.Io.KnownBytes.{ReadConsumes};
ghost use Rattle.std.specs.IoError.{error_kind};
ghost use Rattle.lc_io.specs.StdReads.{StdGives};

use crate::source::{Failed, Source};
use std::io;
use std::io::{Error, ErrorKind, Read};

/// How many times one system call is tried, if a signal interrupts it each time.
pub const MAX_TRIES: u32 = 65_536;

/// A source over a reader of std, such as a file or standard input.
///
/// A `read` that a signal interrupts is tried again, up to `MAX_TRIES` times in all. Every other error of the reader is a failure. If the
/// reader's contract states which bytes remain, as for a slice, the reads return these bytes.
///
/// ```
/// let mut reader = StdSource(fs::open(rt, "notes.txt")?);
/// let count = count(rt.alloc(), &mut reader);
/// ```
#[derive(Drop)]
pub struct StdSource<R>(pub R);

impl<R: Read> Source for StdSource<R> {
    ghost may_give = { λ old room answer new. StdGives (R.remaining old.0) room answer (R.remaining new.0) };

    fn read(&mut self, buffer: &mut [u8]) -> Result<usize, Failed> {
        match read_again(&mut self.0, buffer) {
            Ok(count) => Ok(count),
            Err(_) => Err(Failed),
        }
    }
}

// A read, tried again where a signal interrupts it.
fn read_again<R: Read>(reader: &mut R, buffer: &mut [u8]) -> io::Result<usize>
    ensures bound { ReadsAtMost result buffer.new }
    ensures bytes { ReadConsumes (R.remaining reader.old) (R.remaining reader.new) result buffer.new }
    ensures uninterrupted { IfErr result (λ e. error_kind e ≢ ErrorKind.Interrupted) }
{
    for _ in 0..MAX_TRIES {
        match reader.read(buffer) {
            Ok(count) => return Ok(count),
            Err(error) if error.kind() == ErrorKind::Interrupted => {}
            Err(error) => return Err(error),
        }
    }
    Err(Error::from(ErrorKind::TimedOut))
}
