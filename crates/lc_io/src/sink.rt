//! The trait of writers, and writers of std.

ghost use Rattle.std.specs.Prelude.{ℕ, ◌≤◌, ◌≢◌, length, IfOk, IfErr, List, Result};
ghost use Rattle.std.specs.Io.{WritesAtMost};
ghost use Rattle.std.specs.IoError.{error_kind};
ghost use Rattle.std.specs.Io.KnownBytes.{WriteAppends};
ghost use Rattle.lc_io.specs.declared.source.Failed.{Failed};
ghost use Rattle.lc_io.specs.Writes.{AppendsAll};

use crate::source::Failed;
use crate::std_source::MAX_TRIES;
use std::io::{self, Error, ErrorKind, Write};

/// A writer of bytes.
///
/// Each type states in `may_take` what its writes may return, so that a contract can state what a call wrote.
pub trait Sink {
    /// Whether a write of these bytes may give this answer and leave the sink in this state.
    ghost may_take: { Self → List ℕ → Result ℕ Failed → Self → Type 0 };

    /// Writes some bytes from the front of `bytes`, and returns how many it wrote.
    fn write(&mut self, bytes: &[u8]) -> Result<usize, Failed>
        ensures within { IfOk result (λ n. n ≤ length bytes.now) }
        ensures taken { may_take self.old bytes.now result self.new };
}

/// A vector as a writer. One write appends all bytes, and fails only if an allocation fails.
impl Sink for Vec<u8> {
    ghost may_take = { AppendsAll };

    fn write(&mut self, bytes: &[u8]) -> Result<usize, Failed> {
        match self.extend_from_slice(bytes) {
            Ok(()) => Ok(bytes.len()),
            Err(_) => Err(Failed),
        }
    }
}

/// A sink over a writer of std, such as a file or standard output.
///
/// A `write` that a signal interrupts has written nothing, and is tried again, up to `MAX_TRIES` times in all. Every other error of the
/// writer is a failure. If the writer's contract states which bytes the writer holds, as for a vector, each write appends the written bytes
/// to these bytes.
#[derive(Drop)]
pub struct StdSink<W>(pub W);

impl<W: Write> Sink for StdSink<W> {
    ghost may_take = { λ old bytes answer new. WriteAppends (W.contents old.0) (W.contents new.0) answer bytes };

    fn write(&mut self, bytes: &[u8]) -> Result<usize, Failed> {
        match write_again(&mut self.0, bytes) {
            Ok(count) => Ok(count),
            Err(_) => Err(Failed),
        }
    }
}

/// Writes some bytes, and tries again if a signal interrupts the write, up to `MAX_TRIES` times in all.
#[tactic(auto, using(crate::proofs::KnownWrites::keeps_and_keeps, crate::proofs::KnownWrites::keeps_and_appends))]
fn write_again<W: Write>(writer: &mut W, bytes: &[u8]) -> io::Result<usize>
    ensures bound { WritesAtMost result bytes.now }
    ensures bytes { WriteAppends (W.contents writer.old) (W.contents writer.new) result bytes.now }
    ensures uninterrupted { IfErr result (λ e. error_kind e ≢ ErrorKind.Interrupted) }
{
    for _ in 0..MAX_TRIES {
        match writer.write(bytes) {
            Ok(count) => return Ok(count),
            Err(error) if error.kind() == ErrorKind::Interrupted => {}
            Err(error) => return Err(error),
        }
    }
    Err(Error::from(ErrorKind::TimedOut))
}
