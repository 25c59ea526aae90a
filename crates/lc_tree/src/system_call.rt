//! Repeating system calls that a signal interrupts.
ghost use Rattle.std.specs.Prelude.{◌≢◌, Ok, IfOk, IfErr};
ghost use Rattle.std.specs.IoError.{error_kind};

use lc_io::MAX_TRIES;
use std::io;
use std::io::{Error, ErrorKind};

/// Makes a system call, and repeats it if a signal interrupts it. After `MAX_TRIES` interrupted calls the error is `TimedOut`.
pub(crate) fn uninterrupted<T, C: Fn() -> io::Result<T>>(call: C) -> io::Result<T>
    requires { C.IsAlwaysCallable call }
    ensures answered { IfOk result (λ found. C.post call (Ok found)) }
    ensures uninterrupted { IfErr result (λ e. error_kind e ≢ ErrorKind.Interrupted) }
{
    for _ in 0..MAX_TRIES {
        match call() {
            Ok(found) => return Ok(found),
            Err(error) if error.kind() == ErrorKind::Interrupted => {}
            Err(error) => return Err(error),
        }
    }
    Err(Error::from(ErrorKind::TimedOut))
}
