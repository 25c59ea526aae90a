//! Help, the version, and the lines on standard error.

ghost use Rattle.std.specs.Prelude.{◌≡◌};
ghost use Rattle.lc_program.specs.Tellings.{Tells};
ghost use Rattle.lc_program.specs.Program.{TellsCause, EndsShown};
ghost use Rattle.lc_program.specs.declared.ending.Ending.TheVariants as ending;

use crate::cause::Cause;
use crate::ending::Ending;
use lc_io::{Sink, print};
use std::alloc::{AllocError, Global};

/// Writes a text to standard error.
pub(crate) fn tell<E: Sink>(text: &str, err: &mut E)
    ensures { Tells E.may_take err.old text.now err.new }
{
    // Nothing depends on the text, so a text that can't be written changes nothing.
    let _ = print(err, text.as_bytes());
}

/// Writes why the arguments are refused, and returns the ending for refused arguments.
pub fn misuse<E: Sink>(why: &str, err: &mut E) -> Ending
    ensures ending { result ≡ ending.Misused }
    ensures told { Tells E.may_take err.old why.now err.new }
{
    tell(why, err);
    Ending::Misused
}

/// Writes the line that says why the program stops with an error, and returns the ending with this cause.
pub fn give_up<E: Sink>(alloc: Global, cause: Cause, err: &mut E) -> Ending
    ensures ending { result ≡ ending.GaveUp cause }
    ensures told { TellsCause E.may_take err.old cause err.new }
{
    let _ = match cause.line(alloc) {
        Ok(line) => print(err, line.as_str().as_bytes()),
        Err(AllocError) => print(err, b"lc: out of memory\n"),
    };
    Ending::GaveUp(cause)
}

/// Writes help or the version, and returns how the program ends.
pub(crate) fn show<O: Sink, E: Sink>(alloc: Global, text: &str, out: &mut O, err: &mut E) -> Ending
    ensures { EndsShown O.may_take E.may_take text.now out.old err.old result out.new err.new }
{
    match print(out, text.as_bytes()) {
        Ok(()) => Ending::Done,
        Err(_) => give_up(alloc, Cause::Unwritten, err),
    }
}
