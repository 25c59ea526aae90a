//! How a run of the program ends.

ghost use Rattle.std.specs.Prelude.{◌≡◌};
ghost use Rattle.lc_program.specs.Program.{status_of};

use crate::cause::Cause;

/// How a run of the program ends.
#[derive(Drop)]
pub enum Ending {
    /// The program carried out the request, or showed help or the version.
    Done,
    /// The program wrote the answer, but some paths could not be read.
    SomeFaults,
    /// The program wrote the answer, for which a file was counted or the sides of a comparison differ, and `--fail-if-any` makes this a
    /// failure.
    AnyFile,
    /// The program refused the arguments.
    Misused,
    /// The program stopped with an error.
    GaveUp(Cause),
}

impl Ending {
    /// Returns the exit status of the program.
    pub fn status(&self) -> u8
        ensures { result ≡ status_of self.now }
    {
        match self {
            Ending::Done => 0,
            Ending::SomeFaults => 1,
            Ending::AnyFile => 4,
            Ending::Misused => 2,
            Ending::GaveUp(_) => 3,
        }
    }
}
