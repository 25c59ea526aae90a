//! The answers to requests.

ghost use Rattle.std.specs.Prelude.{◌≡◌};
ghost use Rattle.lc_program.specs.Replies.{WritesAnswer, clean, ending_of};

use crate::cause::Cause;
use crate::ending::Ending;
use lc_io::{Sink, print};
use std::alloc::Global;
use std::marker::Model;

/// What is known of an answer that was written.
#[derive(Drop)]
pub(crate) struct Answer {
    /// Whether something could not be read or printed.
    pub(crate) has_faults: bool,
    /// Whether `--fail-if-any` makes the answer a failure: a counted file meets the conditions of `--where`, or the sides of a comparison
    /// differ.
    pub(crate) fails: bool,
    /// The lines for standard error: first those about paths that could not be read, and then those about options.
    pub(crate) told: String,
}

impl Model for Answer {
    ghost use Rattle.std.specs.Prelude.{string_bytes};
    ghost use Rattle.lc_program.specs.Replies.{AnswerModel};

    ghost Value = { AnswerModel };

    ghost view = { λ a. record { has_faults = a.has_faults; fails = a.fails; told = string_bytes a.told } };
}

impl Answer {
    /// Returns an answer without errors and without lines for standard error.
    pub(crate) fn clean(alloc: Global) -> Answer
        ensures { result ≡ clean }
    {
        Answer {
            has_faults: false,
            fails: false,
            told: String::new(alloc),
        }
    }

    /// Returns how the program ends after this answer.
    pub(crate) fn ending(&self) -> Ending
        ensures { result ≡ ending_of self.now }
    {
        if self.fails {
            Ending::AnyFile
        } else if self.has_faults {
            Ending::SomeFaults
        } else {
            Ending::Done
        }
    }
}

/// Writes the text of an answer, of which this is known.
pub(crate) fn print_answer<O: Sink>(
    text: &[u8],
    answer: Answer,
    out: &mut O,
) -> Result<Answer, Cause>
    ensures { WritesAnswer O.may_take text.now answer out.old result out.new }
{
    match print(out, text) {
        Ok(()) => Ok(answer),
        Err(_) => Err(Cause::Unwritten),
    }
}
