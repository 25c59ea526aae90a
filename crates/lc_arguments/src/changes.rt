//! The conditions of `--where` on `change`, which says what became of a file from OLD to NEW. Only `lc diff` has them.

ghost use Rattle.std.specs.Prelude.{◌≡◌, is_some, map};
ghost use Rattle.std.specs.List.{list_any};
ghost use Rattle.clap.specs.Matches.{found_of};
ghost use Rattle.clap.specs.Walk.{rows_of};
ghost use Rattle.lc_arguments.specs.ConditionWords.{compares_sides, kinds_without};
ghost use Rattle.lc_arguments.specs.Explained.{AnswersOneSided};

use crate::condition_text::compares_sides;
use crate::conditions::Where;
use crate::request::{ParseExit, refused};
use clap::ArgMatches;
use lc_sheet::{ChangeKinds, Condition, Value};
use std::alloc::Global;

/// Returns these kinds of files without those that a condition on `change` does not allow.
pub(crate) fn kinds_without(kinds: ChangeKinds, condition: &Condition<'_>) -> ChangeKinds
    ensures { result ≡ kinds_without kinds condition.now }
{
    ChangeKinds {
        added: kinds.added && condition.holds(Value::Word("added")),
        changed: kinds.changed && condition.holds(Value::Word("changed")),
        removed: kinds.removed && condition.holds(Value::Word("removed")),
        same: kinds.same && condition.holds(Value::Word("same")),
    }
}

/// Finds the first text whose column is `change`.
fn first_compared<'w>(texts: &[&'w str]) -> Option<&'w str>
    ensures { is_some result ≡ list_any compares_sides (map (λ text. text.now) texts.now) }
{
    let mut left = texts;
    'texts: while let [text, others @ ..] = left {
        if compares_sides(text.as_bytes()) {
            return Some(text);
        }
        left = others;
    }
    None
}

/// Reads from clap's values which files one side shows. Refuses a condition on `change`.
pub(crate) fn one_sided<'w>(alloc: Global, matches: &ArgMatches<'w>) -> Result<Where<'w>, ParseExit>
    ensures { AnswersOneSided (rows_of (found_of matches.now)) result }
{
    match first_compared(matches.get_strs("where").unwrap_or(&[])) {
        None => Where::read(alloc, matches),
        Some(text) => Err(refused(
            alloc,
            "where",
            text,
            ": change compares two sides, as lc diff does; the columns are lang, ext, text, eol, attr:NAME, lines, blank and bytes",
        )),
    }
}
