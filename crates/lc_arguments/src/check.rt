//! The command line of `lc check`.

ghost use Rattle.clap.specs.Matches.{found_of};
ghost use Rattle.clap.specs.Walk.{rows_of};
ghost use Rattle.lc_arguments.specs.Words.{IsAskedBy};
ghost use Rattle.lc_arguments.specs.declared.option_row.Subcommand.TheVariants.{Check};

use crate::request::Request;
use clap::ArgMatches;

/// The options of `lc check`, as in `lc check --explain .gitignore`.
#[derive(Drop)]
pub struct CheckRequest<'w> {
    /// Show which rule decides whether each path is ignored.
    pub explain: bool,
    /// Each path on standard input ends with NUL.
    pub null: bool,
    /// The path of the ignore file, as it was typed.
    pub file: &'w str,
}

/// Reads the options from clap's values.
pub(crate) fn request_in<'w>(matches: &ArgMatches<'w>) -> Request<'w>
    ensures { IsAskedBy Check (rows_of (found_of matches.now)) result }
{
    Request::Check(CheckRequest {
        explain: matches.get_flag("explain"),
        null: matches.get_flag("null"),
        file: matches.get_str("FILE").unwrap_or(""),
    })
}
