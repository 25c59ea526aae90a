//! The command line of `lc explain`.

ghost use Rattle.clap.specs.Matches.{found_of};
ghost use Rattle.lc_arguments.specs.Explained.{AnswersIn};
ghost use Rattle.lc_arguments.specs.declared.option_row.Subcommand.TheVariants.{Explain};

use crate::filter_request::FilterRequest;
use crate::request::{ParseExit, Request};
use clap::ArgMatches;
use std::alloc::Global;

/// The options of `lc explain`, as in `lc explain . a.log src/m.c`.
#[derive(Drop)]
pub struct ExplainRequest<'w> {
    /// The options that decide, together with the rule files in DIR, which entries are skipped.
    pub filters: FilterRequest<'w>,
    /// Each path on standard input ends with NUL.
    pub null: bool,
    /// The path of DIR, as it was typed.
    pub directory: &'w str,
    /// The paths to explain, relative to DIR. If this list is empty, the program reads the paths from standard input.
    pub paths: Vec<&'w str>,
}

/// Reads the options from clap's values, and refuses wrong values.
pub(crate) fn request_in<'w>(
    alloc: Global,
    matches: &ArgMatches<'w>,
) -> Result<Request<'w>, ParseExit>
    ensures { AnswersIn Explain (found_of matches.now) result }
{
    let filters = FilterRequest::read(alloc, matches)?;
    let Ok(paths) = matches.get_strs("PATH").unwrap_or(&[]).to_vec(alloc) else {
        return Err(ParseExit::Memory);
    };
    Ok(Request::Explain(ExplainRequest {
        filters,
        null: matches.get_flag("null"),
        directory: matches.get_str("DIR").unwrap_or(""),
        paths,
    }))
}
