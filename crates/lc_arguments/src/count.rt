//! The command line of `lc count`.

ghost use Rattle.clap.specs.Matches.{found_of};
ghost use Rattle.lc_arguments.specs.Explained.{AnswersIn};
ghost use Rattle.lc_arguments.specs.declared.option_row.Subcommand.TheVariants.{Count};

use crate::changes::one_sided;
use crate::directories::directories_in;
use crate::request::{ParseExit, Request};
use crate::table::{TableRequest, table_in};
use crate::walk_request::WalkRequest;
use clap::ArgMatches;
use lc_sheet::Condition;
use std::alloc::Global;

/// The options of `lc count`, as in `lc count --threads 8 --exclude-from rules src`.
#[derive(Drop)]
pub struct CountRequest<'w> {
    /// How to count the directories.
    pub walk: WalkRequest<'w>,
    /// List each skipped entry, and print the number of all entries, skipped ones included.
    pub left_out: bool,
    /// How the table is printed.
    pub table: TableRequest,
    /// The names of the columns of attributes, such as `attr:team`, and of languages, `lang`: first those of `--by`, of which `lang` is the
    /// first, and then the others that conditions test.
    pub attributes: Vec<&'w str>,
    /// Show only files that meet all of these conditions.
    pub conditions: Vec<Condition<'w>>,
    /// Exit with status 4 if a counted file meets all of `conditions`.
    pub fail_if_any: bool,
    /// The paths of the directories to count, as they were typed, in the order of the command line. No two paths are equal, even without
    /// the slashes at the ends of the paths. If no path was typed, the only path is `.`, the directory that the program runs in.
    pub directories: Vec<&'w str>,
}

/// Reads the options from clap's values, and refuses wrong values.
pub(crate) fn request_in<'w>(
    alloc: Global,
    matches: &ArgMatches<'w>,
) -> Result<Request<'w>, ParseExit>
    ensures { AnswersIn Count (found_of matches.now) result }
{
    let walk = WalkRequest::read(alloc, matches)?;
    let directories = directories_in(alloc, matches)?;
    let table = table_in(alloc, matches)?;
    let chosen = one_sided(alloc, matches)?;
    Ok(Request::Count(CountRequest {
        walk,
        left_out: matches.get_flag("left-out"),
        table,
        attributes: chosen.attributes,
        conditions: chosen.conditions,
        fail_if_any: matches.get_flag("fail-if-any"),
        directories,
    }))
}
