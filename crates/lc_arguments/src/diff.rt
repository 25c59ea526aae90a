//! The command line of `lc diff`.

ghost use Rattle.clap.specs.Matches.{found_of};
ghost use Rattle.lc_arguments.specs.Explained.{AnswersIn};
ghost use Rattle.lc_arguments.specs.declared.option_row.Subcommand.TheVariants.{Diff};

use crate::conditions::Where;
use crate::request::{ParseExit, Request};
use crate::table::{TableRequest, table_in};
use crate::walk_request::WalkRequest;
use clap::ArgMatches;
use lc_sheet::{ChangeKinds, Condition};
use std::alloc::Global;

/// The options of `lc diff`, as in `lc diff --files v1.json src`.
#[derive(Drop)]
pub struct DiffRequest<'w> {
    /// How to count OLD and NEW, if they are directories.
    pub walk: WalkRequest<'w>,
    /// How the table is printed: without the rows' shares of the total, and neither as a picture nor as paths.
    pub table: TableRequest,
    /// The names of the columns of attributes, such as `attr:team`, and of languages, `lang`: first those of `--by`, of which `lang` is the
    /// first, and then the others that conditions test.
    pub attributes: Vec<&'w str>,
    /// Compare only files that meet all of these conditions. No condition is on `change`.
    pub conditions: Vec<Condition<'w>>,
    /// The kinds of files that all conditions on `change` allow: [`ChangeKinds::ALL`] if there is no such condition.
    pub changes: ChangeKinds,
    /// Exit with status 4 if OLD and NEW differ in a row of the table or, with `--files`, in a file.
    pub fail_if_any: bool,
    /// Also print rows in which nothing changed.
    pub all: bool,
    /// The path of the old directory or report, as it was typed. `-` is standard input.
    pub old: &'w str,
    /// The path of the new directory or report, as it was typed. `-` is standard input.
    pub new: &'w str,
}

/// Reads the options from clap's values, and refuses wrong values.
pub(crate) fn request_in<'w>(
    alloc: Global,
    matches: &ArgMatches<'w>,
) -> Result<Request<'w>, ParseExit>
    ensures { AnswersIn Diff (found_of matches.now) result }
{
    let walk = WalkRequest::read(alloc, matches)?;
    let table = table_in(alloc, matches)?;
    let chosen = Where::read(alloc, matches)?;
    Ok(Request::Diff(DiffRequest {
        walk,
        table: TableRequest {
            share: false,
            ..table
        },
        attributes: chosen.attributes,
        conditions: chosen.conditions,
        changes: chosen.changes,
        fail_if_any: matches.get_flag("fail-if-any"),
        all: matches.get_flag("all"),
        old: matches.get_str("OLD").unwrap_or(""),
        new: matches.get_str("NEW").unwrap_or(""),
    }))
}
