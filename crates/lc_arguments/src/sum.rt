//! The command line of `lc sum`.

ghost use Rattle.clap.specs.Matches.{found_of};
ghost use Rattle.lc_arguments.specs.Explained.{AnswersIn};
ghost use Rattle.lc_arguments.specs.declared.option_row.Subcommand.TheVariants.{Sum};

use crate::changes::one_sided;
use crate::reports::{NamedReport, reports_in};
use crate::request::{ParseExit, Request};
use crate::table::{TableRequest, table_in};
use clap::ArgMatches;
use lc_sheet::Condition;
use std::alloc::Global;

/// The options of `lc sum`, as in `lc sum --by dir v1=v1.json v2=v2.json`.
#[derive(Drop)]
pub struct SumRequest<'w> {
    /// List each skipped entry, and print the number of all entries, skipped ones included.
    pub left_out: bool,
    /// Each path that `--format paths` prints ends with NUL.
    pub null: bool,
    /// How the table is printed.
    pub table: TableRequest,
    /// The names of the columns of attributes, such as `attr:team`, and of languages, `lang`: first those of `--by`, of which `lang` is the
    /// first, and then the others that conditions test.
    pub attributes: Vec<&'w str>,
    /// Show only files that meet all of these conditions.
    pub conditions: Vec<Condition<'w>>,
    /// Exit with status 4 if a file of the reports meets all of `conditions`.
    pub fail_if_any: bool,
    /// The reports, in the order of the command line. If no report was typed, standard input is the only report. At most one report is
    /// standard input.
    pub reports: Vec<NamedReport<'w>>,
}

/// Reads the options from clap's values, and refuses wrong values.
pub(crate) fn request_in<'w>(
    alloc: Global,
    matches: &ArgMatches<'w>,
) -> Result<Request<'w>, ParseExit>
    ensures { AnswersIn Sum (found_of matches.now) result }
{
    let table = table_in(alloc, matches)?;
    let chosen = one_sided(alloc, matches)?;
    let reports = reports_in(alloc, matches)?;
    Ok(Request::Sum(SumRequest {
        left_out: matches.get_flag("left-out"),
        null: matches.get_flag("null"),
        table,
        attributes: chosen.attributes,
        conditions: chosen.conditions,
        fail_if_any: matches.get_flag("fail-if-any"),
        reports,
    }))
}
