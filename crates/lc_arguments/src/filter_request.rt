//! The options that decide, together with the rule files in a directory, which entries are skipped.

ghost use Rattle.clap.specs.Matches.{found_of};
ghost use Rattle.clap.specs.Walk.{rows_of};
ghost use Rattle.lc_arguments.specs.Explained.{AnswersFilters};

use crate::repeated::{Repeated, values_in};
use crate::request::ParseExit;
use clap::ArgMatches;
use std::alloc::Global;

/// The options that decide, together with the rule files in a directory, which entries are skipped, as in
/// `--exclude '*.log' --without linguist-vendored`.
#[derive(Drop)]
pub struct FilterRequest<'w> {
    /// The path of an ignore file for the whole tree, as it was typed: relative to the directory that the program runs in.
    pub exclude_from: Option<&'w str>,
    /// The path of an attribute file for the whole tree, as it was typed: relative to the directory that the program runs in.
    pub attributes_from: Option<&'w str>,
    /// Skip entries that have the attribute `export-ignore`.
    pub archive: bool,
    /// Skip entries that have one of these attributes. `ATTR` requires that the attribute is set, and `ATTR=VALUE` that it has exactly this
    /// value.
    pub without: Vec<&'w str>,
    /// The patterns of `--exclude`. Each pattern is written like a line of a `.gitignore`, and overrides every rule file. No pattern has a
    /// line feed.
    pub exclude: Vec<&'w str>,
    /// If there are patterns, skip each file unless a pattern matches the file or a directory above the file. No pattern has a line feed or
    /// begins with `!`.
    pub include: Vec<&'w str>,
    /// Read neither a `.gitignore` nor `.git/info/exclude`.
    pub no_ignore: bool,
}

impl<'w> FilterRequest<'w> {
    /// Reads the filters from clap's values.
    pub(crate) fn read(
        alloc: Global,
        matches: &ArgMatches<'w>,
    ) -> Result<FilterRequest<'w>, ParseExit>
        ensures { AnswersFilters (rows_of (found_of matches.now)) result }
    {
        let without = match values_in(alloc, matches, Repeated::Attributes) {
            Ok(without) => without,
            Err(no) => return Err(no),
        };
        let exclude = match values_in(alloc, matches, Repeated::Excluded) {
            Ok(exclude) => exclude,
            Err(no) => return Err(no),
        };
        let include = match values_in(alloc, matches, Repeated::Included) {
            Ok(include) => include,
            Err(no) => return Err(no),
        };
        Ok(FilterRequest {
            exclude_from: matches.get_str("exclude-from"),
            attributes_from: matches.get_str("attributes-from"),
            archive: matches.get_flag("archive"),
            without,
            exclude,
            include,
            no_ignore: matches.get_flag("no-ignore"),
        })
    }
}
