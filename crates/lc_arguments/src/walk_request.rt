//! The options that say how to count directories.

ghost use Rattle.clap.specs.Matches.{found_of};
ghost use Rattle.lc_arguments.specs.Explained.{AnswersWalkIn};

use crate::filter_request::FilterRequest;
use crate::paths::paths_in;
use crate::request::ParseExit;
use clap::ArgMatches;
use std::alloc::Global;

/// The options that say how to count directories, as in `--threads 8 --exclude-from rules`.
#[derive(Drop)]
pub struct WalkRequest<'w> {
    /// The number of threads: 1 to [`MAX_THREADS`](crate::MAX_THREADS), by default 4.
    pub threads: u32,
    /// The greatest number of directories in each DIR, DIR included: 1 to [`MAX_DIRS`](crate::MAX_DIRS), by default 65,536.
    pub max_dirs: u32,
    /// The options, besides those below, that decide, together with the rule files in DIR, which entries are skipped.
    pub filters: FilterRequest<'w>,
    /// The paths of `--only`, relative to DIR, without `./` at the beginning and without a slash at the end. The path `.` means all of DIR.
    /// If this list is empty and `only_from` is `None`, all of DIR is counted.
    pub only: Vec<&'w [u8]>,
    /// The path of a file with further paths to count, as it was typed. `-` is standard input.
    pub only_from: Option<&'w str>,
    /// Each path in the file of `only_from`, and each path that `--format paths` prints, ends with NUL.
    pub null: bool,
    /// Skip directories that are on another file system than DIR.
    pub one_file_system: bool,
}

impl<'w> WalkRequest<'w> {
    /// Reads the options from clap's values.
    pub(crate) fn read(
        alloc: Global,
        matches: &ArgMatches<'w>,
    ) -> Result<WalkRequest<'w>, ParseExit>
        ensures { AnswersWalkIn (found_of matches.now) result }
    {
        let filters = FilterRequest::read(alloc, matches)?;
        let only = paths_in(alloc, matches)?;
        Ok(WalkRequest {
            // Both have a default, so clap has a value for both.
            threads: matches.get_one::<u32>("threads").unwrap_or(4),
            max_dirs: matches.get_one::<u32>("max-dirs").unwrap_or(65_536),
            filters,
            only,
            only_from: matches.get_str("only-from"),
            null: matches.get_flag("null"),
            one_file_system: matches.get_flag("one-file-system"),
        })
    }
}
