//! The options of a walk.
ghost use Rattle.lc_walk.specs.WalkOptions.{HasNoLists};

use lc_level::{Filters, NamedAttributes};

/// Which optional lists a report has. A report always has its rows and its errors.
#[derive(Clone, Copy, Debug, Drop, PartialEq, Eq)]
pub struct ReportLists {
    /// Whether the report has a line for each counted file.
    pub files: bool,
    /// Whether the report has a line for each skipped entry. Entries below a skipped directory are neither read nor listed.
    pub left_out: bool,
}

/// The options of a walk.
///
/// ```
/// let filters = Filters::none(alloc);
/// let options = Options::new(4, 65_536, &filters);
/// ```
#[derive(Drop)]
pub struct Options<'o> {
    /// The number of threads: 1 to 16.
    pub threads: u32,
    /// The greatest number of directories to visit, the top included: 1 to 1,048,576.
    pub max_dirs: u32,
    /// Which optional lists the report has.
    pub lists: ReportLists,
    /// The filters. Together with the tree's own rules, they decide which entries are skipped.
    pub filters: &'o Filters<'o>,
    /// A list of attributes, or none. For each attribute of the list, the walk notes whether an attribute file of the tree contains the
    /// attribute's name. The notes do not change the report.
    pub named: Option<&'o NamedAttributes>,
}

impl<'o> Options<'o> {
    /// Returns the options of a walk with `threads` threads, at most `max_dirs` directories, `filters`, and no optional lists.
    pub fn new(threads: u32, max_dirs: u32, filters: &'o Filters<'o>) -> Options<'o>
        ensures { HasNoLists threads max_dirs filters.entry.now result }
    {
        Options {
            threads,
            max_dirs,
            lists: ReportLists {
                files: false,
                left_out: false,
            },
            filters,
            named: None,
        }
    }
}
