//! The reader of a tree's directories. Most of its methods are in other modules, such as `opening` and `counting`.
ghost use Rattle.std.specs.Prelude.{◌≡◌};

use crate::filters::Filters;
use crate::named_attributes::NamedAttributes;
use std::alloc::Global;

/// Which optional things a `LevelReader` keeps: skipped entries, texts of ignore files, notes about attributes. Options that are off cost
/// nothing.
#[derive(Clone, Copy, Drop)]
pub struct ReaderOptions<'n> {
    /// Whether to keep the skipped entries, with their reasons.
    pub left_out: bool,
    /// Whether to keep the bytes of `.git/info/exclude` and of each `.gitignore`.
    pub texts: bool,
    /// Where to note which attributes the tree's attribute files name. The notes change no result.
    pub named: Option<&'n NamedAttributes>,
}

/// Reads a tree directory by directory: it opens a directory, and counts the files in it that are not skipped.
///
/// ```
/// let filters = Filters::none(alloc);
/// let options = ReaderOptions { left_out: false, texts: false, named: None };
/// let reader = LevelReader::new(alloc, &tree, &filters, options);
/// let mut scratch = Scratch::new(alloc)?;
/// let top = Job::top(alloc, &filters)?;
/// let opened = reader.open(&top, &mut scratch)?; // `opened.children` has the directories to be visited
/// let counted = reader.count(&opened.job, opened.files, opened.absent, &mut scratch)?;
/// ```
#[derive(Drop)]
pub struct LevelReader<'t, T> {
    pub(crate) alloc: Global,
    pub(crate) tree: &'t T,
    pub(crate) filters: &'t Filters<'t>,
    pub(crate) options: ReaderOptions<'t>,
}

impl<'t, T> LevelReader<'t, T> {
    /// Makes a reader of `tree` that skips entries as `filters` say. The call reads nothing.
    pub fn new(
        alloc: Global,
        tree: &'t T,
        filters: &'t Filters<'t>,
        options: ReaderOptions<'t>,
    ) -> LevelReader<'t, T>
        ensures tree { result.tree.now ≡ tree.entry.now }
        ensures filters { result.filters.now ≡ filters.entry.now }
        ensures options { result.options ≡ options.entry }
    {
        LevelReader {
            alloc,
            tree,
            filters,
            options,
        }
    }
}
