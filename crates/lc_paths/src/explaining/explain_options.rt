//! The options of an explanation.

use crate::style::PathStyle;
use lc_level::Filters;

/// The options of an explanation.
///
/// ```
/// let filters = Filters::none(alloc);
/// let options = ExplainOptions { filters: &filters, style: PathStyle::Escaped };
/// ```
#[derive(Drop)]
pub struct ExplainOptions<'o> {
    /// The options, such as `--exclude`, that besides the tree's own rules determine which entries a walk skips. The paths of `--only` have
    /// no effect here: a path outside of the paths of `--only` is explained like a path inside.
    pub filters: &'o Filters<'o>,
    /// How paths and patterns are printed.
    pub style: PathStyle,
}
