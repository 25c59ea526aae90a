//! Which number a picture draws, such as lines, and the sum of that number over all files.

use lc_sheet::Number;

/// Which number a picture draws, such as lines, and the sum of that number over all files.
#[derive(Clone, Copy)]
pub(crate) struct Scale {
    pub(crate) by: Number,
    pub(crate) whole: u128,
}
