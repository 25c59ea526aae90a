//! The greatest values of the options that take numbers.

/// The greatest number of rows and files that `--top` can limit a table to.
pub(crate) const MAX_TOP: u32 = u32::MAX;

/// The greatest value of `--depth`, the option that cuts the directories of `--by dir` after a number of names.
pub(crate) const MAX_DEPTH: u32 = 256;

/// The greatest value of `--threads`, the option that sets the number of threads of a count.
pub const MAX_THREADS: u32 = 16;

/// The greatest value of `--max-dirs`, the option that limits the number of directories in each DIR, DIR included.
pub const MAX_DIRS: u32 = 1_048_576;
