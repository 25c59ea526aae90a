//! How many directories and how many workers a board can have.

/// The maximum capacity of a board, that is, how many directories it can have.
pub const MAX_CAPACITY: u32 = 1_048_576;

/// The maximum number of workers that share a board.
pub const MAX_WORKERS: u32 = 16;
