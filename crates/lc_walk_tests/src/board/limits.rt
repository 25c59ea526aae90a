//! A test of the limits of a board: how many directories and how many workers it can have.
use lc_board::limits::{MAX_CAPACITY, MAX_WORKERS};

#[test]
fn limits_of_a_board(rt: HostRuntime) {
    assert!(rt; (MAX_CAPACITY, MAX_WORKERS) == (1_048_576, 16));
}
