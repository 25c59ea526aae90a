//! The board of atomic words: for each directory, an atomic word stores the directory's state, and a memory slot has its job and later its
//! row.
//!
//! Workers change a word only by atomic exchanges. The methods `claim`, `post`, `give` and `fault` of `Words` wait for no thread and
//! allocate nothing. A worker that claims a directory takes the job out of the directory's slot, and later puts the row in. If jobs and
//! rows are boxes, a slot takes 16 bytes.
ghost use Rattle.std.specs.Prelude.{◌≡◌, ◌≤◌};
ghost use Rattle.lc_board.specs.Limits.{capacity_limit, workers_limit};

use crate::words::rule::{BoardSetup, OneHistory};
use crate::words::view::{Slot, View};
use atomic_table::Table;
use std::alloc::Global;

mod claim;
pub(crate) mod close;
pub(crate) mod coding;
mod drawing;
pub(crate) mod newest;
pub mod pass;
mod posts;
pub mod rule;
mod shared;
mod start;
mod steps;
pub mod view;

/// A board that stores the state of each directory in one atomic word. `close` returns each row at the index of its directory's number.
#[derive(Drop)]
pub struct Words<J, R> {
    pub(crate) table: Table<Slot<J, R>, View<J, R>, BoardSetup<J>, OneHistory, Global>,
    pub(crate) capacity: u32,
    pub(crate) workers: u32,
    pub(crate) alloc: Global,
    ghost square: { (table.shared.table_id.words ≡ capacity) × (table.shared.table_id.slots ≡ capacity) },
    ghost small: { (1 ≤ capacity) × (capacity ≤ capacity_limit) × (1 ≤ workers) × (workers ≤ workers_limit) },
    ghost setup: { table.shared.key.workers ≡ workers },
}
