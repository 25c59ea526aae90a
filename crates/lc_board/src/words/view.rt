//! What the memory slots of a board of atomic words contain, and what a worker has seen and done on the board.
use crate::event::Event;
use std::collections::LinkedList;
use std::mem::size_of;

/// What the memory slot of a directory's number contains: the directory's job, its row, or nothing.
#[derive(Drop)]
pub enum Slot<J, R> {
    Empty,
    Job(J),
    Row(R),
}

// what a number takes besides its word, if jobs and rows are boxes
const _: () = prove!(size_of::<Slot<Box<[u64; 100]>, Box<[u64; 50]>>>() == 16);

/// What a worker has seen and done on its board, as the worker's pass (its access to the board) records it. In each list of events the
/// newest event is first. The struct exists only in contracts.
pub struct View<J, R> {
    /// False if this pass was merged into another pass, and true otherwise.
    pub live: bool,
    pub root: Option<J>,
    /// How many workers share the board.
    pub workers: u32,
    pub worker: u32,
    /// The history of the board, that is, the events of all workers, as far as this pass has seen it.
    pub seen: LinkedList<Event<J, R>>,
    /// The events of the pass's own worker.
    pub mine: LinkedList<Event<J, R>>,
    /// The number that the worker has reserved (drawn) for a directory that is not yet on the board, plus 1. If there is no such number, 0.
    pub drawn: u64,
    /// The low mark: all directories with a number below the mark are finished.
    pub low: u64,
    /// The front, from which the worker searches upward for an unused number: all numbers below the front are used.
    pub front: u64,
    /// In the pass of worker 0, from which all other passes are made: how many passes have been made. In the other passes: 0.
    pub made: u64,
    /// The workers whose passes were merged into this pass, with the events of each worker.
    pub joined: LinkedList<(u32, LinkedList<Event<J, R>>)>,
    /// For each step of the worker, the number whose word the step read or changed. The newest step is first.
    pub steps: LinkedList<u32>,
}
