//! The atomic words of a board store the states of its directories. This module has the invariant of the words, and the steps in which
//! workers read and change a word. The definition of each step states what the worker knows of the board after the step. Each step adds
//! its word's number to the steps in the worker's `View`.
ghost use Rattle.std.specs.Prelude.{Some};
ghost use Rattle.lc_board.specs.WordHistory.{ShowsHistory};
ghost use Rattle.lc_board.specs.WordSteps.{looked, front_moved, drew, opened, claimed, ended, slot_released};
ghost use Rattle.lc_board.specs.WordSteps.{view_before_split, kept_by_split, given_by_split, merged, spent};

use crate::words::view::{Slot, View};
use atomic_table::{Join, Play, Split, TableRule};
use std::snapshot::Snapshot;

/// What a board of atomic words was started with: the job of the root directory, and the number of workers.
#[derive(Drop)]
pub struct BoardSetup<J> {
    pub root: Snapshot<J>,
    pub workers: u32,
}

/// The invariant of a board of atomic words: some legal history of the workers' events leads to the states that the words store.
pub struct OneHistory;

impl<J, R> TableRule<Slot<J, R>, View<J, R>, BoardSetup<J>> for OneHistory {
    ghost holds = { λ key. ShowsHistory (Some key.root.value) key.workers };

    ghost first = { λ key. view_before_split (Some key.root.value) key.workers };
}

pub struct Look;

impl<J, R> Play<Slot<J, R>, View<J, R>> for Look {
    ghost then = { looked };
}

/// A step of a worker's search for an unused number. The worker reads the word of the number at its front, below which all numbers are
/// used. If the number at the front is also used, the front moves past this number.
pub struct MoveFront;

impl<J, R> Play<Slot<J, R>, View<J, R>> for MoveFront {
    ghost then = { front_moved };
}

pub struct Draw;

impl<J, R> Play<Slot<J, R>, View<J, R>> for Draw {
    ghost then = { drew };
}

pub struct Open;

impl<J, R> Play<Slot<J, R>, View<J, R>> for Open {
    ghost then = { λ s m r n. opened s m r n };
}

pub struct Take;

impl<J, R> Play<Slot<J, R>, View<J, R>> for Take {
    ghost then = { claimed };
}

pub struct End;

impl<J, R> Play<Slot<J, R>, View<J, R>> for End {
    ghost then = { λ s m r n. ended s m r n };
}

/// The step that returns a claimed directory's memory slot from the worker's pass to the board, before the board is closed. The directory
/// stays claimed.
pub struct ReleaseSlot;

impl<J, R> Play<Slot<J, R>, View<J, R>> for ReleaseSlot {
    ghost then = { λ s m r n. slot_released s m r n };
}

/// The two steps that change the number of passes, which give workers access to a board. One step splits a pass into two passes, and the
/// other merges two passes into one.
pub struct SplitOrMerge;

impl<J, R> Split<View<J, R>> for SplitOrMerge {
    ghost left = { kept_by_split };

    ghost right = { given_by_split };
}

impl<J, R> Join<View<J, R>> for SplitOrMerge {
    ghost both = { merged };

    ghost spent = { spent };
}
