//! The pass that gives a worker access to a board of atomic words.
ghost use Rattle.std.specs.Prelude.{◌≡◌, false, true};
ghost use Rattle.std.proofs.Props.{props};
ghost use Rattle.lc_board.specs.WordPass.{AreListed, AreTaken, IsTied};

use crate::shared::Token;
use crate::words::newest::Newest;
use crate::words::view::{Slot, View};
use atomic_table::Seat;

/// A worker's pass for a board of atomic words. With it the worker reads and changes the atomic words, which store the states of the
/// directories.
#[derive(Drop)]
pub struct WordsPass<J, R> {
    pub(crate) seat: Seat<Slot<J, R>, View<J, R>>,
    pub(crate) worker: u32,
    pub(crate) holding: Option<u32>,
    pub(crate) posted: u32,
    /// The front, from which the worker searches upward for an unused number: all numbers below the front are used.
    pub(crate) front: u32,
    /// The low mark, from which claims search upward: all directories with a number below the mark are finished.
    pub(crate) low: u32,
    /// The mark of the taken numbers: each directory with a number below the mark is finished or claimed.
    pub(crate) taken: u32,
    /// The directories that the worker has most recently added to the board. The worker's next claims try these directories first.
    pub(crate) newest: Newest,
    pub(crate) full: bool,
    ghost ties: { IsTied seat.table_id.slots worker holding posted front low seat.me } by { Prim.hlevel props },
    ghost marked: { AreTaken taken seat.me.0.seen } by { Prim.hlevel props },
    ghost listed: { AreListed newest seat.me.0.seen } by { Prim.hlevel props },
    ghost all_used: { full ≡ true → front ≡ seat.table_id.slots } by { Prim.hlevel props },
}

impl<J, R> Token<J, R> for WordsPass<J, R> {
    ghost view = { λ p. record { worker = p.worker; mine = p.seat.me.0.mine; full = p.full; refused = false } };

    fn worker(&self) -> u32 {
        self.worker
    }

    fn holding(&self) -> Option<u32> {
        self.holding
    }

    fn posted(&self) -> u32 {
        self.posted
    }
}
