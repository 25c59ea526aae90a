//! The pass that gives a worker access to a locked board.
ghost use Rattle.std.specs.Prelude.{◌≡◌, ◌≢◌, ◌<◌, None, vec_len, vec_capacity};
ghost use Rattle.lc_board.specs.Holding as events;
ghost use Rattle.lc_board.specs.Notes.{mine_of};

use crate::event::Event;
use crate::shared::Token;
use std::snapshot::Snapshot;

mod noting;

/// A worker's pass, which gives the worker access to a locked board and stores the worker's events. In these events each job or row is a
/// `Snapshot`, which only contracts can read.
#[derive(Drop)]
pub struct LockedPass<J, R> {
    worker: u32,
    held: Option<u32>,
    posts: u32,
    full: bool,
    refused: bool,
    notes: Vec<Event<Snapshot<J>, Snapshot<R>>>,
    ghost held_is: { held ≡ events.holding (mine_of notes.items) },
    ghost posts_is: { posts ≡ events.posted (mine_of notes.items) },
    ghost end_fits: { held ≢ None → vec_len notes < vec_capacity notes },
}

impl<J, R> Token<J, R> for LockedPass<J, R> {
    ghost view = { λ p. record { worker = p.worker; mine = mine_of p.notes.items; full = p.full; refused = p.refused } };

    fn worker(&self) -> u32 {
        self.worker
    }

    fn holding(&self) -> Option<u32> {
        self.held
    }

    fn posted(&self) -> u32 {
        self.posts
    }
}
