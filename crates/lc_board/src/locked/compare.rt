//! Functions that compare the history of a locked board with the events that are stored in the workers' passes.
ghost use Rattle.std.specs.Prelude.{◌≡◌, ◌≢◌, ℕ, ◌≤◌, length, true, false, IfSome, IfNone, Some, slice_get};
ghost use Rattle.lc_board.specs.{Part.worker_of, Bare.bare, Notes.valued, ComparedPass.IsSame, Limits.workers_limit};

use crate::event::{BareEvent, Event};
use crate::locked::pass::LockedPass;
use std::snapshot::Snapshot;

fn worker_in(event: &BareEvent) -> u32
    ensures { result ≡ worker_of event.now }
{
    match event {
        Event::Post { worker, .. } => *worker,
        Event::Claim { worker, .. } => *worker,
        Event::Return { worker, .. } => *worker,
        Event::Fault { worker, .. } => *worker,
        Event::Over { worker } => *worker,
    }
}

/// Returns an event that a worker's pass has stored, without the event's job or row.
fn event_in<J, R>(note: &Event<Snapshot<J>, Snapshot<R>>) -> BareEvent
    ensures { result ≡ bare (valued note.now) }
{
    match note {
        Event::Post {
            worker,
            parent,
            number,
            ..
        } => Event::Post {
            worker: *worker,
            parent: *parent,
            number: *number,
            job: (),
        },
        Event::Claim { worker, number, .. } => Event::Claim {
            worker: *worker,
            number: *number,
            job: (),
        },
        Event::Return { worker, number, .. } => Event::Return {
            worker: *worker,
            number: *number,
            row: (),
        },
        Event::Fault { worker, number, .. } => Event::Fault {
            worker: *worker,
            number: *number,
            row: (),
        },
        Event::Over { worker } => Event::Over { worker: *worker },
    }
}

fn is_same_event(a: &BareEvent, b: &BareEvent) -> bool
    ensures yes { result ≡ true → a.now ≡ b.now }
    ensures no { result ≡ false → a.now ≢ b.now }
{
    *a == *b
}

/// Returns whether this worker's events in the board's history are the events in `notes`, which the worker's pass has stored. Jobs and rows
/// are not compared.
fn matches<J, R>(
    history: &[BareEvent],
    notes: &[Event<Snapshot<J>, Snapshot<R>>],
    worker: u32,
) -> bool
    ensures yes { result ≡ true → IsSame worker history.now notes.now }
    ensures no { result ≡ false → ¬ IsSame worker history.now notes.now }
{
    let mut rest = history;
    let mut own = notes;
    while let Some((event, before)) = rest.split_last() {
        if worker_in(event) == worker {
            let Some((note, earlier)) = own.split_last() else {
                return false;
            };
            if !is_same_event(&event_in(note), event) {
                return false;
            }
            own = earlier;
        }
        rest = before;
    }
    own.is_empty()
}

/// Returns the lowest index of a worker whose events in the board's history differ from the events in the worker's pass. Jobs and rows are
/// not compared.
pub fn first_mismatch<J, R>(history: &[BareEvent], passes: &[LockedPass<J, R>]) -> Option<u32>
    requires { length passes.now ≤ workers_limit }
    ensures some { IfSome result (λ w. (p : _) × (slice_get passes.now w ≡ Some p) × (¬ IsSame w history.now p.notes.items)) }
    ensures none { IfNone result ((w : ℕ) (p : _) → slice_get passes.now w ≡ Some p → IsSame w history.now p.notes.items) }
{
    for worker in 0..passes.len() {
        if !matches(history, passes[worker].notes(), worker as u32) {
            return Some(worker as u32);
        }
    }
    None
}
