//! Functions that close a board of atomic words. They merge the passes of all workers, which give access to the board, into one pass. Then
//! they take each directory's row out of its memory slot.
ghost use Rattle.std.specs.Prelude.{◌≡◌, ℕ, ◌<◌, ◌≤◌, true, false, slice_index_or, slice_get, [], Some, IfOk, map, vec_len};
ghost use Rattle.std.specs.Mem.Slots.{slots_items, slots_filled, slots_len, IsFull, Ownership.Filled};
ghost use Rattle.lc_board.specs.{WordSteps.{IsSameTold, merged}, WordsBoard.{IsPassOf, IsSamePass, known, told}};
ghost use Rattle.lc_board.specs.WordClose.{TellsEnded, EndedBelow, HasRows, ShowsClosedHistory, TakesRows, ended_as};
ghost use Rattle.lc_board.specs.WordCode.{has_ended, shown};

use crate::answers::Ended;
use crate::words::Words;
use crate::words::coding::Word;
use crate::words::pass::WordsPass;
use crate::words::rule::{ReleaseSlot, SplitOrMerge};
use crate::words::view::{Slot, View};
use atomic_table::{Closed, Seat};
use std::alloc::{AllocError, Global};

/// Drops the contents of the slots of a closed board from the index `from` on, and frees the board.
pub(crate) fn drain<S: Drop>(mut closed: Closed<S, Global>, from: usize)
    requires within { from ≤ slots_len closed.slots }
    requires filled { Filled (slots_filled closed.slots) from (slots_len closed.slots) }
    requires gone { (k : ℕ) → k < from → slice_index_or (slots_filled closed.slots) k false ≡ false }
{
    let mut at = from;
    while at < closed.slot_count() {
        drop(closed.take(at));
        at += 1;
    }
    closed.free();
}

/// Returns how many directories the closed board has, if all of them are finished. Otherwise the error is the least number of a directory
/// that is not finished.
pub(crate) fn count_ended<S>(closed: &Closed<S, Global>, capacity: u32) -> Result<u32, u32>
    requires words { slots_len closed.now.words ≡ capacity }
    requires full { IsFull closed.now.words }
    ensures { TellsEnded capacity (slots_items closed.now.words) result }
{
    for number in 0..capacity {
        let word = Word::of(closed.word(number as usize));
        if word.is_absent() {
            return Ok(number);
        }
        if !word.has_ended() {
            return Err(number);
        }
    }
    Ok(capacity)
}

/// Returns the row as `Returned` or `Faulted`, as the word of the row's directory says. The directory must be finished.
fn ended_row<R>(word: Word, row: R) -> Ended<R>
    requires { has_ended word ≡ true }
    ensures { ended_as (shown word) row ≡ Some result }
{
    match word {
        Word::Returned => Ended::Returned(row),
        Word::Faulted => Ended::Faulted(row),
        _ => unreachable!(),
    }
}

/// Takes the rows of the directories with a number below `count` out of their slots, and drops the contents of the other slots.
pub(crate) fn take_rows<J: Drop, R: Drop>(
    alloc: Global,
    mut closed: Closed<Slot<J, R>, Global>,
    count: u32,
) -> Result<Vec<Ended<R>>, AllocError>
    requires sizes { (slots_len closed.words ≡ slots_len closed.slots) × (count ≤ slots_len closed.slots) }
    requires full { IsFull closed.words × IsFull closed.slots }
    requires ended { EndedBelow count (slots_items closed.words) }
    requires rows { HasRows count (slots_items closed.slots) }
    ensures count { IfOk result (λ rows. vec_len rows ≡ count) }
    ensures rows { IfOk result (λ rows. TakesRows count (slots_items closed.words) (slots_items closed.slots) rows.items) }
{
    let mut rows = match Vec::with_capacity(alloc, count as usize) {
        Ok(rows) => rows,
        Err(refused) => {
            drain(closed, 0);
            return Err(refused);
        }
    };
    for number in 0..count {
        let word = Word::of(closed.word(number as usize));
        match closed.take(number as usize) {
            Slot::Row(row) => rows.push_reserved(ended_row(word, row)),
            _ => unreachable!(),
        }
    }
    drain(closed, count as usize);
    Ok(rows)
}

impl<J, R> Words<J, R> {
    /// Returns the seat of a pass that is about to be merged into another pass. The seat has what the pass knows of the board. If the pass
    /// has a claim, the slot of the claimed directory goes back to the board.
    fn emptied(&self, pass: WordsPass<J, R>) -> Seat<Slot<J, R>, View<J, R>>
        requires board { IsPassOf self.now pass }
        ensures board { result.table_id ≡ self.now.table.shared.table_id }
        ensures empty { result.me.1 ≡ [] }
        ensures same { IsSameTold (known pass) result.me.0 }
    {
        let WordsPass {
            mut seat,
            holding,
            ..
        } = pass;
        let number = match holding {
            None => return seat,
            Some(number) => number,
        };
        let shared = &self.table.shared;
        shared.load::<ReleaseSlot>(&mut seat, number as usize);
        seat
    }

    /// Merges the pass `other` into this pass. The pass `other` may still have a claim.
    fn take_in(&self, pass: &mut WordsPass<J, R>, other: WordsPass<J, R>)
        requires board { IsPassOf self.now pass.old × IsPassOf self.now other }
        ensures same { IsSamePass pass.old pass.new × (pass.new.holding ≡ pass.old.holding) }
        ensures known { known pass.new ≡ merged (known pass.old) (known other) }
    {
        let front = other.front;
        let seat = self.emptied(other);
        self.table
            .shared
            .join_seat::<SplitOrMerge>(&mut pass.seat, seat);
        if pass.front < front {
            pass.front = front;
        }
    }

    /// Merges all passes into one, closes the board with it, and returns the board's words and slots.
    pub(crate) fn gather(self, mut passes: Vec<WordsPass<J, R>>) -> Closed<Slot<J, R>, Global>
        requires all { vec_len passes ≡ self.workers }
        requires some { 0 < self.workers }
        requires each { (w : ℕ) (p : _) → slice_get passes.items w ≡ Some p → IsPassOf self p × (p.worker ≡ w) }
        ensures sizes { (slots_len result.words ≡ self.capacity) × (slots_len result.slots ≡ self.capacity) }
        ensures full { IsFull result.words × IsFull result.slots }
        ensures row { ShowsClosedHistory (Some self.table.shared.key.root.value) self.workers (map told passes.items)
            (slots_items result.words) (slots_items result.slots) }
    {
        let Some(mut pass) = passes.pop() else {
            unreachable!()
        };
        while let Some(other) = passes.pop() {
            self.take_in(&mut pass, other);
        }
        let Words { table, .. } = self;
        let WordsPass { seat, .. } = pass;
        table.close_with(seat)
    }
}
