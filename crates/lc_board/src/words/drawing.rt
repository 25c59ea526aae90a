//! The three steps in which a worker adds a directory to a board of atomic words. The worker reserves (draws) a number, puts the
//! directory's job into the number's memory slot, and then lets workers claim the directory.
ghost use Rattle.std.specs.Prelude.{◌≡◌, ◌<◌, ◌∷◌};
ghost use Rattle.atomic_table.specs.Table.{rest};
ghost use Rattle.lc_board.specs.{WordSteps.{MayDraw, TriesDraw, MayOpen, OpensDrawn}, declared.words.view.Slot.TheVariants.Empty};

use crate::words::Words;
use crate::words::coding::{ABSENT, OPEN, Word, drawn_by};
use crate::words::rule::{Draw, Open};
use crate::words::view::{Slot, View};
use atomic_table::Seat;

impl<J, R> Words<J, R> {
    /// Reserves (draws) this number for a directory that the worker is about to add. Returns false if the number is already used or
    /// reserved.
    pub(crate) fn draw(
        &self,
        seat: &mut Seat<Slot<J, R>, View<J, R>>,
        number: u32,
        worker: u32,
    ) -> bool
        requires board { seat.old.table_id ≡ self.now.table.shared.table_id }
        requires near { number < self.now.capacity }
        requires may { MayDraw number worker seat.old.me.0 }
        ensures board { seat.new.table_id ≡ seat.old.table_id }
        ensures rule { TriesDraw self.now.capacity number result seat.old.me seat.new.me }
    {
        let new = drawn_by(worker);
        let shared = &self.table.shared;
        let old = shared.compare_exchange::<Draw>(seat, number as usize, ABSENT, new);
        Word::of(old).is_absent()
    }

    /// Puts this content into the memory slot of this number. The slot must be empty, and the pass with this seat must hold the slot.
    pub(crate) fn fill(
        &self,
        seat: &mut Seat<Slot<J, R>, View<J, R>>,
        number: u32,
        content: Slot<J, R>,
    )
        requires board { seat.old.table_id ≡ self.now.table.shared.table_id }
        requires held { seat.old.me.1 ≡ (number, Empty) ∷ rest seat.old.me.1 }
        ensures board { seat.new.table_id ≡ seat.old.table_id }
        ensures filled { seat.new.me ≡ (seat.old.me.0, (number, content) ∷ rest seat.old.me.1) }
    {
        match self.table.shared.exchange(seat, number as usize, content) {
            Slot::Empty => {}
            _ => unreachable!(),
        }
    }

    /// Opens the directory with this number, that is, lets workers claim it. The worker must have reserved the number, and the number's
    /// slot must have the directory's job.
    pub(crate) fn open_drawn(&self, seat: &mut Seat<Slot<J, R>, View<J, R>>, number: u32)
        requires board { seat.old.table_id ≡ self.now.table.shared.table_id }
        requires near { number < self.now.capacity }
        requires may { MayOpen number seat.old.me }
        ensures board { seat.new.table_id ≡ seat.old.table_id }
        ensures rule { OpensDrawn self.now.capacity number seat.old.me seat.new.me }
    {
        self.table.shared.swap::<Open>(seat, number as usize, OPEN);
    }
}
