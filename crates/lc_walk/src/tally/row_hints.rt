//! Hints that show at which index a tally has the row of a key. A hint may be wrong, so a search always checks it.
ghost use Rattle.std.specs.Prelude.{◌<◌};

use crate::tally::key::{KeyRef, eol_rank, text_rank};

/// The index of a row for each slot; a slot is a hash of a key. Keys with the same slot share an index, the one that was noted last.
#[derive(Drop)]
pub(crate) struct RowHints {
    rows: [u16; 512],
}

impl RowHints {
    pub(crate) fn empty() -> RowHints {
        RowHints { rows: [0; 512] }
    }

    pub(crate) fn row(&self, slot: usize) -> usize
        requires { slot < 512 }
    {
        self.rows[slot] as usize
    }

    pub(crate) fn note(&mut self, slot: usize, row: usize)
        requires { slot < 512 }
    {
        self.rows[slot] = (row % 65_536) as u16;
    }
}

/// Returns the slot of a key in `RowHints`. It is a hash: the parts of the key, multiplied by a constant, of which the upper bits are kept.
pub(crate) fn slot_of(key: &KeyRef<'_>) -> usize
    ensures { result < 512 }
{
    let ranks = u64::from(text_rank(key.text)) * 8 + u64::from(eol_rank(key.eol));
    let mixed = (tag(key.extension) * 64 + ranks).wrapping_mul(0x9E37_79B9_7F4A_7C15);
    (mixed >> 55) as usize
}

// Packs the length of the extension, and its first and last bytes.
fn tag(extension: Option<&[u8]>) -> u64
    ensures { result < 16_777_216 }
{
    match extension {
        Some(bytes) => match bytes {
            [first, .., last] => (bytes.len() as u64 % 256) * 65_536
                + u64::from(*first) * 256
                + u64::from(*last),
            [only] => u64::from(*only),
            [] => 1,
        },
        None => 0,
    }
}
