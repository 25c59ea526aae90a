//! Laws: theorems about the definitions that the contracts cite. Each law is the contract of a function that does nothing.
ghost use Rattle.std.specs.Prelude.{◌≡◌, ◌++◌, ℕ, List, Vec};
ghost use Rattle.std.specs.Global.{Global};
ghost use Rattle.lc_io.specs.Buffers.{buffer_len};
ghost use Rattle.lc_io.specs.Pieces.{WritesInPieces};
ghost use Rattle.lc_io.specs.Reads.{GivesBytes, at_end, at_failure, AnyRoom};
ghost use Rattle.lc_io.specs.Writes.{AppendsAll, Writes};

use crate::buffer::BUFFER_LEN;
use crate::source::Source;

/// The law that the reads of a slice up to its end return the slice's bytes, in whatever pieces, and that no read of a slice fails.
pub fn a_slice_gives_its_bytes()
    ensures whole { (old new : _) (bytes : List ℕ)
        → GivesBytes ⟦<&'static [u8] as Source>⟧.may_give AnyRoom old bytes at_end new → bytes ≡ old.now }
    ensures no_failure { (old new : _) (bytes : List ℕ)
        → GivesBytes ⟦<&'static [u8] as Source>⟧.may_give AnyRoom old bytes at_failure new → ⊥ }
{}

/// The law that a text that was written to a vector is at the vector's end, whether it was written in one piece or in several.
pub fn a_vector_takes_the_text()
    ensures whole { (old new : Vec ℕ Global) (text : List ℕ) → Writes AppendsAll old text new → new.items ≡ old.items ++ text }
    ensures in_pieces { (old new : Vec ℕ Global) (text : List ℕ) → WritesInPieces AppendsAll old text new
        → new.items ≡ old.items ++ text }
{}

/// The law that the constant `BUFFER_LEN` equals `buffer_len`, the length in the definitions that the contracts cite.
pub fn the_buffer_has_this_length()
    ensures { BUFFER_LEN ≡ buffer_len }
{}
