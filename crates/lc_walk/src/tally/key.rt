//! The key of a row of the tally, and the order of keys.
ghost use Rattle.std.specs.Prelude.{◌≡◌, ◌<◌};
ghost use Rattle.lc_walk.specs.Key.{text_place, eol_place};

use lc_census::Eol;
use lc_rules::TextState;
use std::marker::Model;

/// The key of a tally's row, with a borrowed extension. The row has the sums over the files with this key.
#[derive(Drop)]
pub struct KeyRef<'a> {
    /// The extension of the files' names, or none.
    pub extension: Option<&'a [u8]>,
    /// The state of the attribute `text` of the files.
    pub text: TextState,
    /// How the files' lines end.
    pub eol: Eol,
}

impl<'a> Model for KeyRef<'a> {
    ghost use Rattle.std.specs.Prelude.{option_map};
    ghost use Rattle.lc_walk.specs.Key.{Key};

    ghost Value = { Key };

    ghost view = { λ a. record { extension = option_map (λ s. s.now) a.extension; text = a.text; eol = a.eol } };
}

/// Returns the place of a state of the attribute `text` in the order of keys.
pub fn text_rank(text: TextState) -> u8
    ensures value { result ≡ text_place text }
    ensures small { result < 8 }
{
    match text {
        TextState::Set => 0,
        TextState::Unset => 1,
        TextState::Auto => 2,
        TextState::Other => 3,
        TextState::Unspecified => 4,
    }
}

/// Returns the place of a class of line ends in the order of keys.
pub fn eol_rank(eol: Eol) -> u8
    ensures value { result ≡ eol_place eol }
    ensures small { result < 8 }
{
    match eol {
        Eol::NoEnd => 0,
        Eol::Lf => 1,
        Eol::CrLf => 2,
        Eol::Cr => 3,
        Eol::Mixed => 4,
        Eol::Nul => 5,
    }
}
