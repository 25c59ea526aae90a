//! The places of directories and files in the picture. Of the directories and files that are directly in one directory, the one with the
//! largest number, such as lines, comes first.

ghost use Rattle.std.specs.Prelude.{◌≡◌};
ghost use Rattle.std.specs.Cmp.Lexicographic.{slice_cmp};
ghost use Rattle.lc_picture.specs.Places.{place_cmp, place_of};

use crate::drawn_box::DrawnBox;
use lc_rows::number_in;
use lc_sheet::Number;
use std::cmp::Ordering;
use std::marker::Model;

/// The place of a directory or a file among those directly in the same directory: largest number first, equal numbers by name.
#[derive(Drop)]
pub(crate) struct Place<'a> {
    number: u128,
    own_name: &'a [u8],
    is_file: bool,
}

impl<'a> Model for Place<'a> {
    ghost use Rattle.lc_picture.specs.Places.{PlaceModel};

    ghost Value = { PlaceModel };

    ghost view = { λ p. record { number = p.number; own_name = p.own_name.now; is_file = p.is_file } };
}

impl<'a> Place<'a> {
    pub(crate) fn of(by: Number, drawn: &DrawnBox<'a>) -> Place<'a>
        ensures { result ≡ place_of by drawn.now }
    {
        Place {
            number: number_in(by, drawn.sums),
            own_name: drawn.own_name,
            is_file: drawn.is_file,
        }
    }

    pub(crate) fn copy(&self) -> Place<'a>
        ensures { result ≡ self.now }
    {
        Place {
            number: self.number,
            own_name: self.own_name,
            is_file: self.is_file,
        }
    }

    fn compare(&self, other: &Place<'_>) -> Ordering
        ensures { result ≡ place_cmp self.now other.now }
    {
        other
            .number
            .cmp(&self.number)
            .then(self.own_name.cmp(&other.own_name))
            .then(self.is_file.cmp(&other.is_file))
    }
}

/// Compares the places of two boxes. Each argument has the places of a box and of the directories above it, from the top down.
pub(crate) fn compare_branches(a: &[Place<'_>], b: &[Place<'_>]) -> Ordering
    ensures { result ≡ slice_cmp place_cmp a.now b.now }
{
    let shared = a.len().min(b.len());
    for level in 0..shared {
        let order = a[level].compare(&b[level]);
        if order.is_ne() {
            return order;
        }
    }
    if shared < a.len() {
        Ordering::Greater
    } else if shared < b.len() {
        Ordering::Less
    } else {
        Ordering::Equal
    }
}
