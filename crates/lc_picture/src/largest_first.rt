//! The boxes in the order of the page, which is depth first. Of the boxes directly inside one box, the largest comes first.

ghost use Rattle.std.specs.Prelude.{◌≡◌, [], ◌∷◌, ◌++◌, IfOk, OnOk, map};
ghost use Rattle.std.specs.Cmp.Lexicographic.{slice_cmp};
ghost use Rattle.std.specs.List.Sorted.{IsPermutation, IsSortedByKey};
ghost use Rattle.lc_picture.specs.Places.{AreLargestFirst, PlacedModel, branch_of, place_cmp, placed_from};

use crate::drawn_box::DrawnBox;
use crate::places::{Place, compare_branches};
use lc_sheet::Number;
use std::alloc::{AllocError, Global};
use std::marker::Model;

/// A box, with its place and the places of the directories above it. The page has the boxes in the order of these places.
#[derive(Drop)]
struct PlacedBox<'a> {
    branch: Vec<Place<'a>>,
    drawn: DrawnBox<'a>,
}

impl<'a> Model for PlacedBox<'a> {
    ghost use Rattle.lc_picture.specs.Places.{PlacedModel};

    ghost Value = { PlacedModel };

    ghost view = { λ p. record { branch = p.branch.items; drawn = p.drawn } };
}

fn push_placed<'a>(
    alloc: Global,
    placed: &mut Vec<PlacedBox<'a>>,
    branch: &[Place<'a>],
    drawn: &DrawnBox<'a>,
) -> Result<(), AllocError>
    ensures { OnOk result (placed.new.items ≡ placed.old.items ++ record { branch = branch.now; drawn = drawn.now } ∷ []) }
{
    let mut places = Vec::with_capacity(alloc, branch.len())?;
    for place in branch {
        places.push(place.copy())?;
    }
    placed.push(PlacedBox {
        branch: places,
        drawn: drawn.copy(),
    })?;
    Ok(())
}

fn placed_boxes<'a>(
    alloc: Global,
    by: Number,
    boxes: &[DrawnBox<'a>],
) -> Result<Vec<PlacedBox<'a>>, AllocError>
    ensures { IfOk result (λ placed. placed.items ≡ placed_from by [] boxes.now) }
{
    let mut placed = Vec::new(alloc);
    let mut branch = Vec::new(alloc);
    for drawn in boxes {
        branch.truncate(drawn.depth);
        branch.push(Place::of(by, drawn))?;
        push_placed(alloc, &mut placed, &branch, drawn)?;
    }
    Ok(placed)
}

fn sort(placed: &mut Vec<PlacedBox<'_>>)
    ensures same { IsPermutation placed.old.items placed.new.items }
    ensures order { IsSortedByKey (λ (p : PlacedModel). p.branch) (slice_cmp place_cmp) placed.new.items }
{
    placed.sort_unstable_by(|a, b| compare_branches(&a.branch, &b.branch));
}

fn boxes_of<'a>(alloc: Global, placed: &[PlacedBox<'a>]) -> Result<Vec<DrawnBox<'a>>, AllocError>
    ensures { IfOk result (λ boxes. boxes.items ≡ map (λ (p : PlacedModel). p.drawn) placed.now) }
{
    let mut boxes = Vec::with_capacity(alloc, placed.len())?;
    for one in placed {
        boxes.push(one.drawn.copy())?;
    }
    Ok(boxes)
}

/// Returns boxes in the order of the page, which is depth first. Of the boxes directly inside one box, the largest comes first. The boxes
/// in `boxes` must come depth first.
pub(crate) fn largest_first<'a>(
    alloc: Global,
    by: Number,
    boxes: &[DrawnBox<'a>],
) -> Result<Vec<DrawnBox<'a>>, AllocError>
    ensures { IfOk result (λ sorted. AreLargestFirst by boxes.now sorted.items) }
{
    let mut placed = placed_boxes(alloc, by, boxes)?;
    sort(&mut placed);
    let boxes = boxes_of(alloc, &placed)?;
    Ok(boxes)
}
