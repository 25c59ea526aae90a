//! The rests of directories. What is directly in a directory and has no box of its own has one box together, the last in the directory's
//! box.

ghost use Rattle.std.specs.Prelude.{◌≡◌, ◌+◌, ◌≤◌, ◌∷◌, ◌++◌, IfOk, OnOk, drop, length, reverse, take};
ghost use Rattle.lc_picture.specs.Boxes.{BoxModel};
ghost use Rattle.lc_picture.specs.Rests.{after_deeper, has_rest, holds_box, left_beside, minus, rest_of, with_rest, with_rests};

use crate::colours::SHARED_COLOUR;
use crate::drawn_box::DrawnBox;
use lc_rows::number_in;
use lc_sheet::Number;
use lc_walk::Sums;
use std::alloc::{AllocError, Global};

/// Returns sums without others, or 0 where the others are larger.
fn minus(sums: Sums, other: Sums) -> Sums
    ensures { result ≡ minus sums other }
{
    Sums {
        files: sums.files.saturating_sub(other.files),
        lines: sums.lines.saturating_sub(other.lines),
        blank: sums.blank.saturating_sub(other.blank),
        bytes: sums.bytes.saturating_sub(other.bytes),
    }
}

/// Returns `sums` without those of the boxes directly in a box of depth `depth`. `after` has the boxes that follow that box, depth first.
fn left_beside(depth: usize, sums: Sums, after: &[DrawnBox<'_>]) -> Sums
    ensures { result ≡ left_beside depth sums after.now }
{
    let mut left = sums;
    for next in after {
        if next.depth <= depth {
            return left;
        }
        if next.depth - depth == 1 {
            left = minus(left, next.sums);
        }
    }
    left
}

fn holds_box(depth: usize, after: &[DrawnBox<'_>]) -> bool
    ensures { result ≡ holds_box depth after.now }
{
    match after.split_first() {
        None => false,
        Some((next, _)) => next.depth > depth,
    }
}

/// Returns the box of the rest of a directory, which has these sums. `depth` boxes are around it.
fn rest_of<'a>(drawn: &DrawnBox<'a>, depth: usize, sums: Sums) -> DrawnBox<'a>
    requires { depth ≡ drawn.now.depth + 1 }
    ensures { result ≡ rest_of drawn.now sums }
{
    DrawnBox {
        path: drawn.path,
        own_name: &[],
        depth,
        colour: SHARED_COLOUR,
        begins_strip: false,
        sums,
        kinds: &[],
        small: drawn.small,
        is_file: false,
        is_rest: true,
    }
}

/// Returns the index at which to insert a box of this depth: in the list, it comes before the first box that is less deep, or last. `boxes`
/// has the last box of the list first.
fn place_after(boxes: &[DrawnBox<'_>], depth: usize) -> usize
    ensures within { result ≤ length boxes.now }
    ensures place { (x : BoxModel) → x.depth ≡ depth
        → reverse (after_deeper x (reverse boxes.now)) ≡ take result boxes.now ++ x ∷ drop result boxes.now }
{
    let mut place = boxes.len();
    'places: while place > 0 {
        let last = &boxes[place - 1];
        if last.depth < depth {
            return place;
        }
        place -= 1;
    }
    0
}

/// Inserts the box of the rest of a directory, if the rest has a number and another box is inside the directory's box.
fn put_rest<'a>(
    made: &mut Vec<DrawnBox<'a>>,
    by: Number,
    drawn: &DrawnBox<'a>,
    after: &[DrawnBox<'a>],
) -> Result<(), AllocError>
    ensures { OnOk result (made.new.items ≡ reverse (with_rest by drawn.now after.now (reverse made.old.items))) }
{
    let rest = left_beside(drawn.depth, drawn.sums, after);
    if !holds_box(drawn.depth, after) || number_in(by, rest) == 0 {
        return Ok(());
    }
    let depth = drawn.depth.checked_add(1).ok_or(AllocError)?;
    let place = place_after(made, depth);
    made.insert(place, rest_of(drawn, depth, rest))?;
    Ok(())
}

/// Returns boxes, which come depth first, with the rests of their directories.
pub(crate) fn with_rests<'a>(
    alloc: Global,
    by: Number,
    boxes: &[DrawnBox<'a>],
) -> Result<Vec<DrawnBox<'a>>, AllocError>
    ensures { IfOk result (λ made. made.items ≡ with_rests by boxes.now) }
{
    let mut made = Vec::new(alloc);
    let mut index = boxes.len();
    'boxes: while index > 0 {
        index -= 1;
        put_rest(&mut made, by, &boxes[index], &boxes[index + 1..])?;
        made.push(boxes[index].copy())?;
    }
    made.reverse();
    Ok(made)
}
