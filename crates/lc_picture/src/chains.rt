//! Chains of directories: a directory in which all but too little for a box is in one directory is one box with that, such as `gpu/drm`.

ghost use Rattle.std.specs.Prelude.{◌≡◌, [], ◌∷◌, ◌++◌, IfOk, OnOk, if◌then◌else◌, None, Some};
ghost use Rattle.lc_picture.specs.Boxes.{moved};
ghost use Rattle.lc_picture.specs.Chains.{depths_after, goes_on, is_link, joined, joined_depth, joined_name, name_start};

use crate::drawn_box::DrawnBox;
use lc_rows::number_in;
use lc_sheet::Number;
use std::alloc::{AllocError, Global};

/// Returns whether the box `next` is directly in the box `drawn`, which has less than `least` besides it. The top directory is in no chain.
fn is_link(by: Number, least: u128, drawn: &DrawnBox<'_>, next: &DrawnBox<'_>) -> bool
    ensures { result ≡ is_link by least drawn.now next.now }
{
    drawn.depth >= 1
        && next.depth > drawn.depth
        && next.depth - drawn.depth == 1
        && number_in(by, drawn.sums).saturating_sub(number_in(by, next.sums)) < least
}

/// Returns whether a chain goes on from a box to the next one.
fn goes_on(by: Number, least: u128, drawn: &DrawnBox<'_>, after: &[DrawnBox<'_>]) -> bool
    ensures { result ≡ goes_on by least drawn.now after.now }
{
    match after.split_first() {
        None => false,
        Some((next, _)) => is_link(by, least, drawn, next),
    }
}

fn joined_depth(depths: &[usize], drawn: &DrawnBox<'_>) -> usize
    ensures { result ≡ joined_depth depths.now drawn.now }
{
    depths.get(drawn.depth).copied().unwrap_or(0)
}

/// Updates the depths after a box. Boxes directly in this box get its depth if the chain goes on, and otherwise one more.
fn enter(depths: &mut Vec<usize>, drawn: &DrawnBox<'_>, is_on: bool) -> Result<(), AllocError>
    ensures { OnOk result (depths.new.items ≡ depths_after depths.old.items drawn.now is_on) }
{
    let depth = joined_depth(depths, drawn);
    let inside = depth.checked_add(usize::from(!is_on)).ok_or(AllocError)?;
    let open_boxes = drawn.depth.checked_add(1).ok_or(AllocError)?;
    depths.truncate(open_boxes);
    depths.push(inside)?;
    Ok(())
}

/// Returns where in its path the name of a box begins. `start` is where that of the first box of its chain does, if boxes before are in its
/// chain.
fn name_start(start: Option<usize>, drawn: &DrawnBox<'_>) -> usize
    ensures { result ≡ name_start start drawn.now }
{
    start.unwrap_or(drawn.path.len().saturating_sub(drawn.own_name.len()))
}

fn joined_name<'a>(start: Option<usize>, drawn: &DrawnBox<'a>) -> &'a [u8]
    ensures { result.now ≡ joined_name start drawn.now }
{
    match start {
        None => drawn.own_name,
        Some(start) => &drawn.path[start.min(drawn.path.len())..],
    }
}

/// Appends a box, with its depth and its name in the picture, unless the chain goes on. Returns where the chain's name begins then.
fn push_joined<'a>(
    made: &mut Vec<DrawnBox<'a>>,
    depths: &[usize],
    start: Option<usize>,
    drawn: &DrawnBox<'a>,
    is_on: bool,
) -> Result<Option<usize>, AllocError>
    ensures start { IfOk result (λ next. next ≡ (if is_on then Some (name_start start drawn.now) else None)) }
    ensures made { OnOk result (made.new.items ≡ made.old.items
        ++ (if is_on then [] else moved (joined_depth depths.now drawn.now) (joined_name start drawn.now) drawn.now ∷ [])) }
{
    if is_on {
        return Ok(Some(name_start(start, drawn)));
    }
    made.push(drawn.moved(joined_depth(depths, drawn), joined_name(start, drawn)))?;
    Ok(None)
}

/// Returns the boxes of directories, which come depth first, with each chain as one box. This is the box of its last directory, with the
/// names of all its directories.
pub(crate) fn joined<'a>(
    alloc: Global,
    by: Number,
    least: u128,
    boxes: &[DrawnBox<'a>],
) -> Result<Vec<DrawnBox<'a>>, AllocError>
    ensures { IfOk result (λ made. made.items ≡ joined by least boxes.now) }
{
    let mut made = Vec::with_capacity(alloc, boxes.len())?;
    let mut depths = Vec::new(alloc);
    depths.push(0)?;
    let mut start = None;
    for index in 0..boxes.len() {
        let drawn = &boxes[index];
        let is_on = goes_on(by, least, drawn, &boxes[index + 1..]);
        start = push_joined(&mut made, &depths, start, drawn, is_on)?;
        enter(&mut depths, drawn, is_on)?;
    }
    Ok(made)
}
