//! The colours of boxes. That of a directory is the colour of the extension with the largest number in it.

ghost use Rattle.std.specs.Prelude.{◌≡◌, ◌++◌, IfOk, drop};
ghost use Rattle.lc_picture.specs.Colours.{shared_colour};
ghost use Rattle.lc_picture.specs.Kinds.{all_painted, box_colour, largest_colour};

use crate::colours::{REST_COLOUR, SHARED_COLOUR, colour_of};
use crate::drawn_box::DrawnBox;
use lc_rows::{ShownRow, number_in};
use lc_sheet::Number;
use lc_walk::extension;
use std::alloc::{AllocError, Global};

/// Returns the colour of the extension with the largest number in these rows, or the shared colour if all numbers are 0.
fn largest_colour(chart: &[ShownRow<'_>], by: Number, kinds: &[ShownRow<'_>]) -> usize
    ensures { result ≡ largest_colour chart.now by 0 shared_colour kinds.now }
{
    let mut number = 0;
    let mut colour = SHARED_COLOUR;
    for kind in kinds {
        let own = number_in(by, kind.sums);
        if number < own {
            colour = colour_of(chart, kind.key.extension);
        }
        number = own.max(number);
    }
    colour
}

fn box_colour(chart: &[ShownRow<'_>], by: Number, drawn: &DrawnBox<'_>) -> usize
    ensures { result ≡ box_colour chart.now by drawn.now }
{
    if drawn.is_rest {
        return REST_COLOUR;
    }
    if drawn.is_file {
        return colour_of(chart, extension(drawn.own_name));
    }
    largest_colour(chart, by, drawn.kinds)
}

/// Returns boxes, each in the colour of its largest extension, and a rest in that of all rests. `begins` has for each box whether a strip
/// begins with it.
pub(crate) fn all_painted<'a>(
    alloc: Global,
    chart: &[ShownRow<'_>],
    by: Number,
    begins: &[bool],
    boxes: &[DrawnBox<'a>],
) -> Result<Vec<DrawnBox<'a>>, AllocError>
    ensures { IfOk result (λ made. made.items ≡ all_painted chart.now by begins.now 0 boxes.now) }
{
    let mut made = Vec::with_capacity(alloc, boxes.len())?;
    for index in 0..boxes.len() {
        let drawn = &boxes[index];
        let is_first = begins.get(index).copied().unwrap_or(false);
        made.push(drawn.painted(box_colour(chart, by, drawn), is_first))?;
    }
    Ok(made)
}
