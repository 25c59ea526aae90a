//! The numbers of strips, the rows of boxes in the box of a directory.

ghost use Rattle.std.specs.Prelude.{◌≡◌, ◌+◌, IfOk};
ghost use Rattle.lc_picture.specs.Strips.{first_strip, strip_left, strip_number, strip_of};

use crate::drawn_box::DrawnBox;
use lc_rows::number_in;
use lc_sheet::Number;
use std::alloc::AllocError;

/// Returns `number` and the numbers of the boxes of depth `depth` in `after` before the next strip begins. `after` is depth first.
///
/// An error means that the sum overflows.
fn added(by: Number, depth: usize, number: u128, after: &[DrawnBox<'_>]) -> Result<u128, AllocError>
    ensures { IfOk result (λ sum. sum ≡ number + strip_number by (strip_left depth after.now)) }
{
    let mut sum = number;
    for next in after {
        if next.depth < depth || next.depth == depth && next.begins_strip {
            return Ok(sum);
        }
        if next.depth == depth {
            sum = sum.checked_add(number_in(by, next.sums)).ok_or(AllocError)?;
        }
    }
    Ok(sum)
}

/// Returns the number of the strip that begins with the box `drawn`. `after` has the boxes that follow it, depth first.
pub(crate) fn strip_number(
    by: Number,
    drawn: &DrawnBox<'_>,
    after: &[DrawnBox<'_>],
) -> Result<u128, AllocError>
    ensures { IfOk result (λ number. number ≡ strip_number by (strip_of drawn.now after.now)) }
{
    let number = added(by, drawn.depth, number_in(by, drawn.sums), after)?;
    Ok(number)
}

/// Returns the number of the first strip in a box of depth `depth`, or 0 if no box is inside. `after` has the boxes that follow it.
pub(crate) fn first_number(
    by: Number,
    depth: usize,
    after: &[DrawnBox<'_>],
) -> Result<u128, AllocError>
    ensures { IfOk result (λ number. number ≡ strip_number by (first_strip depth after.now)) }
{
    match after.split_first() {
        Some((first, others)) if first.depth > depth => strip_number(by, first, others),
        _ => Ok(0),
    }
}
