//! The boxes of directories: which directories have a box.

ghost use Rattle.std.specs.Prelude.{◌≡◌, ◌≤◌, [], ◌∷◌, ◌++◌, IfOk, OnOk, drop};
ghost use Rattle.lc_picture.specs.Boxes.{box_of, drawn_boxes, least_of};
ghost use Rattle.lc_picture.specs.Colours.{first_rows_of, path_of, rows_from};

use crate::colours::{SHARED_COLOUR, first_rows_of, next_place, path_of};
use crate::drawn_box::DrawnBox;
use crate::small_directories::{SmallDirectories, small_at, smalls_of};
use lc_rows::{ShownRow, level_of, number_in, own_part};
use lc_sheet::Number;
use std::alloc::{AllocError, Global};

/// Returns the least number for which a directory or a file has a box of its own: one of so many parts of the total, rounded up, and at
/// least 1.
pub(crate) fn least_of(parts: u128, total: u128) -> u128
    requires { 1 ≤ parts }
    ensures { result ≡ least_of parts total }
{
    let rest = if total % parts >= 1 { 1 } else { 0 };
    (total / parts + rest).max(1)
}

fn box_of<'a>(
    row: &ShownRow<'a>,
    kinds: &'a [ShownRow<'a>],
    small: SmallDirectories,
) -> DrawnBox<'a>
    ensures { result ≡ box_of row.now kinds.now small }
{
    let path = path_of(row);
    DrawnBox {
        path,
        own_name: own_part(path),
        depth: level_of(path),
        colour: SHARED_COLOUR,
        begins_strip: false,
        sums: row.sums,
        kinds,
        small,
        is_file: false,
        is_rest: false,
    }
}

/// Appends the box of a directory, whose rows are the next ones in `kinds` with its path. Returns the index of the first of them.
fn push_drawn<'a>(
    boxes: &mut Vec<DrawnBox<'a>>,
    row: &ShownRow<'a>,
    small: SmallDirectories,
    kinds: &'a [ShownRow<'a>],
    start: usize,
) -> Result<usize, AllocError>
    ensures kinds { IfOk result (λ place. drop place kinds.entry.now ≡ rows_from (path_of row.now) (drop start kinds.entry.now)) }
    ensures boxes { OnOk result (boxes.new.items ≡ boxes.old.items
        ++ box_of row.now (first_rows_of (path_of row.now) (rows_from (path_of row.now) (drop start kinds.entry.now))) small ∷ []) }
{
    let directory = path_of(row);
    let place = next_place(directory, kinds, start);
    let own = first_rows_of(directory, &kinds[place.min(kinds.len())..]);
    boxes.push(box_of(row, own, small))?;
    Ok(place)
}

/// Returns the boxes of the directories whose number `by`, such as lines, is at least `least`. The box of a directory also has the sum of
/// the smaller directories directly in this directory.
///
/// `kinds` are the rows by directory and extension, which have the directories in the same order.
pub(crate) fn drawn_boxes<'a>(
    alloc: Global,
    by: Number,
    least: u128,
    rows: &[ShownRow<'a>],
    kinds: &'a [ShownRow<'a>],
) -> Result<Vec<DrawnBox<'a>>, AllocError>
    ensures { IfOk result (λ boxes. boxes.items ≡ drawn_boxes by least kinds.now rows.now) }
{
    let smalls = smalls_of(alloc, by, least, rows)?;
    let mut boxes = Vec::new(alloc);
    let mut place = 0;
    for index in 0..rows.len() {
        let row = &rows[index];
        if number_in(by, row.sums) >= least {
            place = push_drawn(&mut boxes, row, small_at(&smalls, index), kinds, place)?;
        }
    }
    Ok(boxes)
}
