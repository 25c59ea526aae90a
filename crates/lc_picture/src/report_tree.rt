//! The tree of a report for a terminal: the boxes of a picture as lines.

ghost use Rattle.std.specs.Prelude.{◌≡◌, ℕ, [], IfOk};
ghost use Rattle.lc_sheet.specs.declared.column.Number.{Number};
ghost use Rattle.lc_picture.specs.Page.{drawn_number};
ghost use Rattle.lc_picture.specs.Tree.{IsTreeOf, first_levels, lines_of};

use crate::directory_box::least_of;
use crate::drawn_box::DrawnBox;
use crate::report_page::{boxes_of, put_title};
use crate::tree_marks::drawn_lines;
use lc_formats::{TreeLine, tree_text};
use lc_rows::number_in;
use lc_sheet::Number;
use lc_text::push_visible_path;
use lc_walk::Report;
use std::alloc::{AllocError, Global};

/// How many parts a tree divides its total into. A directory or a file with at least one of them has a line.
const TREE_PARTS: u128 = 100;

/// Makes the line of a tree that has no boxes.
fn title_alone(alloc: Global, title: &[u8]) -> Result<Vec<TreeLine>, AllocError>
    ensures { IfOk result (λ lines. (by : Number) (levels : ℕ) → lines.items ≡ lines_of title.now by levels []) }
{
    let mut name = String::new(alloc);
    push_visible_path(&mut name, title)?;
    let mut lines = Vec::new(alloc);
    lines.push(TreeLine {
        number: 0,
        text: name.into_bytes(),
    })?;
    Ok(lines)
}

/// Returns the boxes around which there are at most `levels` boxes.
fn first_levels<'a>(
    alloc: Global,
    levels: usize,
    boxes: &[DrawnBox<'a>],
) -> Result<Vec<DrawnBox<'a>>, AllocError>
    ensures { IfOk result (λ kept. kept.items ≡ first_levels levels boxes.now) }
{
    let mut kept = Vec::new(alloc);
    for drawn in boxes {
        if drawn.depth <= levels {
            kept.push(drawn.copy())?;
        }
    }
    Ok(kept)
}

/// Returns the lines of boxes under a title.
fn lines_of<'a>(
    alloc: Global,
    title: &'a [u8],
    by: Number,
    levels: usize,
    boxes: Vec<DrawnBox<'a>>,
) -> Result<Vec<TreeLine>, AllocError>
    ensures { IfOk result (λ lines. lines.items ≡ lines_of title.entry.now by levels boxes.entry.items) }
{
    if boxes.is_empty() {
        let lines = title_alone(alloc, title)?;
        return Ok(lines);
    }
    let mut titled = boxes;
    put_title(&mut titled, title);
    let mut kept = first_levels(alloc, levels, &titled)?;
    kept.reverse();
    let lines = drawn_lines(alloc, by, &kept)?;
    Ok(lines)
}

/// Makes the tree of a report for a terminal: a line for each directory and each file whose number, such as lines, is at least 1 and at
/// least a hundredth of the total. A line has the number, its share of the total, a bar for the share, and the name.
///
/// The number is the one that `sort` names, or lines if `sort` is `None`. The first line is that of all files, and has the title. Of the
/// lines directly below one line, the largest comes first, and that of small directories and other files last. If it would be the only
/// line, it is not there. A chain of directories is one line, such as `gpu/drm`. There are `levels` levels below the first line.
///
/// The report must list its files. An error means that an allocation failed or that sums overflow. The sums of a walk never overflow.
pub fn tree(
    alloc: Global,
    title: &[u8],
    report: &Report,
    sort: Option<Number>,
    levels: u32,
) -> Result<Vec<u8>, AllocError>
    ensures { IfOk result (λ text. IsTreeOf title.now (drawn_number sort) levels report.now text.items) }
{
    let by = sort.unwrap_or(Number::Lines);
    let whole = number_in(by, report.totals);
    let boxes = boxes_of(alloc, by, least_of(TREE_PARTS, whole), &report.files, &[])?;
    let lines = lines_of(alloc, title, by, levels as usize, boxes)?;
    let text = tree_text(alloc, by, whole, &lines)?;
    Ok(text)
}
