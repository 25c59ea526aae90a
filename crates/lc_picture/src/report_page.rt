//! The HTML page of a report: its head, its errors, its boxes, and its bar chart.

ghost use Rattle.std.specs.Prelude.{◌≡◌, ◌++◌, IfOk, OnOk, Some};
ghost use Rattle.lc_rows.specs.Views.{first_of};
ghost use Rattle.lc_picture.specs.Boxes.{titled};
ghost use Rattle.lc_picture.specs.Kinds.{all_painted};
ghost use Rattle.lc_picture.specs.Page.{AreBoxesOf, ArePageBoxes, IsPageOf, chart_options, chart_part, chart_rows, drawn_number};
ghost use Rattle.lc_picture.specs.Page.{scale_of, tree_part};
ghost use Rattle.lc_picture.specs.Pieces.{text_of};

use crate::boxes::push_boxes;
use crate::chains::joined;
use crate::chart::push_chart;
use crate::directory_box::{drawn_boxes, least_of};
use crate::drawn_box::DrawnBox;
use crate::faults::push_faults;
use crate::file_box::{large_files, with_files};
use crate::head::head_of;
use crate::kinds::all_painted;
use crate::largest_first::largest_first;
use crate::layout::strip_beginnings;
use crate::legend::push_legend;
use crate::rests::with_rests;
use crate::scale::Scale;
use crate::style::{chart_begin, explanation, legend_begin, page_end, tree_begin, tree_end};
use crate::sums::number_word;
use lc_rows::{Shown, ShownRow, number_in, shown_rows, tree_rows};
use lc_sheet::{Columns, Lines, Number, Output, Section, Sheet, TableOptions};
use lc_walk::{FileLine, Report, Sums};
use std::alloc::{AllocError, Global};

/// The columns by which the rows of the chart are grouped: the extension alone.
const CHART_COLUMNS: Columns = Columns {
    ext: true,
    ..Columns::NONE
};

/// The greatest number of extensions that have a bar.
const CHART_ROWS: u32 = 20;

/// The number of names after which the paths of directories are cut, so that boxes are not nested deeper. A browser nests at most 512
/// elements, and a box in a box takes two.
const TREE_DEPTH: u32 = 250;

/// How many parts a picture divides its total into. A directory or a file with at least one of them has a box.
const PICTURE_PARTS: u128 = 1_000;

/// The columns of the rows from which boxes of directories are made: the directory alone.
const TREE_COLUMNS: Columns = Columns {
    dir: Some(1),
    ..Columns::NONE
};

/// The columns of the rows that decide the colours of boxes: the directory and the extension.
const KIND_COLUMNS: Columns = Columns {
    ext: true,
    ..TREE_COLUMNS
};

/// Returns the part of a page with the legend and the boxes.
fn tree_of(
    alloc: Global,
    scale: Scale,
    chart: &[ShownRow<'_>],
    boxes: &[DrawnBox<'_>],
) -> Result<Vec<u8>, AllocError>
    ensures { IfOk result (λ text. text.items ≡ text_of (tree_part scale chart.now boxes.now)) }
{
    let mut text = Vec::new(alloc);
    let mut made = String::new(alloc);
    text.extend_from_slice(legend_begin())?;
    push_legend(&mut text, scale.by, chart, &mut made)?;
    text.extend_from_slice(tree_begin())?;
    push_boxes(&mut text, scale, boxes, &mut made)?;
    text.extend_from_slice(tree_end())?;
    text.extend_from_slice(number_word(scale.by))?;
    text.extend_from_slice(explanation())?;
    Ok(text)
}

fn push_chart_part<R: Lines, T: Lines, F: Lines, S: Lines, E: Lines>(
    text: &mut Vec<u8>,
    sheet: &Sheet<'_, R, T, F, S, E>,
    made: &mut String,
) -> Result<(), AllocError>
    ensures { OnOk result (text.new.items ≡ text.old.items ++ text_of (chart_part sheet.now)) }
{
    text.extend_from_slice(chart_begin())?;
    push_chart(text, sheet, made)?;
    text.extend_from_slice(page_end())?;
    Ok(())
}

/// Returns the number that a page draws, such as lines, with its sum over all files.
fn scale_of(by: Number, totals: Sums) -> Scale
    ensures { result ≡ scale_of by totals }
{
    Scale {
        by,
        whole: number_in(by, totals),
    }
}

/// Returns the options of the table that the chart shows: the largest extensions, with their shares.
fn chart_options(by: Number) -> TableOptions
    ensures { result ≡ chart_options by }
{
    TableOptions {
        output: Output::Picture,
        by: CHART_COLUMNS,
        sort: Some(by),
        top: Some(CHART_ROWS),
        files: false,
        share: true,
    }
}

/// Returns the rows that have a bar in the chart: the first 20.
fn first_rows<'a, 'b>(rows: &'b [ShownRow<'a>]) -> &'b [ShownRow<'a>]
    ensures { result.now ≡ first_of (Some chart_rows) rows.entry.now }
{
    &rows[..rows.len().min(CHART_ROWS as usize)]
}

/// Returns the boxes of the directories and files whose number `by`, such as lines, is at least `least`, the largest first, from the list
/// of all files. Each chain of directories is one box. `kinds` are the rows by directory and extension, or none if the boxes get no
/// colours. The last box in each directory is that of its rest.
pub(crate) fn boxes_of<'a>(
    alloc: Global,
    by: Number,
    least: u128,
    files: &'a [FileLine],
    kinds: &'a [ShownRow<'a>],
) -> Result<Vec<DrawnBox<'a>>, AllocError>
    ensures { IfOk result (λ boxes. AreBoxesOf by least files.entry.now kinds.entry.now boxes.items) }
{
    let tree = tree_rows(alloc, files, TREE_COLUMNS, TREE_DEPTH)?;
    let drawn = drawn_boxes(alloc, by, least, &tree, kinds)?;
    let chains = joined(alloc, by, least, &drawn)?;
    let large = large_files(alloc, TREE_DEPTH, by, least, files)?;
    let all = with_files(alloc, &large, &chains)?;
    let sorted = largest_first(alloc, by, &all)?;
    let boxes = with_rests(alloc, by, &sorted)?;
    Ok(boxes)
}

/// Makes a title the name of the first box.
pub(crate) fn put_title<'a>(boxes: &mut Vec<DrawnBox<'a>>, title: &'a [u8])
    ensures { boxes.new.items ≡ titled title.entry.now boxes.old.items }
{
    if let Some(top) = boxes.first_mut() {
        top.own_name = title;
    }
}

/// Returns the boxes of a page: in their colours and strips, and with the title of the page as the name of the first.
fn page_boxes<'a>(
    alloc: Global,
    title: &'a [u8],
    chart: &[ShownRow<'_>],
    by: Number,
    drawn: &[DrawnBox<'a>],
) -> Result<Vec<DrawnBox<'a>>, AllocError>
    ensures { IfOk result (λ boxes. ArePageBoxes title.entry.now chart.now by drawn.now boxes.items) }
{
    let begins = strip_beginnings(alloc, by, drawn)?;
    let mut boxes = all_painted(alloc, chart, by, &begins, drawn)?;
    put_title(&mut boxes, title);
    Ok(boxes)
}

fn page_by(
    alloc: Global,
    title: &[u8],
    chosen: &[u8],
    report: &Report,
    by: Number,
) -> Result<Vec<u8>, AllocError>
    ensures { IfOk result (λ text. IsPageOf title.now chosen.now by report.now text.items) }
{
    let extensions = shown_rows(alloc, &report.rows, &report.files, CHART_COLUMNS, Some(by))?;
    let chart = first_rows(&extensions);
    let mut kinds = tree_rows(alloc, &report.files, KIND_COLUMNS, TREE_DEPTH)?;
    // Otherwise unused room for rows would be held while the boxes are made.
    kinds.shrink_to_fit();
    let least = least_of(PICTURE_PARTS, number_in(by, report.totals));
    let drawn = boxes_of(alloc, by, least, &report.files, &kinds)?;
    let scale = scale_of(by, report.totals);
    let boxes = page_boxes(alloc, title, chart, by, &drawn)?;
    let tree = tree_of(alloc, scale, chart, &boxes)?;
    let shown = Shown::with_rows(alloc, report, &chart_options(by), &[], extensions)?;
    let sheet = shown.sheet();
    let mut made = String::new(alloc);
    let mut text = head_of(alloc, title, chosen, scale.by, &sheet)?;
    push_faults(&mut text, &report.faults, &mut made)?;
    text.extend_from_slice(&tree)?;
    push_chart_part(&mut text, &sheet, &mut made)?;
    Ok(text)
}

/// Makes the page of a report: one file of HTML with no script, no font and no URL.
///
/// The page has its title, the chosen files, the sums over all files, boxes for directories and files, and a bar for each of the largest
/// extensions. `chosen` is empty, or says which files were counted, such as `where ext=.c`. Both are shown as terminals show them. Boxes
/// and bars show the number that `sort` names, or lines if `sort` is `None`. The browser divides the space in proportion to these numbers.
/// If the report has errors, the page says how many, and lists the first hundred.
///
/// A directory whose path has at most 250 names has a box of its own if its number, such as lines, is at least 1 and at least a thousandth
/// of the total. So has a file, if its directory has a box. A directory in which all but less than that is in one child directory shares
/// the box of this child, which then has both names, such as `gpu/drm`. Each box is inside the box of the directory above it. Of the boxes
/// directly inside one box, the largest comes first. They are in strips, which divide the space of the box around them. In each directory,
/// one grey box shows what has no box of its own. The name of a directory is a link that shows its box alone.
///
/// The report must list its files. An error means that an allocation failed or that sums overflow. The sums of a walk never overflow.
pub fn page(
    alloc: Global,
    title: &[u8],
    chosen: &[u8],
    report: &Report,
    sort: Option<Number>,
) -> Result<Vec<u8>, AllocError>
    ensures { IfOk result (λ text. IsPageOf title.now chosen.now (drawn_number sort) report.now text.items) }
{
    page_by(alloc, title, chosen, report, sort.unwrap_or(Number::Lines))
}
