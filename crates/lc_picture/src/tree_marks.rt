//! The lines of a tree, with the marks that draw the tree before their names.

ghost use Rattle.std.specs.Prelude.{◌≡◌, ◌==◌, ◌++◌, nat_lt, if◌then◌else◌, ℕ, false, IfOk, OnOk, reverse};
ghost use Rattle.std.specs.List.{slice_index_or};
ghost use Rattle.lc_picture.specs.TreeMarks.{branch, drawn_lines, marked, marks, trunk, trunks};

use crate::box_names::push_shown_name;
use crate::drawn_box::DrawnBox;
use lc_formats::TreeLine;
use lc_rows::number_in;
use lc_sheet::Number;
use std::alloc::{AllocError, Global};

fn trunk(goes_on: bool) -> &'static str
    ensures { result.now ≡ trunk goes_on }
{
    if goes_on { "\u{2502}   " } else { "    " }
}

fn branch(goes_on: bool) -> &'static str
    ensures { result.now ≡ branch goes_on }
{
    if goes_on {
        "\u{251c}\u{2500}\u{2500} "
    } else {
        "\u{2514}\u{2500}\u{2500} "
    }
}

fn is_going(going: &[bool], level: usize) -> bool
    ensures { result ≡ slice_index_or going.now level false }
{
    going.get(level).copied().unwrap_or(false)
}

fn push_trunks(text: &mut Vec<u8>, going: &[bool], levels: usize) -> Result<(), AllocError>
    ensures { OnOk result (text.new.items ≡ text.old.items ++ trunks (λ level. slice_index_or going.now level false) levels) }
{
    let mut level = 0;
    'levels: while level < levels {
        level += 1;
        let mark = trunk(is_going(going, level));
        text.extend_from_slice(mark.as_bytes())?;
    }
    Ok(())
}

/// Appends the marks before a line of this depth. `going` has for each level whether it goes on in the lines that follow.
fn push_marks(text: &mut Vec<u8>, going: &[bool], depth: usize) -> Result<(), AllocError>
    ensures { OnOk result (text.new.items ≡ text.old.items ++ marks (λ level. slice_index_or going.now level false) depth) }
{
    if depth == 0 {
        return Ok(());
    }
    push_trunks(text, going, depth - 1)?;
    let mark = branch(is_going(going, depth));
    text.extend_from_slice(mark.as_bytes())?;
    Ok(())
}

/// Makes the line of a box: its number, and its name with the marks before it.
fn drawn_line(
    alloc: Global,
    by: Number,
    going: &[bool],
    drawn: &DrawnBox<'_>,
) -> Result<TreeLine, AllocError>
    ensures { IfOk result (λ line. line ≡ marked by (λ level. slice_index_or going.now level false) drawn.now) }
{
    let mut name = String::new(alloc);
    push_shown_name(&mut name, by, drawn)?;
    let mut text = Vec::new(alloc);
    push_marks(&mut text, going, drawn.depth)?;
    text.extend_from_slice(name.as_bytes())?;
    Ok(TreeLine {
        number: number_in(by, drawn.sums),
        text,
    })
}

/// Turns the levels that go on after a line of this depth into those that go on after the line before it.
fn next_going(going: &mut Vec<bool>, depth: usize) -> Result<(), AllocError>
    ensures { OnOk result ((level : ℕ) → slice_index_or going.new.items level false
        ≡ (if nat_lt level depth then slice_index_or going.old.items level false else depth == level)) }
{
    going.resize(depth, false)?;
    going.push(true)?;
    Ok(())
}

/// Returns the lines of boxes, the first line first. `boxes` has the last box first.
pub(crate) fn drawn_lines(
    alloc: Global,
    by: Number,
    boxes: &[DrawnBox<'_>],
) -> Result<Vec<TreeLine>, AllocError>
    ensures { IfOk result (λ lines. lines.items ≡ drawn_lines by (reverse boxes.now)) }
{
    let mut lines = Vec::with_capacity(alloc, boxes.len())?;
    let mut going = Vec::new(alloc);
    for drawn in boxes {
        let next = drawn_line(alloc, by, &going, drawn)?;
        lines.push(next)?;
        next_going(&mut going, drawn.depth)?;
    }
    lines.reverse();
    Ok(lines)
}
