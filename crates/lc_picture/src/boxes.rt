//! The boxes of directories, files and rests, as HTML. Each box is inside the box of the directory above it, in a strip of this.

ghost use Rattle.std.specs.Prelude.{◌≡◌, ◌+◌, ◌-◌, ◌++◌, IfOk, OnOk, length, min};
ghost use Rattle.lc_picture.specs.Nested.{boxes_in, closings, label, label_tag, link, next_box, next_strip, opening, strip_tag, tag, title_of};
ghost use Rattle.lc_picture.specs.Pieces.{text_of};

use crate::box_names::push_box_name;
use crate::drawn_box::DrawnBox;
use crate::escaping::push_path;
use crate::scale::Scale;
use crate::strips::{first_number, strip_number};
use crate::sums::{push_count, push_number, push_share, push_sums};
use lc_rows::number_in;
use lc_sheet::Number;
use std::alloc::AllocError;

/// Appends the tag of the label of a directory, which is a link to the directory's box.
fn push_link(text: &mut Vec<u8>, place: usize) -> Result<(), AllocError>
    ensures { OnOk result (text.new.items ≡ text.old.items ++ text_of (link place)) }
{
    text.extend_from_slice(b"\" id=\"b")?;
    push_number(text, place as u128)?;
    text.extend_from_slice(b"\"><a href=\"#b")?;
    push_number(text, place as u128)?;
    text.extend_from_slice(b"\" title=\"")?;
    Ok(())
}

fn push_label_tag(text: &mut Vec<u8>, place: usize, drawn: &DrawnBox<'_>) -> Result<(), AllocError>
    ensures { OnOk result (text.new.items ≡ text.old.items ++ text_of (label_tag place drawn.now)) }
{
    if drawn.is_rest {
        return text.extend_from_slice(b"\"><a title=\"others in ");
    }
    if drawn.is_file {
        return text.extend_from_slice(b"\"><a title=\"");
    }
    push_link(text, place)
}

fn push_tag(
    text: &mut Vec<u8>,
    by: Number,
    place: usize,
    drawn: &DrawnBox<'_>,
) -> Result<(), AllocError>
    ensures { OnOk result (text.new.items ≡ text.old.items ++ text_of (tag by place drawn.now)) }
{
    text.extend_from_slice(b"<div class=\"b e")?;
    push_number(text, drawn.colour as u128)?;
    text.extend_from_slice(b"\" style=\"--n:")?;
    push_number(text, number_in(by, drawn.sums))?;
    push_label_tag(text, place, drawn)?;
    Ok(())
}

fn push_title(
    text: &mut Vec<u8>,
    scale: Scale,
    drawn: &DrawnBox<'_>,
    made: &mut String,
) -> Result<(), AllocError>
    ensures { OnOk result (text.new.items ≡ text.old.items ++ text_of (title_of scale drawn.now)) }
{
    push_path(text, drawn.path, made)?;
    text.extend_from_slice(b": ")?;
    push_sums(text, drawn.sums, made)?;
    push_share(text, scale, number_in(scale.by, drawn.sums))?;
    Ok(())
}

/// Appends the label of a box, and the tag of the first strip in it, which has the number `strip`.
fn push_label(
    text: &mut Vec<u8>,
    by: Number,
    strip: u128,
    drawn: &DrawnBox<'_>,
    made: &mut String,
) -> Result<(), AllocError>
    ensures { OnOk result (text.new.items ≡ text.old.items ++ text_of (label by strip drawn.now)) }
{
    text.extend_from_slice(b"\"><b>")?;
    push_box_name(text, by, drawn, made)?;
    text.extend_from_slice(b"</b> <span>")?;
    push_count(text, number_in(by, drawn.sums), made)?;
    text.extend_from_slice(b"</span></a><div style=\"--n:")?;
    push_number(text, strip)?;
    text.extend_from_slice(b"\">")?;
    Ok(())
}

/// Appends the beginning of a box: its tag, its title and its label. `after` has the boxes that follow it, whose number tells it from all
/// other boxes.
fn push_opening(
    text: &mut Vec<u8>,
    scale: Scale,
    drawn: &DrawnBox<'_>,
    after: &[DrawnBox<'_>],
    made: &mut String,
) -> Result<(), AllocError>
    ensures { OnOk result (text.new.items ≡ text.old.items ++ text_of (opening scale drawn.now after.now)) }
{
    let strip = first_number(scale.by, drawn.depth, after)?;
    push_tag(text, scale.by, after.len(), drawn)?;
    push_title(text, scale, drawn, made)?;
    push_label(text, scale.by, strip, drawn, made)?;
    Ok(())
}

/// Appends the closing tags of `count` boxes and of their last strips.
fn push_closings(text: &mut Vec<u8>, count: usize) -> Result<(), AllocError>
    ensures { OnOk result (text.new.items ≡ text.old.items ++ text_of (closings count)) }
{
    let mut rest = count;
    'boxes: while rest > 0 {
        text.extend_from_slice(b"</div></div>\n")?;
        rest -= 1;
    }
    Ok(())
}

/// Appends the end of a strip and the tag of the next one, which has this number.
fn push_next_strip(text: &mut Vec<u8>, number: u128) -> Result<(), AllocError>
    ensures { OnOk result (text.new.items ≡ text.old.items ++ text_of (next_strip number)) }
{
    text.extend_from_slice(b"</div><div style=\"--n:")?;
    push_number(text, number)?;
    text.extend_from_slice(b"\">")?;
    Ok(())
}

/// Appends the beginning of a further strip, if a box that is not the first in the box around it begins one.
fn push_strip_tag(
    text: &mut Vec<u8>,
    by: Number,
    within: usize,
    drawn: &DrawnBox<'_>,
    after: &[DrawnBox<'_>],
) -> Result<(), AllocError>
    ensures { OnOk result (text.new.items ≡ text.old.items ++ text_of (strip_tag by within drawn.now after.now)) }
{
    if drawn.begins_strip && drawn.depth < within {
        let number = strip_number(by, drawn, after)?;
        push_next_strip(text, number)?;
    }
    Ok(())
}

/// Appends the closing tags of the open boxes that do not hold the next box, and the beginning of the next box. Returns how many boxes are
/// open afterwards.
fn push_box<'a>(
    text: &mut Vec<u8>,
    scale: Scale,
    within: usize,
    drawn: &DrawnBox<'a>,
    after: &[DrawnBox<'a>],
    made: &mut String,
) -> Result<usize, AllocError>
    ensures text { OnOk result (text.new.items ≡ text.old.items ++ text_of (next_box scale within drawn.now after.now)) }
    ensures within { IfOk result (λ next. next ≡ min within drawn.now.depth + 1) }
{
    let next = within.min(drawn.depth).checked_add(1).ok_or(AllocError)?;
    push_closings(text, within.saturating_sub(drawn.depth))?;
    push_strip_tag(text, scale.by, within, drawn, after)?;
    push_opening(text, scale, drawn, after, made)?;
    Ok(next)
}

/// Appends the boxes of directories, files and rests, each inside the box of the directory above it. The list of boxes is depth first.
pub(crate) fn push_boxes<'a>(
    text: &mut Vec<u8>,
    scale: Scale,
    boxes: &[DrawnBox<'a>],
    made: &mut String,
) -> Result<(), AllocError>
    ensures { OnOk result (text.new.items ≡ text.old.items ++ text_of (boxes_in scale 0 boxes.now)) }
{
    let mut within = 0;
    for index in 0..boxes.len() {
        within = push_box(
            text,
            scale,
            within,
            &boxes[index],
            &boxes[index + 1..],
            made,
        )?;
    }
    push_closings(text, within)
}
