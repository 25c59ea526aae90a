//! The names of boxes: those of directories and files, and those of rests, such as `2 small directories, others`.

ghost use Rattle.std.specs.Prelude.{◌≡◌, ◌++◌, OnOk, string_bytes};
ghost use Rattle.lc_picture.specs.Escaping.{html};
ghost use Rattle.lc_picture.specs.Rests.{others_word, rest_name, shown_name, small_word};

use crate::drawn_box::DrawnBox;
use crate::escaping::push_html;
use crate::small_directories::SmallDirectories;
use lc_formats::push_number;
use lc_rows::number_in;
use lc_sheet::Number;
use lc_text::push_visible_path;
use std::alloc::AllocError;

/// Returns the words that follow a number of small directories, in the singular or the plural.
fn small_word(count: usize) -> &'static str
    ensures { result.now ≡ small_word count }
{
    if count == 1 {
        " small directory"
    } else {
        " small directories"
    }
}

/// Returns the words for other files, which follow those for small directories if there are other files.
fn others_word(has_others: bool) -> &'static str
    ensures { result.now ≡ others_word has_others }
{
    if has_others { ", others" } else { "" }
}

/// Appends the name of the rest of a directory. `rest` is its number, such as lines.
fn push_rest_name(name: &mut String, small: SmallDirectories, rest: u128) -> Result<(), AllocError>
    ensures { OnOk result (string_bytes name.new ≡ string_bytes name.old ++ rest_name small rest) }
{
    if small.number == 0 {
        return name.push_str("others");
    }
    push_number(name, small.count as u128)?;
    name.push_str(small_word(small.count))?;
    name.push_str(others_word(small.number < rest))
}

/// Appends the name of a box as terminals show it.
pub(crate) fn push_shown_name(
    name: &mut String,
    by: Number,
    drawn: &DrawnBox<'_>,
) -> Result<(), AllocError>
    ensures { OnOk result (string_bytes name.new ≡ string_bytes name.old ++ shown_name by drawn.now) }
{
    if drawn.is_rest {
        return push_rest_name(name, drawn.small, number_in(by, drawn.sums));
    }
    push_visible_path(name, drawn.own_name)
}

/// Appends the name of a box as terminals show it, escaped for HTML.
pub(crate) fn push_box_name(
    text: &mut Vec<u8>,
    by: Number,
    drawn: &DrawnBox<'_>,
    made: &mut String,
) -> Result<(), AllocError>
    ensures { OnOk result (text.new.items ≡ text.old.items ++ html (shown_name by drawn.now)) }
{
    made.clear();
    push_shown_name(made, by, drawn)?;
    push_html(text, made.as_bytes())
}
