//! The texts of values in human-readable formats.

ghost use Rattle.std.specs.Prelude.{◌≡◌, ◌++◌, IfOk, OnOk, string_bytes};
ghost use Rattle.lc_formats.specs.Cells.{shown_in};
ghost use Rattle.lc_formats.specs.Columns.{width_of};
ghost use Rattle.lc_sheet.specs.Values.{value_model};

use crate::numbers::{push_change, push_growth, push_number};
use crate::shares::{push_bar, push_share};
use lc_sheet::{Value, flag_word};
use lc_text::{push_visible_name, push_visible_path};
use std::alloc::AllocError;
use unicode_width::UnicodeWidthStr;

/// Appends the text of a value, where the bar of a whole has `bar` cells. Nothing in the text moves the cursor of a terminal.
pub(crate) fn push_value(text: &mut String, bar: u8, value: &Value<'_>) -> Result<(), AllocError>
    ensures { OnOk result (string_bytes text.new ≡ string_bytes text.old ++ shown_in bar (value_model value.now)) }
{
    match *value {
        Value::Missing => text.push_str("-"),
        Value::Summed | Value::Blank => Ok(()),
        Value::Word(word) => text.push_str(word),
        Value::Flag(is_set) => text.push_str(flag_word(is_set)),
        Value::Name(name) => push_visible_name(text, name),
        Value::Path(path) => push_visible_path(text, path),
        Value::Number(n) => push_number(text, n),
        Value::Share { part, whole } => push_share(text, part, whole),
        Value::Bar { part, whole } => push_bar(text, bar, part, whole),
        Value::Difference { old, new } => push_change(text, old, new),
        Value::Growth { old, new } => push_growth(text, old, new),
    }
}

/// Replaces the text in `made` by the text of a value, where the bar of a whole has `bar` cells.
pub(crate) fn make_value(made: &mut String, bar: u8, value: &Value<'_>) -> Result<(), AllocError>
    ensures { OnOk result (string_bytes made.new ≡ shown_in bar (value_model value.now)) }
{
    made.clear();
    push_value(made, bar, value)
}

/// Like `make_value`, but also returns the width of the text in columns of a terminal.
pub(crate) fn make_wide(made: &mut String, bar: u8, value: &Value<'_>) -> Result<usize, AllocError>
    ensures text { OnOk result (string_bytes made.new ≡ shown_in bar (value_model value.now)) }
    ensures width { IfOk result (λ width. width ≡ width_of (shown_in bar (value_model value.now))) }
{
    make_value(made, bar, value)?;
    Ok(made.as_str().width())
}
