//! The legend of a page: the extensions that have colours of their own, with their numbers.

ghost use Rattle.std.specs.Prelude.{◌≡◌, ◌++◌, OnOk};
ghost use Rattle.lc_picture.specs.Escaping.{html};
ghost use Rattle.lc_picture.specs.Legend.{legend, legend_entry, visible_extension};
ghost use Rattle.lc_picture.specs.Pieces.{text_of};

use crate::colours::SHARED_COLOUR;
use crate::escaping::push_html;
use crate::sums::{push_count, push_number};
use lc_rows::{ShownRow, number_in};
use lc_sheet::Number;
use lc_text::push_visible;
use std::alloc::AllocError;

/// Appends the extension of a row after a dot, or `-` for none, as a terminal shows it, escaped for HTML.
fn push_extension(
    text: &mut Vec<u8>,
    row: &ShownRow<'_>,
    made: &mut String,
) -> Result<(), AllocError>
    ensures { OnOk result (text.new.items ≡ text.old.items ++ html (visible_extension row.now.key.tally.extension)) }
{
    made.clear();
    match row.key.extension {
        None => made.push_str("-")?,
        Some(bytes) => {
            made.push_str(".")?;
            push_visible(made, bytes)?;
        }
    }
    push_html(text, made.as_bytes())
}

/// Appends an extension in its colour, with its number `by`, such as lines.
fn push_entry(
    text: &mut Vec<u8>,
    by: Number,
    colour: usize,
    row: &ShownRow<'_>,
    made: &mut String,
) -> Result<(), AllocError>
    ensures { OnOk result (text.new.items ≡ text.old.items ++ text_of (legend_entry by colour row.now)) }
{
    text.extend_from_slice(b"<span class=\"e")?;
    push_number(text, colour as u128)?;
    text.extend_from_slice(b"\">")?;
    push_extension(text, row, made)?;
    text.extend_from_slice(b" ")?;
    push_count(text, number_in(by, row.sums), made)?;
    text.extend_from_slice(b"</span>\n")?;
    Ok(())
}

/// Appends the extensions of the chart that have colours of their own, with their numbers `by`, such as lines.
pub(crate) fn push_legend(
    text: &mut Vec<u8>,
    by: Number,
    chart: &[ShownRow<'_>],
    made: &mut String,
) -> Result<(), AllocError>
    ensures { OnOk result (text.new.items ≡ text.old.items ++ text_of (legend by chart.now)) }
{
    let first = &chart[..chart.len().min(SHARED_COLOUR)];
    for colour in 0..first.len() {
        push_entry(text, by, colour, &first[colour], made)?;
    }
    Ok(())
}
