//! The bar chart of the rows of a sheet.

ghost use Rattle.std.specs.Prelude.{◌≡◌, ◌++◌, OnOk};
ghost use Rattle.lc_picture.specs.Chart.{chart, coloured, coloured_lines, plain_lines};
ghost use Rattle.lc_picture.specs.Pieces.{text_of};

use crate::cells::push_cells;
use crate::colours::SHARED_COLOUR;
use crate::sums::push_number;
use lc_sheet::{Column, Form, Lines, Section, Sheet};
use std::alloc::AllocError;

/// Appends the beginning of a line of the chart, in the colour for its place.
fn push_coloured(text: &mut Vec<u8>, place: usize) -> Result<(), AllocError>
    ensures { OnOk result (text.new.items ≡ text.old.items ++ text_of (coloured place)) }
{
    text.extend_from_slice(b"<tr class=\"e")?;
    push_number(text, place.min(SHARED_COLOUR) as u128)?;
    text.extend_from_slice(b"\">")?;
    Ok(())
}

/// Appends the lines of a section of a sheet, each in the colour for its place.
fn push_coloured_lines<L: Lines>(
    text: &mut Vec<u8>,
    section: &Section<'_, L>,
    made: &mut String,
) -> Result<(), AllocError>
    ensures { OnOk result (text.new.items ≡ text.old.items ++ text_of (coloured_lines 0 section.now.lines)) }
{
    let (form, columns, lines) = section.parts();
    for place in 0..lines.len() {
        push_coloured(text, place)?;
        push_cells::<L>(text, &lines[place], form, columns, made)?;
    }
    Ok(())
}

/// Appends the lines of a section of a sheet, without colours.
fn push_plain_lines<L: Lines>(
    text: &mut Vec<u8>,
    section: &Section<'_, L>,
    made: &mut String,
) -> Result<(), AllocError>
    ensures { OnOk result (text.new.items ≡ text.old.items ++ text_of (plain_lines section.now.lines)) }
{
    let (form, columns, lines) = section.parts();
    let mut rest = lines;
    'lines: while let Some((line, others)) = rest.split_first() {
        text.extend_from_slice(b"<tr>")?;
        push_cells::<L>(text, line, form, columns, made)?;
        rest = others;
    }
    Ok(())
}

/// Appends the rows of a sheet, each with its bar, and the sums over the other rows, for which the sheet has no place.
pub(crate) fn push_chart<R: Lines, T: Lines, F: Lines, S: Lines, E: Lines>(
    text: &mut Vec<u8>,
    sheet: &Sheet<'_, R, T, F, S, E>,
    made: &mut String,
) -> Result<(), AllocError>
    ensures { OnOk result (text.new.items ≡ text.old.items ++ text_of (chart sheet.now)) }
{
    push_coloured_lines(text, &sheet.rows, made)?;
    push_plain_lines(text, &sheet.others, made)
}
