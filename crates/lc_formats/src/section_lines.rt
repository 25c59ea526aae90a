//! The lines of a section as text in human-readable columns.

ghost use Rattle.std.specs.Prelude.{◌≡◌, ◌++◌, ◌==◌, length, OnOk, string_bytes};
ghost use Rattle.lc_formats.specs.Cells.{section_cells};
ghost use Rattle.lc_formats.specs.Columns.{lines_in, widened};
ghost use Rattle.lc_formats.specs.TableText.{section_listing, shown_lines};

use crate::cells::{Cell, set_cells, set_headings};
use crate::shares::FULL_BAR;
use crate::widths::Widths;
use lc_sheet::{Lines, Section};
use std::alloc::{AllocError, Global};

/// Makes each column at least as wide as its cells in the lines of a section, with bars of at most `bar` cells.
pub(crate) fn fit_lines<'a, L: Lines>(
    widths: &mut Widths,
    bar: u8,
    section: &Section<'a, L>,
    cells: &mut Vec<Cell<'a>>,
    made: &mut String,
) -> Result<(), AllocError>
    ensures { OnOk result (widths.new ≡ widened widths.old (section_cells bar section.now)) }
{
    let (form, columns, lines) = section.parts();
    let mut rest = lines;
    'lines: while let Some((line, others)) = rest.split_first() {
        set_cells::<L>(cells, line, form, columns, bar)?;
        widths.fit(cells, made)?;
        rest = others;
    }
    Ok(())
}

/// Appends the lines of a section, in columns of these widths, with bars of at most `bar` cells.
pub(crate) fn push_lines<'a, L: Lines>(
    widths: &Widths,
    bar: u8,
    section: &Section<'a, L>,
    cells: &mut Vec<Cell<'a>>,
    text: &mut String,
    made: &mut String,
) -> Result<(), AllocError>
    ensures { OnOk result (string_bytes text.new ≡ string_bytes text.old ++ lines_in widths.now (section_cells bar section.now)) }
{
    let (form, columns, lines) = section.parts();
    let mut rest = lines;
    'lines: while let Some((line, others)) = rest.split_first() {
        set_cells::<L>(cells, line, form, columns, bar)?;
        widths.push_line(cells, text, made)?;
        rest = others;
    }
    Ok(())
}

/// Returns whether a section has no lines.
pub(crate) fn is_empty<L: Lines>(section: &Section<'_, L>) -> bool
    ensures { result ≡ (length section.now.lines == 0) }
{
    let (_, _, lines) = section.parts();
    lines.is_empty()
}

/// Appends the lines of a section below their headings, and then an empty line. If the section has no lines, it appends nothing.
pub(crate) fn push_listing<'a, L: Lines>(
    alloc: Global,
    section: &Section<'a, L>,
    text: &mut String,
    made: &mut String,
) -> Result<(), AllocError>
    ensures { OnOk result (string_bytes text.new ≡ string_bytes text.old ++ section_listing section.now) }
{
    if is_empty(section) {
        return Ok(());
    }
    let mut widths = Widths::new(alloc);
    let mut cells = Vec::new(alloc);
    set_headings(&mut cells, section.attributes(), section.columns())?;
    widths.fit(&cells, made)?;
    fit_lines(&mut widths, FULL_BAR, section, &mut cells, made)?;
    set_headings(&mut cells, section.attributes(), section.columns())?;
    widths.push_line(&cells, text, made)?;
    push_lines(&widths, FULL_BAR, section, &mut cells, text, made)?;
    text.push_str("\n")?;
    Ok(())
}

/// Returns a section with all of its lines if `all` is true, and otherwise with the first line alone.
pub(crate) fn shown_lines<'a, L: Lines>(all: bool, section: &Section<'a, L>) -> Section<'a, L>
    ensures { result ≡ shown_lines all section.now }
{
    let (form, columns, lines) = section.parts();
    if all || lines.is_empty() {
        return Section::new(form, columns, lines);
    }
    Section::new(form, columns, &lines[..1])
}
