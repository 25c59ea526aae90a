//! The head of a page: its title, which number of which files is drawn, and the sums over all files.

ghost use Rattle.std.specs.Prelude.{◌≡◌, ◌++◌, IfOk, OnOk};
ghost use Rattle.lc_rows.specs.SheetLaws.{first_number, is_number, number_at, number_of, same_number};
ghost use Rattle.lc_sheet.specs.Sheets.{line_of};
ghost use Rattle.lc_sheet.specs.Values.{value_model};
ghost use Rattle.lc_picture.specs.Head.{chosen_files, figure, figures, figures_of, head_part, heading, page_top, what_is_drawn};
ghost use Rattle.lc_picture.specs.Pieces.{text_of};

use crate::escaping::push_path;
use crate::style::{body_begin, page_begin, style, style_begin};
use crate::sums::{number_word, push_count};
use lc_sheet::{Column, Form, Lines, Number, Section, Sheet, Value};
use std::alloc::{AllocError, Global};

fn same_number(a: Number, b: Number) -> bool
    ensures { result ≡ same_number a b }
{
    match (a, b) {
        (Number::Files, Number::Files)
        | (Number::Lines, Number::Lines)
        | (Number::Blank, Number::Blank)
        | (Number::Bytes, Number::Bytes) => true,
        _ => false,
    }
}

fn is_number(number: Number, column: Column) -> bool
    ensures { result ≡ is_number number column }
{
    match column {
        Column::Number(own) => same_number(number, own),
        _ => false,
    }
}

fn number_of(value: Value<'_>) -> u128
    ensures { result ≡ number_of (value_model value.entry) }
{
    match value {
        Value::Number(n) => n,
        _ => 0,
    }
}

/// Returns the value of a line in the column of a number, such as lines, or 0 if no column is of this number.
fn number_at<L: Lines>(number: Number, form: Form, columns: &[Column], line: &L::Line) -> u128
    ensures { result ≡ number_at number columns.now (line_of (L.value_in form) columns.now line.now) }
{
    let mut rest = columns;
    'columns: while let Some((column, others)) = rest.split_first() {
        if is_number(number, *column) {
            return number_of(L::value(line, form, *column));
        }
        rest = others;
    }
    0
}

/// Returns the value of a section's first line in the column of a number, such as lines, or 0 if the section has no line or no column of
/// this number.
fn first_number<L: Lines>(number: Number, section: &Section<'_, L>) -> u128
    ensures { result ≡ first_number number section.now }
{
    let (form, columns, lines) = section.parts();
    match lines.split_first() {
        None => 0,
        Some((line, _)) => number_at::<L>(number, form, columns, line),
    }
}

/// Appends ` of files ` and which files options choose, or ` by directory` if no option chooses files.
fn push_chosen_files(text: &mut Vec<u8>, chosen: &[u8], made: &mut String) -> Result<(), AllocError>
    ensures { OnOk result (text.new.items ≡ text.old.items ++ text_of (chosen_files chosen.now)) }
{
    if chosen.is_empty() {
        text.extend_from_slice(b" by directory")?;
        return Ok(());
    }
    text.extend_from_slice(b" of files ")?;
    push_path(text, chosen, made)?;
    Ok(())
}

/// Appends which number of which files is drawn, such as `lines of files where ext=.c`.
fn push_what_is_drawn(
    text: &mut Vec<u8>,
    chosen: &[u8],
    by: Number,
    made: &mut String,
) -> Result<(), AllocError>
    ensures { OnOk result (text.new.items ≡ text.old.items ++ text_of (what_is_drawn chosen.now by)) }
{
    text.extend_from_slice(number_word(by))?;
    push_chosen_files(text, chosen, made)?;
    Ok(())
}

/// Appends the beginning of a page: the title in a browser's tab, and the style.
fn push_page_top(
    text: &mut Vec<u8>,
    title: &[u8],
    chosen: &[u8],
    by: Number,
    made: &mut String,
) -> Result<(), AllocError>
    ensures { OnOk result (text.new.items ≡ text.old.items ++ text_of (page_top title.now chosen.now by)) }
{
    text.extend_from_slice(page_begin())?;
    push_path(text, title, made)?;
    text.extend_from_slice(b": ")?;
    push_what_is_drawn(text, chosen, by, made)?;
    text.extend_from_slice(style_begin())?;
    text.extend_from_slice(style())?;
    Ok(())
}

/// Appends the heading of a page: its title, and what is drawn.
fn push_heading(
    text: &mut Vec<u8>,
    title: &[u8],
    chosen: &[u8],
    by: Number,
    made: &mut String,
) -> Result<(), AllocError>
    ensures { OnOk result (text.new.items ≡ text.old.items ++ text_of (heading title.now chosen.now by)) }
{
    text.extend_from_slice(body_begin())?;
    push_path(text, title, made)?;
    text.extend_from_slice(b"</h1>\n<p class=\"by\">")?;
    push_what_is_drawn(text, chosen, by, made)?;
    text.extend_from_slice(b"</p>\n<dl>\n")?;
    Ok(())
}

/// Appends one of the sums over all files, with the words that name it.
fn push_figure(
    text: &mut Vec<u8>,
    number: Number,
    n: u128,
    made: &mut String,
) -> Result<(), AllocError>
    ensures { OnOk result (text.new.items ≡ text.old.items ++ text_of (figure number n)) }
{
    text.extend_from_slice(b"<div><dt>")?;
    text.extend_from_slice(number_word(number))?;
    text.extend_from_slice(b"</dt><dd>")?;
    push_count(text, n, made)?;
    text.extend_from_slice(b"</dd></div>\n")
}

/// Appends the four numbers in the first line of a sheet's totals, each with the words that name it.
fn push_figures_of<L: Lines>(
    text: &mut Vec<u8>,
    totals: &Section<'_, L>,
    made: &mut String,
) -> Result<(), AllocError>
    ensures { OnOk result (text.new.items ≡ text.old.items ++ text_of (figures_of totals.now)) }
{
    push_figure(
        text,
        Number::Files,
        first_number(Number::Files, totals),
        made,
    )?;
    push_figure(
        text,
        Number::Lines,
        first_number(Number::Lines, totals),
        made,
    )?;
    push_figure(
        text,
        Number::Blank,
        first_number(Number::Blank, totals),
        made,
    )?;
    push_figure(
        text,
        Number::Bytes,
        first_number(Number::Bytes, totals),
        made,
    )?;
    Ok(())
}

/// Returns the head of a page. Its sums over all files are the numbers in the first line of a sheet's totals.
pub(crate) fn head_of<R: Lines, T: Lines, F: Lines, S: Lines, E: Lines>(
    alloc: Global,
    title: &[u8],
    chosen: &[u8],
    by: Number,
    sheet: &Sheet<'_, R, T, F, S, E>,
) -> Result<Vec<u8>, AllocError>
    ensures { IfOk result (λ text. text.items ≡ text_of (head_part title.now chosen.now by sheet.now.totals)) }
{
    let mut text = Vec::new(alloc);
    let mut made = String::new(alloc);
    push_page_top(&mut text, title, chosen, by, &mut made)?;
    push_heading(&mut text, title, chosen, by, &mut made)?;
    push_figures_of(&mut text, &sheet.totals, &mut made)?;
    text.extend_from_slice(b"</dl>\n")?;
    Ok(text)
}
