//! The text of a tree: lines with a number, its share and its bar in columns, and then the text of the line.

ghost use Rattle.std.specs.Prelude.{◌≡◌, ◌++◌, IfOk, OnOk, map, string_bytes};
ghost use Rattle.lc_formats.specs.Columns.{lines_in, widened};
ghost use Rattle.lc_formats.specs.TreeText.{columns_before, tree_cells, tree_text};

use crate::cells::Cell;
use crate::widths::Widths;
use lc_sheet::{Number, Side, Value};
use std::alloc::{AllocError, Global};
use std::marker::Model;

/// A line of a tree.
#[derive(Drop)]
pub struct TreeLine {
    /// The number of the line, such as lines.
    pub number: u128,
    /// What is printed after the number, its share and its bar. It is printed as it is.
    pub text: Vec<u8>,
}

impl Model for TreeLine {
    ghost use Rattle.lc_formats.specs.TreeText.{TreeLineModel};

    ghost Value = { TreeLineModel };

    ghost view = { λ l. record { number = l.number; text = l.text.items } };
}

/// Makes each column at least as wide as its cells in these lines.
fn fit_lines(
    widths: &mut Widths,
    whole: u128,
    lines: &[TreeLine],
    made: &mut String,
) -> Result<(), AllocError>
    ensures { OnOk result (widths.new ≡ widened widths.old (map (tree_cells whole) lines.now)) }
{
    let mut rest = lines;
    'lines: while let Some((line, others)) = rest.split_first() {
        let part = line.number;
        let cells = [
            Cell::new(Side::Right, Value::Number(part)),
            Cell::new(Side::Right, Value::Share { part, whole }),
            Cell::new(Side::Left, Value::Bar { part, whole }),
            Cell::new(Side::End, Value::Blank),
        ];
        widths.fit(&cells, made)?;
        rest = others;
    }
    Ok(())
}

/// Appends the number of a line, its share and its bar.
fn push_columns(
    row: &mut String,
    widths: &Widths,
    whole: u128,
    part: u128,
    made: &mut String,
) -> Result<(), AllocError>
    ensures { OnOk result (string_bytes row.new ≡ string_bytes row.old ++ columns_before widths.now whole part) }
{
    let end = [Cell::new(Side::End, Value::Blank)];
    let number = Cell::new(Side::Right, Value::Number(part));
    let share = Cell::new(Side::Right, Value::Share { part, whole });
    let bar = Cell::new(Side::Left, Value::Bar { part, whole });
    number.push_before(&end, widths.width(0), row, made)?;
    row.push_str("  ")?;
    share.push_before(&end, widths.width(1), row, made)?;
    row.push_str("  ")?;
    bar.push_before(&end, widths.width(2), row, made)?;
    row.push_str("  ")?;
    Ok(())
}

fn push_lines(
    text: &mut Vec<u8>,
    widths: &Widths,
    whole: u128,
    lines: &[TreeLine],
    row: &mut String,
    made: &mut String,
) -> Result<(), AllocError>
    ensures { OnOk result (text.new.items ≡ text.old.items ++ lines_in widths.now (map (tree_cells whole) lines.now)) }
{
    let mut rest = lines;
    'lines: while let Some((line, others)) = rest.split_first() {
        row.clear();
        push_columns(row, widths, whole, line.number, made)?;
        text.extend_from_slice(row.as_bytes())?;
        text.extend_from_slice(&line.text)?;
        text.extend_from_slice(b"\n")?;
        rest = others;
    }
    Ok(())
}

/// Makes the text of a tree: each line with its number, the share of this number in `whole`, and a bar for the share, in columns with
/// headings. The bar of the whole has 20 cells.
pub fn tree_text(
    alloc: Global,
    by: Number,
    whole: u128,
    lines: &[TreeLine],
) -> Result<Vec<u8>, AllocError>
    ensures { IfOk result (λ text. text.items ≡ tree_text by whole lines.now) }
{
    let mut text = Vec::new(alloc);
    let mut row = String::new(alloc);
    let mut made = String::new(alloc);
    let mut widths = Widths::new(alloc);
    let first = [
        Cell::new(Side::Right, Value::Word(by.name())),
        Cell::new(Side::Right, Value::Word("share")),
    ];
    widths.fit(&first, &mut made)?;
    fit_lines(&mut widths, whole, lines, &mut made)?;
    widths.push_line(&first, &mut row, &mut made)?;
    text.extend_from_slice(row.as_bytes())?;
    push_lines(&mut text, &widths, whole, lines, &mut row, &mut made)?;
    Ok(text)
}
