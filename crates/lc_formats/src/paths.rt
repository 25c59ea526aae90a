//! The paths of a sheet, for other programs.

ghost use Rattle.std.specs.Prelude.{◌≡◌, ◌++◌, [], ◌∷◌, IfOk, OnOk, flat_map, string_bytes};
ghost use Rattle.lc_formats.specs.Paths.{ended, has_no_feed, is_printed, path_in, paths_of, refusal, refusals, refused_lines};
ghost use Rattle.lc_sheet.specs.Sheets.{line_of};
ghost use Rattle.lc_text.specs.Lines.{end_byte};

use lc_sheet::{Column, Form, Lines, Section, Sheet, Value};
use lc_text::{PathEnd, push_visible};
use std::alloc::{AllocError, Global};

/// The paths of a sheet as a text, and the paths that this text can't have.
#[derive(Drop)]
pub struct PathsText {
    /// The paths, each ended by a line feed or by NUL. The bytes of a path are not escaped.
    pub text: Vec<u8>,
    /// An error line for each path that has a line feed, if line feeds end paths.
    pub refused: String,
}

fn end_byte(end: PathEnd) -> u8
    ensures { result ≡ end_byte end }
{
    match end {
        PathEnd::LineFeed => b'\n',
        PathEnd::Nul => b'\0',
    }
}

fn has_no_feed(path: &[u8]) -> bool
    ensures { result ≡ has_no_feed path.now }
{
    path.iter().all(|b| *b != b'\n')
}

/// Returns whether a path can be told apart from the next one.
fn is_printed(end: PathEnd, path: &[u8]) -> bool
    ensures { result ≡ is_printed end path.now }
{
    match end {
        PathEnd::Nul => true,
        PathEnd::LineFeed => has_no_feed(path),
    }
}

/// Appends an error line for a path that is not printed.
fn push_refusal(refused: &mut String, path: &[u8]) -> Result<(), AllocError>
    ensures { OnOk result (string_bytes refused.new ≡ string_bytes refused.old ++ refusal path.now) }
{
    refused.push_str("lc: ")?;
    push_visible(refused, path)?;
    refused.push_str(" has a line feed: use -0\n")?;
    Ok(())
}

/// Appends a path and the byte that ends it, or else an error line.
fn push_path(paths: &mut PathsText, end: PathEnd, path: &[u8]) -> Result<(), AllocError>
    ensures text { OnOk result (paths.new.text.items ≡ paths.old.text.items ++ ended end (path.now ∷ [])) }
    ensures refused { OnOk result (string_bytes paths.new.refused
        ≡ string_bytes paths.old.refused ++ refusals end (path.now ∷ [])) }
{
    if is_printed(end, path) {
        paths.text.extend_from_slice(path)?;
        paths.text.push(end_byte(end))?;
        return Ok(());
    }
    push_refusal(&mut paths.refused, path)
}

/// Appends the path that is the first value of a line.
fn push_line<L: Lines>(
    paths: &mut PathsText,
    end: PathEnd,
    form: Form,
    columns: &[Column],
    line: &L::Line,
) -> Result<(), AllocError>
    ensures text { OnOk result (paths.new.text.items
        ≡ paths.old.text.items ++ ended end (path_in (line_of (L.value_in form) columns.now line.now))) }
    ensures refused { OnOk result (string_bytes paths.new.refused
        ≡ string_bytes paths.old.refused ++ refusals end (path_in (line_of (L.value_in form) columns.now line.now))) }
{
    let Some((first, _)) = columns.split_first() else {
        return Ok(());
    };
    match L::value(line, form, *first) {
        Value::Path(path) => push_path(paths, end, path),
        _ => Ok(()),
    }
}

/// Appends the paths of a section's lines.
fn push_section<L: Lines>(
    paths: &mut PathsText,
    end: PathEnd,
    section: &Section<'_, L>,
) -> Result<(), AllocError>
    ensures text { OnOk result (paths.new.text.items
        ≡ paths.old.text.items ++ ended end (flat_map path_in section.now.lines)) }
    ensures refused { OnOk result (string_bytes paths.new.refused
        ≡ string_bytes paths.old.refused ++ refusals end (flat_map path_in section.now.lines)) }
{
    let (form, columns, lines) = section.parts();
    let mut rest = lines;
    'lines: while let Some((line, others)) = rest.split_first() {
        push_line::<L>(paths, end, form, columns, line)?;
        rest = others;
    }
    Ok(())
}

/// Appends the paths of the skipped entries if the sheet lists them, or else those of the files.
fn push_listed<R: Lines, T: Lines, F: Lines, S: Lines, E: Lines>(
    paths: &mut PathsText,
    end: PathEnd,
    sheet: &Sheet<'_, R, T, F, S, E>,
) -> Result<(), AllocError>
    ensures text { OnOk result (paths.new.text.items ≡ paths.old.text.items ++ paths_of end sheet.now) }
    ensures refused { OnOk result (string_bytes paths.new.refused ≡ string_bytes paths.old.refused ++ refused_lines end sheet.now) }
{
    if let Some(skipped) = &sheet.skipped {
        return push_section(paths, end, skipped);
    }
    match &sheet.files {
        None => Ok(()),
        Some(files) => push_section(paths, end, files),
    }
}

/// Makes the paths of a sheet as a text: those of its skipped entries if it lists them, or else those of its files. The sheet is that of a
/// [`Csv`](lc_sheet::Format::Csv), whose lines begin with the path.
///
/// If line feeds end the paths, a path that has a line feed is left out of the text, and gets an error line.
///
/// ```
/// let paths = paths_text(alloc, PathEnd::Nul, &shown.sheet())?;
/// ```
pub fn paths_text<R: Lines, T: Lines, F: Lines, S: Lines, E: Lines>(
    alloc: Global,
    end: PathEnd,
    sheet: &Sheet<'_, R, T, F, S, E>,
) -> Result<PathsText, AllocError>
    ensures text { IfOk result (λ paths. paths.text.items ≡ paths_of end sheet.now) }
    ensures refused { IfOk result (λ paths. string_bytes paths.refused ≡ refused_lines end sheet.now) }
{
    let mut paths = PathsText {
        text: Vec::new(alloc),
        refused: String::new(alloc),
    };
    push_listed(&mut paths, end, sheet)?;
    Ok(paths)
}
