//! The text of a sheet in a format.

ghost use Rattle.std.specs.Prelude.{◌≡◌, IfOk};
ghost use Rattle.lc_formats.specs.Texts.{IsTextIn};

use crate::csv_sheet::csv_text;
use crate::json_sheet::json_text;
use crate::markdown::markdown_text;
use crate::table::table_text;
use crate::tsv::tsv_text;
use lc_sheet::{Format, Lines, Sheet};
use std::alloc::{AllocError, Global};

/// Makes the text of a sheet in a format. A page of HTML has a picture in place of a sheet, so that its sheet has the text of `Table`.
///
/// ```
/// let text = text(alloc, Format::Json, &shown.sheet())?;
/// ```
pub fn text<R: Lines, T: Lines, F: Lines, S: Lines, E: Lines>(
    alloc: Global,
    format: Format,
    sheet: &Sheet<'_, R, T, F, S, E>,
) -> Result<Vec<u8>, AllocError>
    ensures { IfOk result (λ text. IsTextIn format sheet.now text.items) }
{
    match format {
        Format::Tsv => tsv_text(alloc, sheet),
        Format::Table => table_text(alloc, sheet),
        Format::Json => json_text(alloc, sheet),
        Format::Csv => csv_text(alloc, sheet),
        Format::Markdown => markdown_text(alloc, sheet),
    }
}
