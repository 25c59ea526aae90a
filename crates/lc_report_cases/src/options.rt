//! Options of a command line, as a column of a case has them.

use lc_arguments::{ParseExit, Request};
use lc_sheet::AttributeColumn;
use lc_tests::cases::text_of;
use std::alloc::{AllocError, Global};

/// Returns these words, followed by those of a column.
pub(crate) fn words_of<'a>(
    alloc: Global,
    first: &[&'a str],
    column: &'a [u8],
) -> Result<Vec<&'a str>, AllocError> {
    let mut words = first.to_vec(alloc)?;
    for word in text_of(column).split_ascii_whitespace() {
        words.push(word)?;
    }
    Ok(words)
}

/// Makes the columns of attributes with these names.
pub(crate) fn attributes_of(
    alloc: Global,
    names: &[&str],
) -> Result<Vec<AttributeColumn>, AllocError> {
    let mut columns = Vec::new(alloc);
    for name in names {
        columns.push(AttributeColumn::of(alloc, name)?)?;
    }
    Ok(columns)
}

/// Returns the answer of a case whose options are refused.
pub(crate) fn refusal(
    alloc: Global,
    refused: Result<Request<'_>, ParseExit>,
) -> Result<String, AllocError> {
    match refused {
        Err(ParseExit::Refused(why)) => Ok(why),
        Err(ParseExit::Memory) => Err(AllocError),
        _ => String::from_str(alloc, "other options"),
    }
}
