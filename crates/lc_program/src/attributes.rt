//! The columns of attributes and of languages that the command line names, and the attributes to look for in attribute files.

ghost use Rattle.std.specs.Prelude.{◌≡◌, ◌++◌, IfOk, OnOk};
ghost use Rattle.std.specs.List.{filter_map};
ghost use Rattle.lc_level.specs.NamedAttributes.{attributes_of, noted};
ghost use Rattle.lc_program.specs.LanguageColumns.{HasLanguages, language_place};
ghost use Rattle.lc_program.specs.WalkRequests.{columns_of, named_in, own_attribute};

use lc_arguments::WalkRequest;
use lc_languages::{LANGUAGES, in_languages};
use lc_level::NamedAttributes;
use lc_sheet::{AttributeColumn, attribute_of};
use lc_walk::Report;
use std::alloc::{AllocError, Global};

/// Makes the columns with these names.
pub(crate) fn columns_of(alloc: Global, names: &[&str]) -> Result<Vec<AttributeColumn>, AllocError>
    ensures { IfOk result (λ columns. columns.items ≡ columns_of names.now) }
{
    let mut columns = Vec::with_capacity(alloc, names.len())?;
    for name in names {
        columns.push(AttributeColumn::of(alloc, name)?)?;
    }
    Ok(columns)
}

fn language_place(columns: &[AttributeColumn]) -> Option<usize>
    ensures { result ≡ language_place columns.now }
{
    columns.iter().position(|column| column.name() == "lang")
}

/// Gives the files of a report their languages, if one of the columns shows these.
pub(crate) fn with_languages(
    alloc: Global,
    report: Report,
    columns: &[AttributeColumn],
) -> Result<Report, AllocError>
    ensures { IfOk result (HasLanguages columns.now report) }
{
    match language_place(columns) {
        None => Ok(report),
        Some(place) => in_languages(alloc, report, LANGUAGES.as_bytes(), place),
    }
}

/// Appends the attributes that columns name.
fn push_attributes<'w>(words: &mut Vec<&'w str>, columns: &[&'w str]) -> Result<(), AllocError>
    ensures { OnOk result (attributes_of words.new.items ≡ attributes_of words.old.items ++ filter_map own_attribute columns.now) }
{
    for column in columns {
        if *column != "lang" {
            words.push(attribute_of(column))?;
        }
    }
    Ok(())
}

/// Makes the list of the attributes that the command line names: those of `--without`, and those of columns.
pub(crate) fn named_attributes<'w>(
    alloc: Global,
    walk: &WalkRequest<'w>,
    columns: &[&'w str],
) -> Result<NamedAttributes, AllocError>
    ensures { IfOk result (λ named. noted named ≡ named_in walk.now columns.now) }
{
    let mut words = walk.filters.without.to_vec(alloc)?;
    push_attributes(&mut words, columns)?;
    let named = NamedAttributes::new(alloc, &words)?;
    Ok(named)
}
