//! The words for which files are shown, such as `where ext=.c, without build/`.

ghost use Rattle.std.specs.Prelude.{◌≡◌, ◌++◌, IfOk, OnOk, codes};
ghost use Rattle.std.specs.List.{join_with_byte};
ghost use Rattle.lc_glob.specs.Pieces.{pieces_of};
ghost use Rattle.lc_sheet.specs.Conditions.{comma, test_model};
ghost use Rattle.lc_program.specs.Chosen.{condition_text, each_after, file_after, filter_parts, sign_of, test_text, walk_parts};
ghost use Rattle.lc_program.specs.Chosen.{where_parts, with_part, with_parts, word_if};

use lc_arguments::{FilterRequest, WalkRequest};
use lc_sheet::{AttributeColumn, Comparison, Condition, Test};
use std::alloc::{AllocError, Global};

fn sign_of(comparison: Comparison) -> &'static str
    ensures { result.now ≡ sign_of comparison }
{
    match comparison {
        Comparison::Less => "<",
        Comparison::AtMost => "<=",
        Comparison::Equal => "=",
        Comparison::Unequal => "!=",
        Comparison::AtLeast => ">=",
        Comparison::Greater => ">",
    }
}

/// Appends values, which commas separate, after a sign.
fn push_values(text: &mut Vec<u8>, sign: &[u8], texts: &[u8]) -> Result<(), AllocError>
    ensures { OnOk result (text.new.items ≡ text.old.items ++ (sign.now ++ join_with_byte comma (pieces_of comma texts.now))) }
{
    text.extend_from_slice(sign)?;
    text.extend_from_slice(texts)?;
    Ok(())
}

/// Appends a test of a column's value, such as `=.c,.h` or `>1000`.
fn push_test(alloc: Global, text: &mut Vec<u8>, test: Test<'_>) -> Result<(), AllocError>
    ensures { OnOk result (text.new.items ≡ text.old.items ++ test_text (test_model test.entry)) }
{
    match test {
        Test::OneOf(texts) => push_values(text, b"=", texts),
        Test::NoneOf(texts) => push_values(text, b"!=", texts),
        Test::Compared(comparison, bound) => {
            text.extend_from_slice(sign_of(comparison).as_bytes())?;
            let number = format!(in alloc; "{bound}")?;
            text.extend_from_slice(number.as_bytes())
        }
    }
}

/// Makes the text of a condition, such as `lines>1000`.
fn condition_text(
    alloc: Global,
    columns: &[AttributeColumn],
    condition: &Condition<'_>,
) -> Result<Vec<u8>, AllocError>
    ensures { IfOk result (λ text. text.items ≡ condition_text columns.now condition.now) }
{
    let mut text = condition.column.word(columns).as_bytes().to_vec(alloc)?;
    push_test(alloc, &mut text, condition.test)?;
    Ok(text)
}

/// Appends a phrase and a value, after a comma unless they are the first.
pub(crate) fn push_part(text: &mut Vec<u8>, phrase: &[u8], value: &[u8]) -> Result<(), AllocError>
    ensures { OnOk result (text.new.items ≡ with_part text.old.items (phrase.now ++ value.now)) }
{
    if !text.is_empty() {
        text.extend_from_slice(b", ")?;
    }
    text.extend_from_slice(phrase)?;
    text.extend_from_slice(value)
}

/// Appends values, each after a phrase.
fn push_each(text: &mut Vec<u8>, phrase: &[u8], values: &[&str]) -> Result<(), AllocError>
    ensures { OnOk result (text.new.items ≡ with_parts text.old.items (each_after phrase.now values.now)) }
{
    for value in values {
        push_part(text, phrase, value.as_bytes())?;
    }
    Ok(())
}

/// Appends the name of a file after a phrase, if a file is named.
fn push_file(text: &mut Vec<u8>, phrase: &[u8], file: Option<&str>) -> Result<(), AllocError>
    ensures { OnOk result (text.new.items ≡ with_parts text.old.items (file_after phrase.now file.entry)) }
{
    match file {
        None => Ok(()),
        Some(file) => push_part(text, phrase, file.as_bytes()),
    }
}

/// Appends a phrase if an option is used.
fn push_if(text: &mut Vec<u8>, is_used: bool, phrase: &[u8]) -> Result<(), AllocError>
    ensures { OnOk result (text.new.items ≡ with_parts text.old.items (word_if is_used phrase.now)) }
{
    if is_used {
        push_part(text, phrase, b"")?;
    }
    Ok(())
}

/// Appends the conditions on files.
pub(crate) fn push_conditions(
    alloc: Global,
    text: &mut Vec<u8>,
    columns: &[AttributeColumn],
    conditions: &[Condition<'_>],
) -> Result<(), AllocError>
    ensures { OnOk result (text.new.items ≡ with_parts text.old.items (where_parts columns.now conditions.now)) }
{
    for condition in conditions {
        let made = condition_text(alloc, columns, condition)?;
        push_part(text, b"where ", &made)?;
    }
    Ok(())
}

/// Appends the options that decide, together with rule files, which entries are skipped.
fn push_filters(text: &mut Vec<u8>, asked: &FilterRequest<'_>) -> Result<(), AllocError>
    ensures { OnOk result (text.new.items ≡ filter_parts text.old.items asked.now) }
{
    push_each(text, b"without ", &asked.exclude)?;
    push_file(text, b"without what is in ", asked.exclude_from)?;
    push_each(text, b"without attribute ", &asked.without)?;
    push_if(text, asked.archive, b"without attribute export-ignore")?;
    push_each(text, b"like ", &asked.include)?;
    push_if(text, asked.no_ignore, b"ignored or not")
}

/// Appends the paths of `--only`, each after a phrase.
fn push_paths(text: &mut Vec<u8>, paths: &[&[u8]]) -> Result<(), AllocError>
    ensures { OnOk result (text.new.items ≡ with_parts text.old.items (each_after (codes "in ") paths.now)) }
{
    for path in paths {
        push_part(text, b"in ", path)?;
    }
    Ok(())
}

/// Appends the options of a walk that choose files.
pub(crate) fn push_walk(text: &mut Vec<u8>, asked: &WalkRequest<'_>) -> Result<(), AllocError>
    ensures { OnOk result (text.new.items ≡ walk_parts text.old.items asked.now) }
{
    push_filters(text, &asked.filters)?;
    push_paths(text, &asked.only)?;
    push_file(text, b"in the paths of ", asked.only_from)?;
    push_if(text, asked.one_file_system, b"on one file system")
}
