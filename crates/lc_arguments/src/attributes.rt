//! The columns of attributes and of languages that `--by` and `--where` name.

ghost use Rattle.std.specs.Prelude.{◌≡◌, ◌++◌, ◌≤◌, [], ◌∷◌, length, map, option_map, IfOk, OnOk};
ghost use Rattle.std.specs.Bool.{MatchBool};
ghost use Rattle.std.specs.List.{filter_map, position_or_len};
ghost use Rattle.std.specs.Str.{bytes_eq};
ghost use Rattle.lc_glob.specs.Pieces.{pieces_left};
ghost use Rattle.lc_arguments.specs.AttributeWords.{after_name, attribute_named, attributes_asked, attributes_by, column_named};
ghost use Rattle.lc_arguments.specs.AttributeWords.{column_tested, how_often, names_column};
ghost use Rattle.lc_arguments.specs.AttributeWords.{new_names, place_of};
ghost use Rattle.lc_arguments.specs.Explained.{AnswersAttributes};
ghost use Rattle.lc_arguments.specs.Texts.{comma};

use crate::condition_text::after_front;
use crate::request::{ParseExit, refused};
use lc_glob::cut_at_first;
use lc_rules::is_attribute_name;
use std::alloc::{AllocError, Global};
use std::str::from_utf8;

/// The greatest number of attributes that conditions may test.
const MAX_TESTED: usize = 64;

/// Returns this name if it is that of an attribute's column: `attr:NAME`, where an attribute can have the name NAME.
fn attribute_named(name: &[u8]) -> Option<&str>
    ensures { option_map (λ attribute. attribute.now) result ≡ attribute_named name.entry.now }
{
    let attribute = after_front(b"attr:", name)?;
    if !is_attribute_name(attribute) {
        return None;
    }
    match from_utf8(name) {
        Ok(name) => Some(name),
        Err(_) => None,
    }
}

/// Returns this name if it is `lang`, the name of the column of languages, or that of an attribute's column.
fn column_named(name: &[u8]) -> Option<&str>
    ensures { option_map (λ column. column.now) result ≡ column_named name.entry.now }
{
    if name == b"lang".as_slice() {
        return Some("lang");
    }
    attribute_named(name)
}

/// Returns whether a text is the name of an attribute's column, `attr:NAME`, or that of the column of languages, `lang`.
pub(crate) fn names_column(name: &[u8]) -> bool
    ensures { result ≡ names_column name.now }
{
    column_named(name).is_some()
}

/// Drops the name of the column from the text of a condition.
fn after_name(text: &[u8]) -> &[u8]
    ensures { result.now ≡ after_name text.entry.now }
{
    let mut left = text;
    'name: while let [byte, rest @ ..] = left {
        if matches!(*byte, b' ' | b'=' | b'!' | b'<' | b'>') {
            return left;
        }
        left = rest;
    }
    left
}

/// Returns the name of the column that a condition tests, if it is `lang` or that of an attribute, and the text after the name.
pub(crate) fn column_tested(text: &[u8]) -> (Option<&str>, &[u8])
    ensures column { option_map (λ column. column.now) result.0 ≡ column_tested text.entry.now }
    ensures rest { result.1.now ≡ after_name text.entry.now }
{
    let rest = after_name(text);
    let (name, _) = text.split_at(text.len().saturating_sub(rest.len()));
    (column_named(name), rest)
}

/// Returns how many attributes are before this one, or how many there are if it is not among them.
fn count_before(attribute: &str, attributes: &[&str]) -> usize
    ensures count { result ≡ position_or_len (bytes_eq attribute.now) (map (λ name. name.now) attributes.now) }
    ensures bound { result ≤ length attributes.now }
{
    let Some((first, others)) = attributes.split_first() else {
        return 0;
    };
    if attribute == *first {
        0
    } else {
        1 + count_before(attribute, others)
    }
}

/// Returns the place of an attribute among attributes: how many attributes are before it, at most 255.
pub(crate) fn place_of(attribute: &str, attributes: &[&str]) -> u8
    ensures { result ≡ place_of attribute.now (map (λ name. name.now) attributes.now) }
{
    count_before(attribute, attributes).min(255) as u8
}

/// Returns whether a name is among the pieces of a text, which commas separate.
pub(crate) fn is_named(name: &[u8], others: Option<&[u8]>) -> bool
    ensures { MatchBool result (1 ≤ how_often name.now (pieces_left comma others.entry))
        (how_often name.now (pieces_left comma others.entry) ≡ 0) }
{
    let mut left = others;
    'pieces: while let Some(rest) = left {
        let (piece, more) = cut_at_first(b',', rest);
        if name == piece {
            return true;
        }
        left = more;
    }
    false
}

/// Returns the columns that the text of `--by` names: `lang`, and then those of attributes in the order of the text.
fn attributes_by<'w>(alloc: Global, text: Option<&'w str>) -> Result<Vec<&'w str>, AllocError>
    ensures { IfOk result (λ attributes. map (λ attribute. attribute.now) attributes.items
        ≡ attributes_by (option_map (λ s. s.now) text.entry)) }
{
    let mut attributes = Vec::new(alloc);
    let Some(names) = text else {
        return Ok(attributes);
    };
    let mut left = Some(names.as_bytes());
    if is_named(b"lang", left) {
        attributes.push("lang")?;
    }
    'names: while let Some(rest) = left {
        let (name, others) = cut_at_first(b',', rest);
        if let Some(attribute) = attribute_named(name) {
            attributes.push(attribute)?;
        }
        left = others;
    }
    Ok(attributes)
}

/// Adds the name of the column that a condition tests, if it is `lang` or that of an attribute, unless it is there.
fn push_tested<'w>(attributes: &mut Vec<&'w str>, text: &'w str) -> Result<(), AllocError>
    ensures { OnOk result (map (λ attribute. attribute.now) attributes.new.items
        ≡ map (λ attribute. attribute.now) attributes.old.items
        ++ new_names (map (λ attribute. attribute.now) attributes.old.items) (filter_map column_tested (text.entry.now ∷ []))) }
{
    let (tested, _) = column_tested(text.as_bytes());
    let Some(attribute) = tested else {
        return Ok(());
    };
    if count_before(attribute, attributes) >= attributes.len() {
        attributes.push(attribute)?;
    }
    Ok(())
}

/// Returns the columns that are asked for: those of `--by`, and then the others that conditions test.
fn attributes_asked<'w>(
    alloc: Global,
    by: Option<&'w str>,
    texts: &[&'w str],
) -> Result<Vec<&'w str>, AllocError>
    ensures { IfOk result (λ attributes. map (λ attribute. attribute.now) attributes.items
        ≡ attributes_asked (option_map (λ s. s.now) by.entry) (map (λ text. text.now) texts.now)) }
{
    let mut attributes = attributes_by(alloc, by)?;
    for text in texts {
        push_tested(&mut attributes, text)?;
    }
    Ok(attributes)
}

/// Returns the columns that are asked for, if conditions test few of them.
pub(crate) fn attributes_of<'w>(
    alloc: Global,
    by: Option<&'w str>,
    texts: &[&'w str],
) -> Result<Vec<&'w str>, ParseExit>
    ensures { AnswersAttributes (option_map (λ s. s.now) by.entry) (map (λ text. text.now) texts.now) result }
{
    let Ok(tested) = attributes_asked(alloc, None, texts) else {
        return Err(ParseExit::Memory);
    };
    if tested.len() > MAX_TESTED {
        let why = ": conditions test at most 64 attributes";
        return Err(refused(alloc, "where", "...", why));
    }
    match attributes_asked(alloc, by, texts) {
        Ok(attributes) => Ok(attributes),
        Err(AllocError) => Err(ParseExit::Memory),
    }
}
