//! Conditions on files: a column, and a test of a file's value in the column.

ghost use Rattle.std.specs.Prelude.{◌≡◌, false};
ghost use Rattle.std.specs.List.{list_any};
ghost use Rattle.lc_sheet.specs.Conditions.{comma, compares, has_text, is_on_files, meets, needs_files, number_of, test_model};
ghost use Rattle.lc_sheet.specs.Values.{value_model};
ghost use Rattle.lc_sheet.specs.declared.value.Value.TheVariants as values;
ghost use Rattle.lc_glob.specs.Pieces.{pieces_of};

use crate::column::Column;
use crate::key::Key;
use crate::value::{Value, flag_word};
use lc_glob::cut_at_first;
use lc_text::Name;
use std::marker::Model;

/// How a number is compared with another.
#[derive(Debug, Clone, Copy, PartialEq, Eq)]
pub enum Comparison {
    /// `<`
    Less,
    /// `<=`
    AtMost,
    /// `=`
    Equal,
    /// `!=`
    Unequal,
    /// `>=`
    AtLeast,
    /// `>`
    Greater,
}

/// A test of a value.
#[derive(Clone, Copy)]
pub enum Test<'w> {
    /// The value is one of these texts, which commas separate.
    OneOf(&'w [u8]),
    /// The value is none of these texts, which commas separate.
    NoneOf(&'w [u8]),
    /// The value compares with this number as the `Comparison` says. For example, the value is greater than 1000.
    Compared(Comparison, u64),
}

/// A condition on files, such as `eol=crlf,mixed` or `lines>1000`: a column, and a test of a file's value in the column.
#[derive(Drop)]
pub struct Condition<'w> {
    /// The column: an attribute, `Ext`, `Text`, `Eol`, or the number of lines, blank lines or bytes.
    pub column: Column,
    /// The test of a file's value in the column.
    pub test: Test<'w>,
}

impl<'w> Model for Condition<'w> {
    ghost use Rattle.lc_sheet.specs.Conditions.{ConditionModel, test_model};

    ghost Value = { ConditionModel };

    ghost view = { λ c. record { column = c.column; test = test_model c.test } };
}

impl Comparison {
    /// Returns whether this comparison is true of `number` and `bound`, in this order.
    fn compares(self, number: u128, bound: u128) -> bool
        ensures { result ≡ compares self number bound }
    {
        match self {
            Comparison::Less => number < bound,
            Comparison::AtMost => number <= bound,
            Comparison::Equal => number == bound,
            Comparison::Unequal => number != bound,
            Comparison::AtLeast => number >= bound,
            Comparison::Greater => number > bound,
        }
    }
}

/// Returns whether a text is the front of a name followed by the bytes of the name, such as `.c`.
fn is_name(name: Name<'_>, text: &[u8]) -> bool
    ensures { result ≡ has_text (value_model (values.Name name.entry)) text.now }
{
    match text.strip_prefix(name.front.as_bytes()) {
        None => false,
        Some(bytes) => bytes == name.bytes,
    }
}

/// Returns whether a text on a command line names this value, as `-` names a missing value.
fn has_text(value: Value<'_>, text: &[u8]) -> bool
    ensures { result ≡ has_text (value_model value.entry) text.now }
{
    match value {
        Value::Missing => text == b"-".as_slice(),
        Value::Word(word) => text == word.as_bytes(),
        Value::Flag(is_set) => text == flag_word(is_set).as_bytes(),
        Value::Name(name) => is_name(name, text),
        _ => false,
    }
}

/// Returns whether one of these texts, which commas separate, names the value on a command line.
fn is_among(value: Value<'_>, texts: &[u8]) -> bool
    ensures { result ≡ list_any (has_text (value_model value.entry)) (pieces_of comma texts.now) }
{
    let mut left = Some(texts);
    'texts: while let Some(rest) = left {
        let (text, others) = cut_at_first(b',', rest);
        if has_text(value, text) {
            return true;
        }
        left = others;
    }
    false
}

/// Returns the number that a value holds, or 0 if the value is not a number.
fn number_of(value: Value<'_>) -> u128
    ensures { result ≡ number_of (value_model value.entry) }
{
    match value {
        Value::Number(number) => number,
        _ => 0,
    }
}

impl Condition<'_> {
    /// Returns whether a file with this value in the column meets the condition.
    pub fn holds(&self, value: Value<'_>) -> bool
        ensures { result ≡ meets self.now.test (value_model value.entry) }
    {
        match self.test {
            Test::OneOf(texts) => is_among(value, texts),
            Test::NoneOf(texts) => !is_among(value, texts),
            Test::Compared(comparison, bound) => {
                comparison.compares(number_of(value), u128::from(bound))
            }
        }
    }

    /// Returns whether the condition is on a number, such as `lines>1000`, or on an attribute. Only a file can be tested with such a
    /// condition, because the numbers of a row are sums over files, and a report's own rows have no attributes but `text`.
    pub fn is_on_files(&self) -> bool
        ensures { result ≡ is_on_files self.now }
    {
        matches!(
            self.column,
            Column::Number(_) | Column::Key(Key::Attribute(_))
        )
    }
}

/// Returns whether one of the conditions is on a number or on an attribute. If so, only a report that lists its files can show which files
/// meet the conditions.
pub fn needs_files(conditions: &[Condition<'_>]) -> bool
    ensures { result ≡ needs_files conditions.now }
{
    conditions.iter().any(|condition| condition.is_on_files())
}
