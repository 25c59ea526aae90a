//! The text of a condition on files: a column, an operator and values.

ghost use Rattle.std.specs.Prelude.{◌≡◌, map, option_map};
ghost use Rattle.lc_arguments.specs.Texts.{after_front};
ghost use Rattle.lc_arguments.specs.ConditionWords.{can_have, can_have_all, compares_sides};
ghost use Rattle.lc_arguments.specs.ConditionWords.{column_among, column_at, comparison_of, condition_columns, condition_of};
ghost use Rattle.lc_arguments.specs.ConditionWords.{is_after_dot, list_condition, number_in, operator_at};
ghost use Rattle.lc_arguments.specs.ConditionWords.{digits_from, is_digit, with_digit, without_spaces};

use crate::attributes::{column_tested, place_of};
use lc_glob::cut_at_first;
use lc_sheet::{Column, Comparison, Condition, Key, Number, Test};

/// Returns the rest of a text after `front`, if the text begins with `front`.
pub(crate) fn after_front<'w>(front: &[u8], text: &'w [u8]) -> Option<&'w [u8]>
    ensures { option_map (λ rest. rest.now) result ≡ after_front front.now text.entry.now }
{
    text.strip_prefix(front)
}

/// Drops the spaces at the beginning of a text.
fn without_spaces(text: &[u8]) -> &[u8]
    ensures { result.now ≡ without_spaces text.entry.now }
{
    let mut left = text;
    'spaces: while let [b' ', rest @ ..] = left {
        left = rest;
    }
    left
}

/// Returns the columns that conditions may use.
fn condition_columns() -> &'static [Column]
    ensures { result.now ≡ condition_columns }
{
    &[
        Column::Key(Key::Ext),
        Column::Key(Key::Text),
        Column::Key(Key::Eol),
        Column::Number(Number::Lines),
        Column::Number(Number::Blank),
        Column::Number(Number::Bytes),
        Column::Change,
    ]
}

/// Finds the column with a fixed name that begins a text, and returns it with the text after the name.
fn column_among(text: &[u8]) -> Option<(Column, &[u8])>
    ensures { option_map (λ found. (found.0, found.1.now)) result ≡ column_among condition_columns text.entry.now }
{
    let mut columns = condition_columns();
    'columns: while let [column, others @ ..] = columns {
        if let Some(rest) = after_front(column.word(&[]).as_bytes(), text) {
            return Some((*column, rest));
        }
        columns = others;
    }
    None
}

/// Finds the column whose name begins a text, and returns it with the text after the name. The places of columns of attributes and of
/// languages are those among `attributes`.
fn column_at<'w>(attributes: &[&str], text: &'w [u8]) -> Option<(Column, &'w [u8])>
    ensures { option_map (λ found. (found.0, found.1.now)) result
        ≡ column_at (map (λ attribute. attribute.now) attributes.now) text.entry.now }
{
    let (tested, rest) = column_tested(text);
    match tested {
        None => column_among(text),
        Some(attribute) => {
            let place = place_of(attribute, attributes);
            Some((Column::Key(Key::Attribute(place)), rest))
        }
    }
}

/// Returns the operator that consists of a byte and, if `equals`, of an equals sign after the byte.
fn comparison_of(byte: u8, equals: bool) -> Option<Comparison>
    ensures { result ≡ comparison_of byte equals }
{
    if equals {
        match byte {
            b'!' => Some(Comparison::Unequal),
            b'<' => Some(Comparison::AtMost),
            b'>' => Some(Comparison::AtLeast),
            _ => None,
        }
    } else {
        match byte {
            b'=' => Some(Comparison::Equal),
            b'<' => Some(Comparison::Less),
            b'>' => Some(Comparison::Greater),
            _ => None,
        }
    }
}

/// Reads the operator that begins a text, and returns it with the text after it.
fn operator_at(text: &[u8]) -> Option<(Comparison, &[u8])>
    ensures { option_map (λ found. (found.0, found.1.now)) result ≡ operator_at text.entry.now }
{
    let (first, rest) = text.split_first()?;
    match after_front(b"=", rest) {
        Some(values) => Some((comparison_of(*first, true)?, values)),
        None => Some((comparison_of(*first, false)?, rest)),
    }
}

/// Returns whether these bytes can follow the dot of a file's extension. `None` means that there is no dot.
fn is_after_dot(rest: Option<&[u8]>) -> bool
    ensures { result ≡ is_after_dot (option_map (λ r. r.now) rest.entry) }
{
    match rest {
        None => false,
        Some(rest) => !rest.is_empty() && !rest.contains(&b'.') && !rest.contains(&b'/'),
    }
}

/// Returns whether a text can be a value of a column, such as `crlf` for the column `eol`. For a column of numbers the result is false.
fn can_have(column: Column, text: &[u8]) -> bool
    ensures { result ≡ can_have column text.now }
{
    match column {
        Column::Key(Key::Ext) => text == b"-".as_slice() || is_after_dot(after_front(b".", text)),
        Column::Key(Key::Text) => {
            text == b"set".as_slice()
                || text == b"unset".as_slice()
                || text == b"auto".as_slice()
                || text == b"other".as_slice()
                || text == b"-".as_slice()
        }
        Column::Key(Key::Eol) => {
            text == b"none".as_slice()
                || text == b"lf".as_slice()
                || text == b"crlf".as_slice()
                || text == b"cr".as_slice()
                || text == b"mixed".as_slice()
                || text == b"nul".as_slice()
        }
        Column::Key(Key::Attribute(_)) => true,
        Column::Change => {
            text == b"added".as_slice()
                || text == b"changed".as_slice()
                || text == b"removed".as_slice()
                || text == b"same".as_slice()
        }
        _ => false,
    }
}

/// Returns whether each of these values, which commas separate, can be a value of the column.
fn can_have_all(column: Column, texts: &[u8]) -> bool
    ensures { result ≡ can_have_all column texts.now }
{
    let mut left = Some(texts);
    'texts: while let Some(rest) = left {
        let (text, others) = cut_at_first(b',', rest);
        if !can_have(column, text) {
            return false;
        }
        left = others;
    }
    true
}

/// Appends a digit to a number, unless the byte is no digit or the number would reach 2^64.
fn with_digit(number: u64, byte: u8) -> Option<u64>
    ensures { result ≡ with_digit number byte }
{
    if !byte.is_ascii_digit() {
        return None;
    }
    number.checked_mul(10)?.checked_add(u64::from(byte - b'0'))
}

/// Reads a number below 2^64 that consists of digits.
pub(crate) fn number_in(text: &[u8]) -> Option<u64>
    ensures { result ≡ number_in text.now }
{
    if text.is_empty() {
        return None;
    }
    let mut number = 0;
    let mut left = text;
    'digits: while let [byte, rest @ ..] = left {
        number = with_digit(number, *byte)?;
        left = rest;
    }
    Some(number)
}

/// Makes the condition that a column has one of these values (`=`), or none of them (`!=`). Commas separate the values.
fn list_condition(column: Column, comparison: Comparison, texts: &[u8]) -> Option<Condition<'_>>
    ensures { result ≡ list_condition column comparison texts.entry.now }
{
    if !can_have_all(column, texts) {
        return None;
    }
    match comparison {
        Comparison::Equal => Some(Condition {
            column,
            test: Test::OneOf(texts),
        }),
        Comparison::Unequal => Some(Condition {
            column,
            test: Test::NoneOf(texts),
        }),
        _ => None,
    }
}

/// Reads a condition, such as `eol=crlf,mixed` or `lines > 1000`. The places of columns of attributes and of languages are those among
/// `attributes`.
pub(crate) fn condition_of<'w>(attributes: &[&str], text: &'w [u8]) -> Option<Condition<'w>>
    ensures { result ≡ condition_of (map (λ attribute. attribute.now) attributes.now) text.entry.now }
{
    let (column, rest) = column_at(attributes, text)?;
    let (comparison, values) = operator_at(without_spaces(rest))?;
    let values = without_spaces(values);
    match column {
        Column::Number(_) => Some(Condition {
            column,
            test: Test::Compared(comparison, number_in(values)?),
        }),
        _ => list_condition(column, comparison, values),
    }
}

/// Returns whether the column of a text is `change`, which compares two sides.
pub(crate) fn compares_sides(text: &[u8]) -> bool
    ensures { result ≡ compares_sides text.now }
{
    matches!(column_at(&[], text), Some((Column::Change, _)))
}

/// Returns the end of a usage error about a column: the operators and values that a condition on the column can have.
fn values_of(column: Column) -> &'static str {
    match column {
        Column::Key(Key::Ext) => {
            ": ext takes '=' or '!=', and extensions such as .c, separated by commas; - is none"
        }
        Column::Key(Key::Text) => {
            ": text takes '=' or '!=', and set, unset, auto, other or -, separated by commas"
        }
        Column::Key(Key::Eol) => {
            ": eol takes '=' or '!=', and none, lf, crlf, cr, mixed or nul, separated by commas"
        }
        Column::Change => {
            ": change takes '=' or '!=', and added, changed, removed or same, separated by commas"
        }
        Column::Key(_) =>
            ": an attribute takes '=' or '!=', and values, set, unset or -, separated by commas",
        _ => ": a number has digits alone, and is below 18446744073709551616",
    }
}

/// Returns the end of a usage error about a text: why the text is no condition.
pub(crate) fn why_no_condition(text: &[u8]) -> &'static str {
    if text.starts_with(b"dir") || text.starts_with(b"path") {
        return ": --only and --include choose directories and paths";
    }
    if text.starts_with(b"size") {
        return ": the column of a file's size is bytes";
    }
    let has_operator = text.contains(&b'=')
        || text.contains(&b'!')
        || text.contains(&b'<')
        || text.contains(&b'>');
    if !has_operator {
        return ": it has no operator; quote a condition, as in --where 'lines>1000'";
    }
    let (tested, _) = column_tested(text);
    if text.starts_with(b"attr:") && tested.is_none() {
        return ": an attribute's name has letters, digits, '-', '.' and '_', and does not begin with '-'";
    }
    let Some((column, rest)) = column_at(&[], text) else {
        return ": the columns are lang, ext, text, eol, attr:NAME, lines, blank and bytes; lc diff has change, too";
    };
    match operator_at(without_spaces(rest)) {
        None => ": after the column comes one of =, !=, <, <=, > and >=",
        Some(_) if tested == Some("lang") => {
            ": lang takes '=' or '!=', and languages such as C++, separated by commas; - is none"
        }
        Some(_) => values_of(column),
    }
}
