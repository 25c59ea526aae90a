//! The values of options that may be used several times: attributes of `--without`, patterns of `--exclude` and `--include`.

ghost use Rattle.std.specs.Prelude.{◌≡◌, map, not, is_some, IfOk};
ghost use Rattle.std.specs.List.{list_all};
ghost use Rattle.clap.specs.Matches.{found_of};
ghost use Rattle.clap.specs.Walk.{rows_of};
ghost use Rattle.lc_arguments.specs.Repeated.{are_short, has_one_line, id_of, is_allowed, lines_text};
ghost use Rattle.lc_arguments.specs.{Explained.{AnswersRepeated, IsRefusal}, Words.values_read};

use crate::request::{ParseExit, refused};
use clap::ArgMatches;
use lc_glob::cut_at_first;
use lc_rules::{MAX_RULE_BYTES, is_attribute_name};
use std::alloc::{AllocError, Global};

/// An option that may be used several times, and whose values must have a certain form.
#[derive(Clone, Copy)]
pub(crate) enum Repeated {
    /// `--without ATTR[=VALUE]`
    Attributes,
    /// `--exclude PATTERN`
    Excluded,
    /// `--include PATTERN`
    Included,
}

fn has_one_line(pattern: &str) -> bool
    ensures { result ≡ has_one_line pattern.now }
{
    !pattern.as_bytes().contains(&b'\n')
}

impl Repeated {
    fn name(self) -> &'static str
        ensures { result.now ≡ id_of self }
    {
        match self {
            Repeated::Attributes => "without",
            Repeated::Excluded => "exclude",
            Repeated::Included => "include",
        }
    }

    fn is_allowed(self, value: &str) -> bool
        ensures { result ≡ is_allowed self value.now }
    {
        match self {
            Repeated::Attributes => {
                let (name, _) = cut_at_first(b'=', value.as_bytes());
                is_attribute_name(name)
            }
            Repeated::Excluded => has_one_line(value),
            Repeated::Included => { has_one_line(value) && !matches!(value.as_bytes(), [b'!', ..]) }
        }
    }

    /// Makes the refusal of a value that the option can't have.
    fn refusal(self, alloc: Global, value: &str) -> ParseExit
        ensures { IsRefusal result }
    {
        let why = match self {
            Repeated::Attributes => {
                ": an attribute's name has letters, digits, '-', '.' and '_', and does not begin with '-'"
            }
            Repeated::Excluded => {
                ": a pattern has no line feed, and all of them have at most 1048576 bytes"
            }
            Repeated::Included => {
                ": a pattern has no line feed and does not begin with '!', and all of them have at most 1048576 bytes"
            }
        };
        refused(alloc, self.name(), value, why)
    }
}

/// Makes the text of an ignore file. The text has each element of `lines`, followed by a line feed.
pub fn lines_text(alloc: Global, lines: &[&str]) -> Result<Vec<u8>, AllocError>
    ensures { IfOk result (λ text. text.items ≡ lines_text (map (λ line. line.now) lines.now)) }
{
    let mut text = Vec::new(alloc);
    for line in lines {
        text.extend_from_slice(line.as_bytes())?;
        text.push(b'\n')?;
    }
    Ok(text)
}

/// Returns whether the values of an option are short enough: patterns must fit into one ignore file.
fn are_short(alloc: Global, option: Repeated, values: &[&str]) -> Result<bool, AllocError>
    ensures { IfOk result (λ short. short ≡ are_short option (map (λ value. value.now) values.now)) }
{
    match option {
        Repeated::Attributes => Ok(true),
        Repeated::Excluded | Repeated::Included => {
            let text = lines_text(alloc, values)?;
            Ok(text.len() <= MAX_RULE_BYTES)
        }
    }
}

/// Finds the first value that an option can't have.
fn first_refused<'w>(option: Repeated, values: &[&'w str]) -> Option<&'w str>
    ensures { is_some result ≡ not (list_all (is_allowed option) (map (λ value. value.now) values.now)) }
{
    for value in values {
        if !option.is_allowed(value) {
            return Some(value);
        }
    }
    None
}

/// Copies the values of an option, or makes a refusal if the option can't have all of them.
fn allowed<'w>(
    alloc: Global,
    option: Repeated,
    values: &[&'w str],
) -> Result<Vec<&'w str>, ParseExit>
    ensures { AnswersRepeated option (map (λ value. value.now) values.now) result }
{
    if let Some(value) = first_refused(option, values) {
        return Err(option.refusal(alloc, value));
    }
    let Ok(short) = are_short(alloc, option, values) else {
        return Err(ParseExit::Memory);
    };
    if !short {
        return Err(option.refusal(alloc, "..."));
    }
    match values.to_vec(alloc) {
        Ok(values) => Ok(values),
        Err(AllocError) => Err(ParseExit::Memory),
    }
}

/// Reads the values of an option from clap's values, in their order.
pub(crate) fn values_in<'w>(
    alloc: Global,
    matches: &ArgMatches<'w>,
    option: Repeated,
) -> Result<Vec<&'w str>, ParseExit>
    ensures { AnswersRepeated option (values_read (rows_of (found_of matches.now)) option) result }
{
    let values = matches.get_strs(option.name()).unwrap_or(&[]);
    allowed(alloc, option, values)
}
