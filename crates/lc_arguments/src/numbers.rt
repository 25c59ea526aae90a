//! The values of `--depth` and `--top`.

ghost use Rattle.std.specs.Prelude.{◌≡◌};
ghost use Rattle.clap.specs.Matches.{found_of};
ghost use Rattle.clap.specs.Walk.{first_of, rows_of};
ghost use Rattle.lc_arguments.specs.Explained.{AnswersNumber};
ghost use Rattle.lc_arguments.specs.ReadNumbers.{number_to};

use crate::condition_text::{after_front, number_in};
use crate::request::{ParseExit, no_number};
use clap::ArgMatches;
use std::alloc::Global;

/// Reads a number from 1 to `most`. A plus sign may be before its digits.
fn number_to(most: u32, text: &str) -> Option<u32>
    ensures { result ≡ number_to most text.now }
{
    let text = text.as_bytes();
    let digits = after_front(b"+", text).unwrap_or(text);
    let number = number_in(digits)?;
    if 1 <= number && number <= u64::from(most) {
        Some(number as u32)
    } else {
        None
    }
}

/// Reads the number of an option from clap's values, if the option is used.
pub(crate) fn number_of(
    alloc: Global,
    matches: &ArgMatches<'_>,
    option: &str,
    most: u32,
) -> Result<Option<u32>, ParseExit>
    ensures { AnswersNumber most (first_of option.now (rows_of (found_of matches.now))) result }
{
    let Some(text) = matches.get_str(option) else {
        return Ok(None);
    };
    match number_to(most, text) {
        None => Err(no_number(alloc, option, text, most)),
        number => Ok(number),
    }
}
