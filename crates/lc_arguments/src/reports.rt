//! The reports of a sum, as in `lc sum v1=v1.json v2=v2.json`.

ghost use Rattle.std.specs.Prelude.{◌≡◌, IfOk, is_some, map, not, option_map};
ghost use Rattle.std.specs.List.{find, list_all, list_any};
ghost use Rattle.clap.specs.Matches.{found_of};
ghost use Rattle.clap.specs.Walk.{rows_of};
ghost use Rattle.lc_arguments.specs.{Explained.AnswersReports, Words.reports_read};
ghost use Rattle.lc_arguments.specs.Reports.{is_good_report, is_input, named_of, read_input_once, report_model};

use crate::directories::or_default;
use crate::request::{ParseExit, unfit_word};
use clap::ArgMatches;
use lc_glob::path::is_good_name;
use std::alloc::{AllocError, Global};

/// A report of `lc sum`, and the name that is put in front of the report's paths.
#[derive(Clone, Copy)]
pub struct NamedReport<'w> {
    /// The typed name, or `None` if no name was typed. The name is valid as the name of a directory.
    pub name: Option<&'w str>,
    /// The path of the report, as it was typed. `-` is standard input.
    pub report: &'w str,
}

impl<'w> NamedReport<'w> {
    /// Reads an argument `REPORT` or `NAME=REPORT`. An argument with a slash before its first `=` has no name.
    fn of(word: &'w str) -> NamedReport<'w>
        ensures { report_model result ≡ named_of word.entry.now }
    {
        let unnamed = NamedReport {
            name: None,
            report: word,
        };
        let Some((name, report)) = word.split_once('=') else {
            return unnamed;
        };
        if name.as_bytes().contains(&b'/') {
            return unnamed;
        }
        NamedReport {
            name: Some(name),
            report,
        }
    }

    /// Returns whether the report's path is not empty, and the name, if there is one, can be the name of a directory.
    fn is_good(self) -> bool
        ensures { result ≡ is_good_report (report_model self.entry) }
    {
        let is_named = match self.name {
            None => true,
            Some(name) => is_good_name(name.as_bytes()),
        };
        self.report != "" && is_named
    }
}

/// Returns whether the report that an argument names is `-`, standard input.
fn is_input(word: &str) -> bool
    ensures { result ≡ is_input word.now }
{
    NamedReport::of(word).report == "-"
}

/// Finds the first word that is not a valid `[NAME=]REPORT`.
fn first_bad<'w>(words: &[&'w str]) -> Option<&'w str>
    ensures some { is_some result ≡ not (list_all (λ word. is_good_report (named_of word)) (map (λ word. word.now) words.now)) }
    ensures first { option_map (λ word. word.now) result
        ≡ find (λ word. not (is_good_report (named_of word))) (map (λ word. word.now) words.now) }
{
    let mut rest = words;
    'rest: while let [word, others @ ..] = rest {
        if !NamedReport::of(word).is_good() {
            return Some(word);
        }
        rest = others;
    }
    None
}

/// Finds the first word that names standard input.
fn first_input<'w>(words: &[&'w str]) -> Option<&'w str>
    ensures { is_some result ≡ list_any is_input (map (λ word. word.now) words.now) }
{
    let mut rest = words;
    'rest: while let [word, others @ ..] = rest {
        if is_input(word) {
            return Some(word);
        }
        rest = others;
    }
    None
}

/// Finds the second word that names standard input.
fn second_input<'w>(words: &[&'w str]) -> Option<&'w str>
    ensures { is_some result ≡ not (read_input_once (map (λ word. word.now) words.now)) }
{
    let mut rest = words;
    'rest: while let [word, others @ ..] = rest {
        if is_input(word) {
            return first_input(others);
        }
        rest = others;
    }
    None
}

/// Reads words, each of which is a valid `[NAME=]REPORT`.
fn named<'w>(alloc: Global, words: &[&'w str]) -> Result<Vec<NamedReport<'w>>, AllocError>
    ensures { IfOk result (λ reports. map report_model reports.items ≡ map (λ word. named_of word.now) words.now) }
{
    let mut reports = Vec::new(alloc);
    for word in words {
        reports.push(NamedReport::of(word))?;
    }
    Ok(reports)
}

/// Reads words, or makes a refusal if one is not a valid `[NAME=]REPORT`, or if two name standard input.
fn reports_of<'w>(alloc: Global, words: &[&'w str]) -> Result<Vec<NamedReport<'w>>, ParseExit>
    ensures { AnswersReports (map (λ word. word.now) words.now) result }
{
    if let Some(word) = first_bad(words) {
        return Err(unfit_word(
            alloc,
            "invalid value ",
            word,
            " for '[NAME=]REPORT': a REPORT is not empty, and a NAME is not empty, '.' or '..'",
        ));
    }
    if let Some(word) = second_input(words) {
        let why = " is standard input again, which is read once";
        return Err(unfit_word(alloc, "", word, why));
    }
    match named(alloc, words) {
        Ok(reports) => Ok(reports),
        Err(AllocError) => Err(ParseExit::Memory),
    }
}

/// Reads the reports from clap's values, in their order. If clap has no values, the only report is standard input.
pub(crate) fn reports_in<'w>(
    alloc: Global,
    matches: &ArgMatches<'w>,
) -> Result<Vec<NamedReport<'w>>, ParseExit>
    ensures { AnswersReports (reports_read (rows_of (found_of matches.now))) result }
{
    let words = matches.get_strs("REPORT").unwrap_or(&[]);
    match or_default(alloc, words, "-") {
        Ok(words) => reports_of(alloc, &words),
        Err(AllocError) => Err(ParseExit::Memory),
    }
}
