//! The filters of a command line. Together with the rule files in the tree, these filters decide which entries are skipped.

ghost use Rattle.std.specs.Prelude.{◌≡◌, ◌++◌, true, map, IfErr, IfOk};
ghost use Rattle.std.specs.Arc.{arc_value};
ghost use Rattle.lc_level.specs.Filters.{narrowed};
ghost use Rattle.lc_level.specs.RuleReads.{shared};
ghost use Rattle.lc_program.specs.Filters.{AnswersExcluded, AnswersFilters, AnswersPatterns, Assigns, IsAttributesCause, LacksAttributes};
ghost use Rattle.lc_program.specs.Filters.{words_of};
ghost use Rattle.lc_program.specs.PathLists.{paths_wanted};
ghost use Rattle.lc_rules.specs.AttrLines.{attribute_file_of};
ghost use Rattle.lc_sheet.specs.AttributeColumns.{attribute_of};

use crate::cause::Cause;
use crate::named_texts::text_in_file;
use crate::rules_file::rule_text_of_file;
use crate::system::System;
use lc_arguments::{FilterRequest, lines_text};
use lc_io::WholeFault;
use lc_level::{Filters, NamedAttributes, OnlyPaths, RuleText, RulesFileFault, read_rule_text};
use lc_rules::{AttrFile, MAX_RULE_BYTES};
use lc_sheet::attribute_of;
use std::alloc::{AllocError, Global};
use std::sync::Arc;

/// Reads the file of `--exclude-from`, if the option is used.
fn excluded<Y: System>(
    alloc: Global,
    system: &Y,
    file: Option<&str>,
) -> Result<Option<RuleText>, Cause>
    ensures { AnswersExcluded (Y.holds system.now) file.entry result }
{
    let Some(file) = file else {
        return Ok(None);
    };
    let text = rule_text_of_file(alloc, system, file)?;
    Ok(Some(text))
}

/// Returns why the file of `--attributes-from` could not be read.
fn attributes_cause<Y: System>(alloc: Global, system: &Y, name: &str, fault: WholeFault) -> Cause
    ensures { IsAttributesCause (Y.holds system.now) (Y.unreads system.now) name.now fault result }
{
    match fault {
        WholeFault::Read => Cause::UnreadAttributes(system.why_unread(alloc, name)),
        WholeFault::TooLong => Cause::AttributesTooLong,
        WholeFault::Memory => Cause::Memory,
    }
}

/// Reads at most [`MAX_RULE_BYTES`] bytes as an attribute file that may define macros.
fn attribute_file(alloc: Global, bytes: &[u8]) -> Result<Arc<AttrFile, Global>, AllocError>
    ensures { IfOk result (λ file. arc_value file ≡ attribute_file_of true bytes.now) }
{
    match AttrFile::read(alloc, bytes, true) {
        Ok(file) => Ok(Arc::new(alloc, file)?),
        Err(_) => Err(AllocError),
    }
}

/// Reads the file of `--attributes-from`, if the option is used, and notes which attributes it names.
fn attributes_from<Y: System>(
    alloc: Global,
    system: &Y,
    file: Option<&str>,
    named: Option<&NamedAttributes>,
) -> Result<Option<Arc<AttrFile, Global>>, Cause>
    ensures read { IfOk result (λ read. Assigns (Y.holds system.now) file.entry (shared read)) }
    ensures unread { IfErr result (LacksAttributes (Y.holds system.now) (Y.unreads system.now) file.entry) }
{
    let Some(name) = file else {
        return Ok(None);
    };
    match text_in_file(alloc, system, MAX_RULE_BYTES as u32, name) {
        Ok(bytes) => {
            if let Some(named) = named {
                named.note(&bytes);
            }
            Ok(Some(attribute_file(alloc, &bytes)?))
        }
        Err(fault) => Err(attributes_cause(alloc, system, name, fault)),
    }
}

/// Reads patterns as the lines of a rule file, if there are any.
fn rules_of_patterns(alloc: Global, patterns: &[&str]) -> Result<Option<RuleText>, RulesFileFault>
    ensures { AnswersPatterns (map (λ pattern. pattern.now) patterns.now) result }
{
    if patterns.is_empty() {
        return Ok(None);
    }
    let Ok(text) = lines_text(alloc, patterns) else {
        return Err(RulesFileFault::Memory);
    };
    match read_rule_text(alloc, &mut text.as_slice()) {
        Ok(text) => Ok(Some(text)),
        Err(fault) => Err(fault),
    }
}

fn push_words(alloc: Global, words: &mut Vec<Vec<u8>>, without: &[&str]) -> Result<(), AllocError>
    ensures { IfOk result (λ _. map (λ word. word.items) words.new.items
        ≡ map (λ word. word.items) words.old.items ++ map (λ word. word.now) without.now) }
{
    for word in without {
        let word = word.as_bytes().to_vec(alloc)?;
        words.push(word)?;
    }
    Ok(())
}

/// Makes the list of attributes for which entries are skipped. With `--archive` the list begins with `export-ignore`: `git archive` skips
/// entries with this attribute.
fn words_of(alloc: Global, archive: bool, without: &[&str]) -> Result<Vec<Vec<u8>>, AllocError>
    ensures { IfOk result (λ words. map (λ word. word.items) words.items ≡ words_of archive (map (λ word. word.now) without.now)) }
{
    let mut words = Vec::new(alloc);
    if archive {
        words.push(b"export-ignore".to_vec(alloc)?)?;
    }
    push_words(alloc, &mut words, without)?;
    Ok(words)
}

/// Makes the list of the attributes whose states are in these columns.
fn asked_by(alloc: Global, columns: &[&str]) -> Result<Vec<Vec<u8>>, AllocError>
    ensures { IfOk result (λ asked. map (λ word. word.items) asked.items ≡ map (λ column. attribute_of column.now) columns.now) }
{
    let mut asked = Vec::with_capacity(alloc, columns.len())?;
    for column in columns {
        asked.push(attribute_of(column).as_bytes().to_vec(alloc)?)?;
    }
    Ok(asked)
}

/// Returns these paths, sorted, or all of a tree if they are `None`.
fn only_of<'p>(
    alloc: Global,
    wanted: &'p Option<Vec<&'_ [u8]>>,
) -> Result<OnlyPaths<'p>, AllocError>
    ensures { IfOk result (λ only. only ≡ paths_wanted wanted.entry.now) }
{
    match wanted {
        None => Ok(OnlyPaths::none(alloc)),
        Some(paths) => OnlyPaths::new(alloc, paths),
    }
}

/// Returns the filters with these paths as the paths to count. If they are `None`, the whole tree is counted.
pub(crate) fn narrowed<'p>(
    alloc: Global,
    filters: Filters<'_>,
    wanted: &'p Option<Vec<&'_ [u8]>>,
) -> Result<Filters<'p>, AllocError>
    ensures { IfOk result (λ f. f ≡ narrowed filters.entry (paths_wanted wanted.entry.now)) }
{
    let only = only_of(alloc, wanted)?;
    Ok(Filters {
        exclude_from: filters.exclude_from,
        attributes_from: filters.attributes_from,
        exclude: filters.exclude,
        include: filters.include,
        no_ignore: filters.no_ignore,
        without: filters.without,
        only,
        asked: filters.asked,
    })
}

/// Reads the filters of a command line, except the paths of `--only` and `--only-from`, and notes which attributes the file of
/// `--attributes-from` names. Files are to have the states that are in `columns`.
pub(crate) fn read_filters<'p, Y: System>(
    alloc: Global,
    system: &Y,
    asked: &FilterRequest<'_>,
    columns: &[&str],
    named: Option<&NamedAttributes>,
) -> Result<Filters<'p>, Cause>
    ensures { AnswersFilters (Y.holds system.now) (Y.unreads system.now) asked.now
        (map (λ column. attribute_of column.now) columns.now) result }
{
    let exclude_from = excluded(alloc, system, asked.exclude_from)?;
    let attributes_from = attributes_from(alloc, system, asked.attributes_from, named)?;
    let exclude = rules_of_patterns(alloc, &asked.exclude)?;
    let include = rules_of_patterns(alloc, &asked.include)?;
    let without = words_of(alloc, asked.archive, &asked.without)?;
    let names = asked_by(alloc, columns)?;
    Ok(Filters {
        exclude_from,
        attributes_from,
        exclude,
        include,
        no_ignore: asked.no_ignore,
        without,
        only: OnlyPaths::none(alloc),
        asked: names,
    })
}
