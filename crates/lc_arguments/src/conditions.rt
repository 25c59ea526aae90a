//! The conditions of `--where` and `--no-binary`.

ghost use Rattle.std.specs.Prelude.{map};
ghost use Rattle.clap.specs.Matches.{found_of};
ghost use Rattle.clap.specs.Walk.{rows_of};
ghost use Rattle.lc_arguments.specs.Explained.{AnswersConditions, AnswersOneCondition, AnswersWhere};

use crate::attributes::attributes_of;
use crate::changes::kinds_without;
use crate::condition_text::{condition_of, why_no_condition};
use crate::request::{ParseExit, refused};
use clap::ArgMatches;
use lc_sheet::{ChangeKinds, Column, Condition, Key, Test};
use std::alloc::Global;

/// Which files are shown, and the columns that this takes.
#[derive(Drop)]
pub(crate) struct Where<'w> {
    /// The columns of attributes and of languages: first those of `--by`, and then the others that conditions test.
    pub(crate) attributes: Vec<&'w str>,
    /// The conditions of `--where`, but for those on `change`, and then that of `--no-binary`.
    pub(crate) conditions: Vec<Condition<'w>>,
    /// The kinds of files that all conditions on `change` allow.
    pub(crate) changes: ChangeKinds,
}

/// Reads a condition. Appends it to `conditions`, or returns `changes` without the kinds that it does not allow if it is on `change`.
fn push_condition<'w>(
    alloc: Global,
    attributes: &[&str],
    conditions: &mut Vec<Condition<'w>>,
    changes: ChangeKinds,
    text: &'w str,
) -> Result<ChangeKinds, ParseExit>
    ensures { AnswersOneCondition (map (λ attribute. attribute.now) attributes.now) text.entry.now changes conditions.old.items
        conditions.new.items result }
{
    let Some(condition) = condition_of(attributes, text.as_bytes()) else {
        let why = why_no_condition(text.as_bytes());
        return Err(refused(alloc, "where", text, why));
    };
    if matches!(condition.column, Column::Change) {
        return Ok(kinds_without(changes, &condition));
    }
    match conditions.push(condition) {
        Ok(()) => Ok(changes),
        Err(_) => Err(ParseExit::Memory),
    }
}

/// Reads the conditions in some texts, and adds the condition of `--no-binary` if that option was used. Also returns the kinds of files that
/// all conditions on `change` allow. The places of columns of attributes and of languages are those among `attributes`.
fn conditions_of<'w>(
    alloc: Global,
    attributes: &[&str],
    texts: &[&'w str],
    no_binary: bool,
) -> Result<(Vec<Condition<'w>>, ChangeKinds), ParseExit>
    ensures { AnswersConditions (map (λ attribute. attribute.now) attributes.now) (map (λ text. text.now) texts.now) no_binary result }
{
    let mut conditions = Vec::new(alloc);
    let mut changes = ChangeKinds::ALL;
    let mut left = texts;
    'texts: while let [text, others @ ..] = left {
        changes = push_condition(alloc, attributes, &mut conditions, changes, text)?;
        left = others;
    }
    if no_binary {
        let column = Column::Key(Key::Eol);
        let test = Test::NoneOf(b"nul");
        if conditions.push(Condition { column, test }).is_err() {
            return Err(ParseExit::Memory);
        }
    }
    Ok((conditions, changes))
}

impl<'w> Where<'w> {
    /// Reads from clap's values which files are shown.
    pub(crate) fn read(alloc: Global, matches: &ArgMatches<'w>) -> Result<Where<'w>, ParseExit>
        ensures { AnswersWhere (rows_of (found_of matches.now)) result }
    {
        let by = matches.get_str("by");
        let texts = matches.get_strs("where").unwrap_or(&[]);
        let no_binary = matches.get_flag("no-binary");
        let attributes = match attributes_of(alloc, by, texts) {
            Ok(attributes) => attributes,
            Err(no) => return Err(no),
        };
        match conditions_of(alloc, &attributes, texts, no_binary) {
            Ok((conditions, changes)) => Ok(Where {
                attributes,
                conditions,
                changes,
            }),
            Err(no) => Err(no),
        }
    }
}
