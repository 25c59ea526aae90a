//! Makes clap's arguments from the table of options. Also makes clap commands that have a name and help, but no arguments.

ghost use Rattle.std.specs.Prelude.{◌≡◌, IfOk, map, option_map, true};
ghost use Rattle.std.specs.List.{list_all};
ghost use Rattle.clap.specs.Walk.{Rule};
ghost use Rattle.lc_arguments.specs.CommandLine.{kind_rule, option_rule, rules_in, with_default, with_letter};
ghost use Rattle.lc_arguments.specs.CountArgs.{is_own_name, AreArgsOf, IsArgOf, IsBare};
ghost use Rattle.lc_arguments.specs.Options.{option_model, options};

use crate::help::CommandHelp;
use crate::option_row::{Kind, OptionRow, Subcommand};
use crate::options_table::options;
use clap::builder::ValueParser;
use clap::{Arg, ArgAction, Command};
use std::alloc::{AllocError, Global};

/// Makes a clap argument with the name and the kind of a row of the table of options.
fn with_kind<'a>(alloc: Global, row: &'static OptionRow) -> Arg<'a>
    requires own { is_own_name row.now.name.now ≡ true }
    ensures { IsArgOf (kind_rule row.now.kind row.now.name.now) result }
{
    let arg = Arg::new(alloc, row.name);
    match row.kind {
        Kind::Flag => arg.long(row.name).action(ArgAction::SetTrue),
        Kind::Text | Kind::Number(_) => arg
            .long(row.name)
            .value_name(row.value)
            .action(ArgAction::Set),
        Kind::Texts => arg
            .long(row.name)
            .value_name(row.value)
            .action(ArgAction::Append),
        Kind::Range(most) => arg
            .long(row.name)
            .value_name(row.value)
            .action(ArgAction::Set)
            .value_parser(ValueParser::signed(1, i64::from(most))),
        Kind::Word => arg.required(true).action(ArgAction::Set),
        Kind::Words => arg.action(ArgAction::Append),
    }
}

/// Adds a short name, such as `-j`, to an option.
fn with_letter<'a>(arg: Arg<'a>, letter: Option<char>) -> Arg<'a>
    ensures { (rule : Rule) → IsArgOf rule arg.entry → IsArgOf (with_letter letter rule) result }
{
    match letter {
        None => arg,
        Some(letter) => arg.short(letter),
    }
}

/// Adds a default to an argument.
fn with_default<'a>(arg: Arg<'a>, default: Option<&'static str>) -> Arg<'a>
    ensures { (rule : Rule) → IsArgOf rule arg.entry
        → IsArgOf (with_default (option_map (λ text. text.now) default.entry) rule) result }
{
    match default {
        None => arg,
        Some(text) => arg.default_value(text),
    }
}

/// Makes the clap argument for a row of the table of options.
fn arg<'a>(alloc: Global, row: &'static OptionRow) -> Arg<'a>
    requires own { is_own_name row.now.name.now ≡ true }
    ensures { IsArgOf (option_rule (option_model row.now)) result }
{
    let arg = with_kind(alloc, row);
    let arg = with_letter(arg, row.short);
    let texts = row.texts();
    let arg = with_default(arg, row.default).help(texts.help);
    if texts.heading.is_empty() {
        return arg;
    }
    arg.long_help(texts.long_help).help_heading(texts.heading)
}

/// Makes a clap argument for each of these rows that belongs to a command.
fn args_of<'a>(
    alloc: Global,
    command: Subcommand,
    rows: &'static [OptionRow],
) -> Result<Vec<Arg<'a>>, AllocError>
    requires own { list_all (λ row. is_own_name row.name.now) rows.now ≡ true }
    ensures { IfOk result (λ args. AreArgsOf (rules_in command (map option_model rows.now)) args.items) }
{
    let mut args = Vec::new(alloc);
    for row in rows {
        if row.of.has(command) {
            args.push(arg(alloc, row))?;
        }
    }
    Ok(args)
}

/// Makes all clap arguments of a command, from the table of options.
pub(crate) fn args<'a>(alloc: Global, command: Subcommand) -> Result<Vec<Arg<'a>>, AllocError>
    ensures { IfOk result (λ args. AreArgsOf (rules_in command options) args.items) }
{
    args_of(alloc, command, options())
}

/// Makes a clap command that has a name and help, but no arguments. The words that the command parses begin after the command's own name.
pub(crate) fn bare<'a>(
    alloc: Global,
    name: &'a str,
    help: CommandHelp,
) -> Result<Command<'a>, AllocError>
    ensures { IfOk result (IsBare name.entry.now) }
{
    Command::new(alloc, name)
        .about(help.about)
        .after_help(help.after)
        .after_long_help(help.after_long)
        .override_usage(help.usage)
        .no_binary_name(true)
        .bin_name(help.full_name)
}
