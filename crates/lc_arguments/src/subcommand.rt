//! The commands of the program, as clap parses them.

ghost use Rattle.std.specs.Prelude.{◌≡◌, map, IfOk, MatchResult};
ghost use Rattle.clap.specs.Faults.{fault_of};
ghost use Rattle.clap.specs.Matches.{found_of};
ghost use Rattle.lc_arguments.specs.CommandLine.{command_app, command_name};
ghost use Rattle.lc_arguments.specs.CountArgs.{IsSubcommand};
ghost use Rattle.lc_arguments.specs.Explained.{Explains, IsParsedAs};
ghost use Rattle.lc_arguments.specs.Words.{IsNoRequestBy};

use crate::arguments::{args, bare};
use crate::error_text::problem_of;
use crate::help::{self, CommandHelp};
use crate::option_row::Subcommand;
use crate::request::{ParseExit, explained};
use crate::suggestions;
use clap::{ArgMatches, Command, Error};
use std::alloc::{AllocError, Global};
use std::convert::AsStr;

impl Subcommand {
    fn name<'a>(self) -> &'a str
        ensures { result.now ≡ command_name self }
    {
        match self {
            Subcommand::Count => "count",
            Subcommand::Explain => "explain",
            Subcommand::Check => "check",
            Subcommand::Sum => "sum",
            Subcommand::Diff => "diff",
            Subcommand::Languages => "languages",
        }
    }

    fn help(self) -> CommandHelp {
        match self {
            Subcommand::Count => help::COUNT,
            Subcommand::Explain => help::EXPLAINING,
            Subcommand::Check => help::CHECK,
            Subcommand::Sum => help::SUM,
            Subcommand::Diff => help::DIFF,
            Subcommand::Languages => help::LANGUAGES,
        }
    }

    /// Makes the clap command.
    pub(crate) fn command<'a>(self, alloc: Global) -> Result<Command<'a>, AllocError>
        ensures { IfOk result (IsSubcommand self) }
    {
        let args = args(alloc, self)?;
        let command = bare(alloc, self.name(), self.help())?;
        command.args(args)
    }

    /// Turns an error of clap into a `ParseExit`. If an argument is missing or unknown, the text suggests what the user may have meant.
    fn explained<W: AsStr>(self, alloc: Global, error: &Error, words: &[W]) -> ParseExit
        ensures { Explains error.now result }
    {
        let Ok(why) = format!(in alloc; "{error}") else {
            return ParseExit::Memory;
        };
        match suggestions::advice_for(alloc, self, words, problem_of(&why)) {
            Ok(advice) => explained(alloc, error, self.help().usage, &advice),
            Err(AllocError) => ParseExit::Memory,
        }
    }

    /// Parses the arguments after the command's name.
    pub(crate) fn parsed<'w, W: AsStr>(
        self,
        alloc: Global,
        words: &'w [W],
    ) -> Result<ArgMatches<'w>, ParseExit>
        ensures { MatchResult result (λ matches. IsParsedAs self (map W.text words.entry.now) (found_of matches))
            (IsNoRequestBy (fault_of (command_app self) (map W.text words.entry.now))) }
    {
        let Ok(command) = self.command(alloc) else {
            return Err(ParseExit::Memory);
        };
        match command.try_get_matches_from(words) {
            Ok(matches) => Ok(matches),
            Err(error) => Err(self.explained(alloc, &error, words)),
        }
    }
}
