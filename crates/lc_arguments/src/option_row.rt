//! The rows of the table of options.

ghost use Rattle.std.specs.Prelude.{◌≡◌};
ghost use Rattle.lc_arguments.specs.Options.{is_of};

/// A command.
#[derive(Clone, Copy)]
pub(crate) enum Subcommand {
    /// `lc count`
    Count,
    /// `lc explain`
    Explain,
    /// `lc check`
    Check,
    /// `lc sum`
    Sum,
    /// `lc diff`
    Diff,
    /// `lc languages`
    Languages,
}

/// The set of the commands that have a certain argument.
#[derive(Clone, Copy)]
pub struct Commands {
    /// Whether `lc count` has the argument.
    pub count: bool,
    /// Whether `lc explain` has the argument.
    pub explain: bool,
    /// Whether `lc check` has the argument.
    pub check: bool,
    /// Whether `lc sum` has the argument.
    pub sum: bool,
    /// Whether `lc diff` has the argument.
    pub diff: bool,
}

impl Commands {
    /// Returns whether a command is in the set.
    pub(crate) fn has(self, command: Subcommand) -> bool
        ensures { result ≡ is_of command self }
    {
        match command {
            Subcommand::Count => self.count,
            Subcommand::Explain => self.explain,
            Subcommand::Check => self.check,
            Subcommand::Sum => self.sum,
            Subcommand::Diff => self.diff,
            // It has no arguments.
            Subcommand::Languages => false,
        }
    }
}

/// No command.
const NONE: Commands = Commands {
    count: false,
    explain: false,
    check: false,
    sum: false,
    diff: false,
};

/// `lc count` alone.
pub(crate) const COUNT: Commands = Commands {
    count: true,
    ..NONE
};

/// `lc explain` alone.
pub(crate) const EXPLAIN: Commands = Commands {
    explain: true,
    ..NONE
};

/// `lc check` alone.
pub(crate) const CHECK: Commands = Commands {
    check: true,
    ..NONE
};

/// `lc sum` alone.
pub(crate) const SUM: Commands = Commands { sum: true, ..NONE };

/// `lc diff` alone.
pub(crate) const DIFF: Commands = Commands { diff: true, ..NONE };

/// The commands with options that skip entries.
pub(crate) const FILTERS: Commands = Commands {
    count: true,
    explain: true,
    diff: true,
    ..NONE
};

/// The commands that count directories.
pub(crate) const WALKS: Commands = Commands {
    count: true,
    diff: true,
    ..NONE
};

/// The commands that read the paths to check or explain from standard input.
pub(crate) const INPUT: Commands = Commands {
    explain: true,
    check: true,
    ..NONE
};

/// The commands that print reports.
pub(crate) const PRINTED: Commands = Commands {
    count: true,
    sum: true,
    ..NONE
};

/// The commands that print tables of files.
pub(crate) const TABLES: Commands = Commands {
    count: true,
    sum: true,
    diff: true,
    ..NONE
};

/// The kind of an argument, and of its value.
#[derive(Clone, Copy)]
pub enum Kind {
    /// An option without a value.
    Flag,
    /// An option whose value is a text.
    Text,
    /// An option whose value is a text. The option may be repeated.
    Texts,
    /// An option whose value is a number from 1 to this maximum. To clap it is a text.
    Number(u32),
    /// An option whose value is a number from 1 to this maximum, which clap tests.
    Range(u32),
    /// A required positional argument, such as `FILE`.
    Word,
    /// Any number of positional arguments, such as `DIR`. If none is typed and the row has a `default`, the default is used.
    Words,
}

/// What a shell offers to complete the value of an option.
#[derive(Clone, Copy)]
pub enum Completes {
    /// Nothing.
    Nothing,
    /// The path of a file.
    Files,
    /// One of these words.
    Words(&'static [&'static str]),
    /// One of these words, each with its meaning. No other value is allowed.
    Meanings(&'static [(&'static str, &'static str)]),
    /// Some of these words, separated by commas.
    List(&'static [&'static str]),
}

/// An option or a positional argument of one or more commands: how clap reads it, and its name and value in help. Its other texts are
/// [`OptionTexts`](crate::OptionTexts).
#[derive(Clone, Copy)]
pub struct OptionRow {
    /// The long name of an option without the hyphens, or the name of a positional argument, such as `DIR`.
    pub name: &'static str,
    /// The letter of the short name.
    pub short: Option<char>,
    /// The name of the value in help.
    pub value: &'static str,
    /// The kind of the argument and of its value.
    pub kind: Kind,
    /// The value if none is typed.
    pub default: Option<&'static str>,
    /// The commands that have the argument.
    pub of: Commands,
    /// What a shell offers to complete the value.
    pub completes: Completes,
}

/// A flag of `lc count`, from which other rows take the fields that they do not set.
pub(crate) const FLAG: OptionRow = OptionRow {
    name: "",
    short: None,
    value: "",
    kind: Kind::Flag,
    default: None,
    of: COUNT,
    completes: Completes::Nothing,
};
