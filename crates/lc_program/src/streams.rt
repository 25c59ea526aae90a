//! The streams of the program.

ghost use Rattle.std.specs.Prelude.{◌≡◌};
ghost use Rattle.lc_program.specs.Styles.{format_for, style_for};

use lc_paths::PathStyle;
use lc_sheet::Format;

/// The streams of the program.
#[derive(Drop)]
pub struct Streams<I, O, E> {
    /// The stream that is read.
    pub input: I,
    /// The stream to which answers are written.
    pub out: O,
    /// The stream for hints, refusals, paths that could not be read, and the reason why the program stopped with an error.
    pub err: E,
}

/// Which streams of the program are terminals.
#[derive(Clone, Copy)]
pub struct Terminals {
    /// Whether standard input is a terminal. If the program reads from this terminal, a line on standard error says what is read.
    pub input: bool,
    /// Whether standard output is a terminal. If so, checks and explanations escape paths that a terminal would not show safely, and a
    /// table without a named format is printed in columns.
    pub output: bool,
    /// Whether standard error is a terminal: if so, a hint may follow a count.
    pub error: bool,
}

impl Terminals {
    /// Returns how paths on standard output are escaped: for a terminal, or for a program that reads them.
    pub(crate) fn style(self) -> PathStyle
        ensures { result ≡ style_for self.output }
    {
        if self.output {
            PathStyle::Visible
        } else {
            PathStyle::Escaped
        }
    }

    /// Returns the format of a table if the command line names none: columns on a terminal, and TSV otherwise.
    pub(crate) fn format(self) -> Format
        ensures { result ≡ format_for self.output }
    {
        if self.output {
            Format::Table
        } else {
            Format::Tsv
        }
    }
}
