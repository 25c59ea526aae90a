//! The line on standard error that says what the program reads from a terminal.

ghost use Rattle.std.specs.Prelude.{◌≡◌};
ghost use Rattle.lc_program.specs.Introductions.{Introduces, read_input, reads_paths, reads_reports};

use lc_arguments::{NamedReport, Request};
use lc_io::{Sink, print};

/// Returns whether a request reads paths from the input.
fn reads_paths(request: &Request<'_>) -> bool
    ensures { result ≡ reads_paths request.now }
{
    match request {
        Request::CheckJoined => false,
        Request::Check(_) => true,
        Request::Count(asked) => match asked.walk.only_from {
            Some(name) => name == "-",
            None => false,
        },
        Request::Explain(asked) => asked.paths.is_empty(),
        Request::Languages | Request::Sum(_) => false,
        Request::Diff(asked) => match asked.walk.only_from {
            Some(name) => name == "-",
            None => false,
        },
    }
}

/// Returns whether one of these reports is read from the input.
fn read_input(reports: &[NamedReport<'_>]) -> bool
    ensures { result ≡ read_input reports.now }
{
    reports.iter().any(|typed| typed.report == "-")
}

/// Returns whether a request reads reports from the input.
fn reads_reports(request: &Request<'_>) -> bool
    ensures { result ≡ reads_reports request.now }
{
    match request {
        Request::Sum(asked) => read_input(&asked.reports),
        Request::Diff(asked) => asked.old == "-" || asked.new == "-",
        _ => false,
    }
}

/// Writes a line that says what a request reads from the input, if the input is a terminal. Without this line the program would seem to
/// hang.
pub(crate) fn introduce<E: Sink>(request: &Request<'_>, stdin_is_terminal: bool, err: &mut E)
    ensures { Introduces E.may_take stdin_is_terminal request.now err.old err.new }
{
    if !stdin_is_terminal {
        return;
    }
    // Help says it too, so a line that can't be written changes nothing.
    if matches!(request, Request::CheckJoined) {
        let _ = print(
            err,
            b"lc: reads the lines of an ignore file, a line --, and paths from standard input; lc --help says more\n",
        );
    } else if reads_paths(request) {
        let _ = print(
            err,
            b"lc: reads paths from standard input; lc --help says more\n",
        );
    } else if reads_reports(request) {
        let _ = print(
            err,
            b"lc: reads reports from standard input; lc --help says more\n",
        );
    }
}
