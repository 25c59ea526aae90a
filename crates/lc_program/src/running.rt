//! Runs the program: carries out the request of the arguments with the directories and files of a `System`. Reads the input stream, and
//! writes to the other two.

ghost use Rattle.std.specs.Prelude.{◌≡◌, map};
ghost use Rattle.lc_program.specs.Program.{Ends, EndsTyped, status_of, streams_may};
ghost use Rattle.lc_program.specs.Systems.{may_of};
ghost use Rattle.lc_program.specs.declared.ending.Ending.{Ending};

use crate::answering::answer;
use crate::cause::Cause;
use crate::ending::Ending;
use crate::introducing::introduce;
use crate::streams::{Streams, Terminals};
use crate::system::System;
use crate::telling::{give_up, misuse, show, tell};
use crate::typed::read_as;
use lc_arguments::{ParseExit, Request};
use lc_io::{Sink, Source};
use std::alloc::{AllocError, Global};
use std::convert::AsStr;
use std::sync::Wait;
use std::thread::Threads;

/// Runs the program with the arguments that it reads, and returns how it ended.
fn end_of<R: Threads + Wait + Sync + AllocGlobal, Y: System, W: AsStr, S: Source, O: Sink, E: Sink>(
    rt: &R,
    system: &Y,
    words: &[W],
    terminals: Terminals,
    streams: &mut Streams<S, O, E>,
) -> Ending
    ensures { Ends (may_of Y.Tree.Tree Y.System system.now)
        (streams_may S.may_give O.may_take E.may_take) (map W.text words.now) terminals streams.old result streams.new }
{
    let Streams { input, out, err } = streams;
    let request = match Request::read(rt.alloc(), words) {
        Ok(request) => request,
        Err(ParseExit::Shown(text)) => return show(rt.alloc(), &text, out, err),
        Err(ParseExit::Refused(why)) => return misuse(&why, err),
        Err(ParseExit::Memory) => return give_up(rt.alloc(), Cause::Memory, err),
    };
    introduce(&request, terminals.input, err);
    let answered = match answer(rt, system, &request, terminals, input, out) {
        Ok(answered) => answered,
        Err(cause) => return give_up(rt.alloc(), cause, err),
    };
    tell(&answered.told, err);
    answered.ending()
}

/// Runs the program with the arguments `typed`, and returns the exit status. The status is 0 for success, and 1 if the answer was written
/// but some paths could not be read or printed. The status is 2 for refused arguments, and 3 if the program stopped with an error, which
/// `err` shows. The status is 4, instead of 0 or 1, if `--fail-if-any` is used, and a counted file meets the conditions of `--where` or the
/// sides of a comparison differ.
///
/// The arguments decide what the program does:
///
/// - a directory that is no command: counts it, like `count` before the arguments;
/// - no arguments: reads the lines of an ignore file, a line `--`, and paths from the input, and checks the paths
///   ([`check_joined`](lc_paths::check_joined));
/// - `check FILE`: reads the rules in FILE, then checks the paths of the input by these rules ([`check`](lc_paths::check); with `--explain`
///   [`check_explained`](lc_paths::check_explained));
/// - `count DIR`: reads the file of `--exclude-from`, then counts the directory DIR and prints the table ([`run`](crate::runs::run));
/// - `explain DIR`: shows which rule of the directory DIR decides each path of the input or of the arguments
///   ([`explain`](lc_paths::explain));
/// - `sum REPORT`: reads all reports, then prints the table of their sum ([`summed`](lc_reports::summed));
/// - `diff OLD NEW`: prints the changes from one directory or report to another ([`ShownChanges`](lc_changes::ShownChanges)).
///
/// If the program reads standard input from a terminal, a line on `err` first says what the program reads. If standard output is a
/// terminal, checks and explanations escape paths and patterns that a terminal would not show safely. A table is printed in columns on a
/// terminal if no format is named. If standard error is a terminal, a hint may follow the table of a count. `err` also gets lines about
/// paths that could not be read or printed, the reason why a directory could not be read, a line about a list without paths, and lines
/// about patterns of the arguments that can match nothing or may mean something else.
pub fn program<
    R: Threads + Wait + Sync + AllocGlobal,
    Y: System,
    W: AsStr,
    S: Source,
    O: Sink,
    E: Sink,
>(rt: &R, system: &Y, typed: &[W], terminals: Terminals, streams: &mut Streams<S, O, E>) -> u8
    ensures { (ending : Ending) × (result ≡ status_of ending)
        × EndsTyped (may_of Y.Tree.Tree Y.System system.now)
        (streams_may S.may_give O.may_take E.may_take) (map W.text typed.now) terminals streams.old ending streams.new }
{
    match read_as(rt.alloc(), system, typed) {
        Ok(words) => end_of(rt, system, &words, terminals, streams).status(),
        Err(AllocError) => give_up(rt.alloc(), Cause::Memory, &mut streams.err).status(),
    }
}
