//! Answers each request.

ghost use Rattle.lc_arguments.specs.Words.{IsWithinLimits};
ghost use Rattle.lc_program.specs.Requests.{AnswersRequest};
ghost use Rattle.lc_program.specs.Systems.{may_of};

use crate::answer::{Answer, print_answer};
use crate::cause::Cause;
use crate::checking::{check_file, check_input};
use crate::comparing::compare;
use crate::counting::count;
use crate::explaining::explain_asked;
use crate::streams::Terminals;
use crate::summing::sum;
use crate::system::System;
use lc_arguments::Request;
use lc_io::{Sink, Source};
use lc_languages::LANGUAGES;
use std::sync::Wait;
use std::thread::Threads;

/// Answers a request. Which streams are terminals decides how paths are printed and which format a table has.
pub(crate) fn answer<R: Threads + Wait + Sync + AllocGlobal, Y: System, S: Source, O: Sink>(
    rt: &R,
    system: &Y,
    request: &Request<'_>,
    terminals: Terminals,
    input: &mut S,
    out: &mut O,
) -> Result<Answer, Cause>
    requires limits { IsWithinLimits request.now }
    ensures { AnswersRequest (may_of Y.Tree.Tree Y.System system.now)
        S.may_give O.may_take terminals request.now input.old out.old result input.new out.new }
{
    let style = terminals.style();
    match request {
        Request::CheckJoined => check_input(rt.alloc(), style, input, out),
        Request::Check(asked) => check_file(rt.alloc(), system, asked, style, input, out),
        Request::Count(asked) => count(rt, system, asked, terminals, input, out),
        Request::Explain(asked) => explain_asked(rt.alloc(), system, asked, style, input, out),
        Request::Languages => { print_answer(LANGUAGES.as_bytes(), Answer::clean(rt.alloc()), out) }
        Request::Sum(asked) => sum(rt.alloc(), system, asked, terminals.format(), input, out),
        Request::Diff(asked) => compare(rt, system, asked, terminals.format(), input, out),
    }
}
