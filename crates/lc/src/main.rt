//! The program `lc` counts the files and lines of a directory, and skips what Git would ignore. It also shows which rule decides whether a
//! path is ignored.
//!
//! Most of the program is in the function `lc_program::program`. This crate calls the function with the arguments, the streams, and the
//! directories and files of the host. This crate also shows the progress line of a long count or comparison on a terminal.
//!
//! - `host_system`: the directories and files of the host
//! - `unread`: why a directory or a file of the host can't be read
//! - `host_repository`: the Git repository that contains a directory of the host
//! - `progress`: the progress line
//! - `watched_tree`: a tree that counts the directories and files that it opens, for the progress line
//! - `watched_sink`: outputs that erase the progress line before each write
#![tactic(auto)]

mod host_repository;
mod host_system;
mod progress;
mod unread;
mod watched_sink;
mod watched_tree;

use host_system::HostSystem;
use lc_io::{StdSink, StdSource};
use lc_program::{Cause, Streams, Terminals, give_up, misuse, program};
use progress::Progress;
use std::alloc::AllocError;
use std::env;
use std::env::Env;
use std::io::{ErrorKind, IsTerminal};
use std::process::ExitCode;
use watched_sink::WatchedSink;

/// Returns whether arguments request an explanation. It may wait for paths, so the directories that it opens are no progress.
fn is_explanation(words: &[String]) -> bool {
    words.first().is_some_and(|word| word.as_str() == "explain")
}

/// Returns whether `TERM` says that the terminal can't rewrite a line.
fn is_dumb<R: Env + AllocGlobal>(rt: &R) -> bool {
    match env::var(rt, "TERM") {
        Ok(name) => name.as_str() == "dumb",
        Err(_) => false,
    }
}

fn main(rt: HostRuntime) -> ExitCode {
    let mut err = StdSink(rt.stderr());
    let words = match env::args(&rt) {
        Ok(words) => words,
        // The program refuses an argument that is not UTF-8.
        Err(fault) if fault.kind() == ErrorKind::InvalidData => {
            let ending = misuse("lc: an argument is not UTF-8\n", &mut err);
            return ExitCode::from(ending.status());
        }
        Err(_) => {
            let ending = give_up(rt.alloc(), Cause::Memory, &mut err);
            return ExitCode::from(ending.status());
        }
    };
    let words: Result<Vec<String>, AllocError> = words.skip(1).collect(rt.alloc());
    let Ok(words) = words else {
        let ending = give_up(rt.alloc(), Cause::Memory, &mut err);
        return ExitCode::from(ending.status());
    };
    let terminals = Terminals {
        input: rt.stdin().is_terminal(),
        output: rt.stdout().is_terminal(),
        error: rt.stderr().is_terminal(),
    };
    let progress = if is_explanation(&words) || !terminals.error || is_dumb(&rt) {
        None
    } else {
        Progress::new(&rt, rt.alloc(), rt.stderr())
    };
    let progress = progress.as_ref();
    let mut streams = Streams {
        input: StdSource(rt.stdin()),
        out: WatchedSink {
            sink: StdSink(rt.stdout()),
            progress,
        },
        err: WatchedSink {
            sink: err,
            progress,
        },
    };
    let system = HostSystem { rt: &rt, progress };
    ExitCode::from(program(&rt, &system, &words, terminals, &mut streams))
}
