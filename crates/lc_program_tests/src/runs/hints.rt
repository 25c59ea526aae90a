//! Runs that write hints and other lines besides an answer, and runs on a terminal.

use crate::runs::asking::{Case, EMPTY, NO_TERMINALS, compare_all};
use lc_program::Terminals;
use lc_tests::Sketch;
use std::test::Fail;

const TABLE: &[u8] = b"ext\ttext\teol\tfiles\tlines\tblank\tbytes\n\
                       .x\t-\tlf\t1\t2\t0\t4\n\
                       total\t*\t*\t1\t2\t0\t4\n\
                       directories\t1\n";

/// A count whose standard error is a terminal.
const COUNT: Case<'static> = Case {
    words: &["count", "other"],
    terminals: Terminals {
        error: true,
        ..NO_TERMINALS
    },
    out: TABLE,
    ..EMPTY
};

/// A run whose standard input is a terminal, with text that was typed there.
const TYPED: Case<'static> = Case {
    terminals: Terminals {
        input: true,
        ..NO_TERMINALS
    },
    input: b"a\0b\nc\n",
    top: Sketch::Dir(&[]),
    files: Sketch::Dir(&[(b"rules", Sketch::File(b"c\n"))]),
    err: b"lc: reads paths from standard input; lc --help says more\n",
    ..EMPTY
};

const CASES: &[Case<'static>] = &[
    Case {
        name: "a_check_of_paths_that_end_with_nul",
        words: &["check", "--null", "rules"],
        out: b"none\ta\nnone\tb\\x0ac\\x0a\n",
        ..TYPED
    },
    Case {
        name: "an_explanation_of_paths_that_end_with_nul",
        words: &["explain", "--null", "--exclude", "b*", "top"],
        out: b"none\t-\t-\ta\nignored\t--exclude:1\tb*\tb\\x0ac\\x0a\n",
        ..TYPED
    },
    Case {
        name: "a_count_of_the_paths_of_the_input",
        words: &["count", "--only-from", "-", "other"],
        input: b"other.x\n",
        out: TABLE,
        ..TYPED
    },
    Case {
        name: "a_count_that_reads_no_input",
        words: &["count", "other"],
        out: TABLE,
        err: b"",
        ..TYPED
    },
    Case {
        name: "an_explanation_for_a_terminal",
        words: &["explain", "other", "\u{e9}\u{202e}"],
        terminals: Terminals {
            output: true,
            ..NO_TERMINALS
        },
        out: b"none\t-\t-\t\xc3\xa9\\xe2\\x80\\xae\n",
        ..EMPTY
    },
    Case {
        name: "a_pattern_that_can_match_nothing_and_a_hint",
        words: &["count", "--exclude=#\x1b", "other"],
        above: Some(("..", "docs")),
        err: b"lc: pattern '#\\x1b' can match nothing\n\
               lc: rules above docs were not read; lc count --only docs .. reads them\n",
        ..COUNT
    },
    Case {
        name: "a_top_that_is_escaped",
        above: Some(("a\\b", "docs")),
        err: b"lc: rules above other were not read\n",
        ..COUNT
    },
    Case {
        name: "a_hint_about_all_in_one_repository",
        words: &["count", "--by", "ext", "other", "gone"],
        above: Some(("..", "inner")),
        status: 1,
        out: b"ext\ttext\teol\tfiles\tlines\tblank\tbytes\n\
               .x\t*\t*\t1\t2\t0\t4\n\
               total\t*\t*\t1\t2\t0\t4\n\
               directories\t1\n\
               fault\tread\tgone\n",
        err: b"lc: cannot read gone\n\
               lc: rules above inner were not read; lc count --only inner --only inner .. reads them\n",
        ..COUNT
    },
];

#[test]
fn hints_are_told(rt: HostRuntime) -> Result<(), Fail> {
    compare_all(&rt, CASES)
}
