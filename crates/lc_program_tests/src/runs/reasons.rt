//! Runs that could not read a directory or a file, or whose arguments are refused, and the reasons on standard error.

use crate::runs::asking::{Case, EMPTY, compare_all};
use lc_program::UnreadReason;
use lc_tests::Sketch;
use std::test::Fail;

/// A count of a directory that can't be listed.
const UNREAD: Case<'static> = Case {
    words: &["count", "--by", "ext", "absent"],
    status: 1,
    out: b"ext\ttext\teol\tfiles\tlines\tblank\tbytes\n\
           total\t*\t*\t0\t0\t0\t0\n\
           directories\t0\n\
           fault\tread\t.\n",
    err: b"lc: cannot read absent\n",
    ..EMPTY
};

/// A count of a file in place of a directory.
const FILE: Case<'static> = Case {
    why: Some(UnreadReason::IsFile),
    ..UNREAD
};

/// A count whose list of paths can't be read.
const UNLISTED: Case<'static> = Case {
    words: &["count", "--only-from", "gone", "other"],
    status: 3,
    err: b"lc: cannot read paths\n",
    ..EMPTY
};

const CASES: &[Case<'static>] = &[
    Case {
        name: "no_reason",
        ..UNREAD
    },
    Case {
        name: "another_reason",
        why: Some(UnreadReason::Other),
        ..UNREAD
    },
    Case {
        name: "no_reason_of_an_explanation",
        words: &["explain", "absent", "a"],
        out: b"fault\tread\t-\t.\n",
        err: b"",
        ..UNREAD
    },
    Case {
        name: "a_file_of_the_root",
        words: &["count", "--by", "ext", "/m.c"],
        err: b"lc: cannot read /m.c: not a directory: lc count --only m.c / counts one file\n",
        ..FILE
    },
    Case {
        name: "a_file_that_is_escaped",
        words: &["count", "--by", "ext", "src/m\\c"],
        err: b"lc: cannot read src/m\\\\c: not a directory\n",
        ..FILE
    },
    Case {
        name: "a_file_like_an_option",
        words: &["count", "--by", "ext", "src/-m"],
        err: b"lc: cannot read src/-m: not a directory\n",
        ..FILE
    },
    Case {
        name: "a_list_without_a_reason",
        ..UNLISTED
    },
    Case {
        name: "a_list_below_a_file",
        why: Some(UnreadReason::NotDirectory),
        err: b"lc: cannot read paths: not a directory\n",
        ..UNLISTED
    },
    Case {
        name: "arguments_that_are_refused",
        words: &["count", "--max-dirs", "1048577", "top"],
        status: 2,
        err: b"error: invalid value for '--max-dirs <N>': '1048577' is no number from 1 to 1048576\n\n\
               For more information, try '--help'.\n",
        ..UNLISTED
    },
    Case {
        name: "rules_that_fail",
        words: &["check", "--explain", "failing"],
        files: Sketch::Dir(&[(b"failing", Sketch::Failing(b"*\n"))]),
        err: b"lc: cannot read rules\n",
        ..UNLISTED
    },
];

#[test]
fn reasons_are_told(rt: HostRuntime) -> Result<(), Fail> {
    compare_all(&rt, CASES)
}
