//! Runs that add up or compare reports and directories.

use crate::runs::asking::{Case, EMPTY, NO_TERMINALS, compare_all};
use lc_program::Terminals;
use lc_tests::Sketch;
use std::test::Fail;

/// The report of a count of the directory `other` with `--by ext`.
const OTHER: &[u8] =
    b"{\"rows\":[{\"ext\":\".x\",\"files\":1,\"lines\":2,\"blank\":0,\"bytes\":4}],\
    \"total\":{\"files\":1,\"lines\":2,\"blank\":0,\"bytes\":4},\
    \"text\":{\"files\":1,\"lines\":2,\"blank\":0,\"bytes\":4},\
    \"binary\":{\"files\":0,\"lines\":0,\"blank\":0,\"bytes\":0},\"directories\":1,\"faults\":[]}";

/// The report of a count of 2^128 - 1 bytes.
const LARGE: &[u8] =
    b"{\"rows\":[{\"ext\":\".c\",\"files\":1,\"lines\":1,\"blank\":0,\"bytes\":340282366920938463463374607431768211455}],\
    \"total\":{\"files\":1,\"lines\":1,\"blank\":0,\"bytes\":340282366920938463463374607431768211455},\
    \"text\":{\"files\":1,\"lines\":1,\"blank\":0,\"bytes\":340282366920938463463374607431768211455},\
    \"binary\":{\"files\":0,\"lines\":0,\"blank\":0,\"bytes\":0},\"directories\":1,\"faults\":[]}";

/// A run with reports as files and on standard input.
const REPORTED: Case<'static> = Case {
    top: Sketch::Dir(&[
        (b"a.c", Sketch::File(b"1\n2\n3\n")),
        (b"inner", Sketch::Dir(&[])),
    ]),
    files: Sketch::Dir(&[
        (b"large.json", Sketch::File(LARGE)),
        (b"other.json", Sketch::File(OTHER)),
        (b"wrong.json", Sketch::File(b"{}")),
    ]),
    input: OTHER,
    ..EMPTY
};

/// A run that is refused. The cases below add the arguments.
const REFUSED: Case<'static> = Case {
    status: 3,
    ..REPORTED
};

const CASES: &[Case<'static>] = &[
    Case {
        name: "a_sum_of_a_typed_input",
        words: &["sum", "--format=tsv"],
        terminals: Terminals {
            input: true,
            ..NO_TERMINALS
        },
        out: b"ext\ttext\teol\tfiles\tlines\tblank\tbytes\n\
               .x\t*\t*\t1\t2\t0\t4\n\
               total\t*\t*\t1\t2\t0\t4\n\
               directories\t1\n",
        err: b"lc: reads reports from standard input; lc --help says more\n",
        ..REPORTED
    },
    Case {
        name: "a_sum_that_is_too_large",
        words: &["sum", "large.json", "other.json"],
        err: b"lc: sums too large\n",
        ..REFUSED
    },
    Case {
        name: "a_report_that_is_not_read_without_a_reason",
        words: &["sum", "v1=gone.json"],
        err: b"lc: cannot read gone.json\n",
        ..REFUSED
    },
    Case {
        name: "files_and_a_failure",
        words: &[
            "diff",
            "--files",
            "--fail-if-any",
            "--top",
            "1",
            "other",
            "top",
        ],
        status: 4,
        out: b"ext\ttext\teol\told_files\tnew_files\told_lines\tnew_lines\told_blank\tnew_blank\told_bytes\tnew_bytes\n\
               .c\t*\t*\t0\t1\t0\t3\t0\t0\t0\t6\n\
               others\t*\t*\t1\t0\t2\t0\t0\t0\t4\t0\n\
               total\t*\t*\t1\t1\t2\t3\t0\t0\t4\t6\n\
               added\t-\t-\t-\tlf\t-\t3\t-\t0\t-\t6\ta.c\n",
        ..REPORTED
    },
    Case {
        name: "the_input_and_a_directory_of_the_same",
        words: &["diff", "--all", "-", "other"],
        out: b"ext\ttext\teol\told_files\tnew_files\told_lines\tnew_lines\told_blank\tnew_blank\told_bytes\tnew_bytes\n\
               .x\t*\t*\t1\t1\t2\t2\t0\t0\t4\t4\n\
               total\t*\t*\t1\t1\t2\t2\t0\t0\t4\t4\n",
        ..REPORTED
    },
    Case {
        name: "a_side_with_too_many_directories",
        words: &["diff", "--max-dirs", "1", "other", "top"],
        err: b"lc: top: too many directories\n",
        ..REFUSED
    },
    Case {
        name: "a_side_that_is_no_report",
        words: &["diff", "top", "wrong.json"],
        err: b"lc: wrong.json is no report: no member total\n",
        ..REFUSED
    },
    Case {
        name: "a_side_without_a_column",
        words: &["diff", "--by", "eol", "other.json", "top"],
        err: b"lc: other.json has no column eol: count with --files\n",
        ..REFUSED
    },
    Case {
        name: "an_option_that_chooses_files_of_reports",
        words: &["diff", "--only", "a.c", "other.json", "-"],
        err: b"lc: --only chooses files of a directory, and other.json and standard input are reports\n",
        ..REFUSED
    },
];

#[test]
fn reports_are_added_up_and_compared(rt: HostRuntime) -> Result<(), Fail> {
    compare_all(&rt, CASES)
}
