//! Runs with a command that needs no directory, with a word that is no command, and with an attribute that no file names.

use crate::runs::asking::{Case, EMPTY, compare_all};
use lc_program::UnreadReason;
use lc_tests::Sketch;
use std::test::Fail;

const CASES: &[Case<'static>] = &[
    Case {
        name: "a_check_of_paths_by_the_rules_of_a_file",
        words: &["check", "rules"],
        files: Sketch::Dir(&[(b"rules", Sketch::File(b"*.o\n"))]),
        input: b"a.o\nb.c\n",
        out: b"ignored\ta.o\nnone\tb.c\n",
        ..EMPTY
    },
    Case {
        name: "rules_and_paths_of_the_input",
        input: b"*.o\n!b.o\n--\na.o\nb.o\n",
        out: b"ignored\ta.o\nincluded\tb.o\n",
        ..EMPTY
    },
    Case {
        name: "the_version",
        words: &["-V"],
        out: b"lc 0.1.0\n",
        ..EMPTY
    },
    Case {
        name: "a_word_that_is_no_command",
        words: &["cuont", "."],
        why: Some(UnreadReason::Missing),
        status: 2,
        err: b"error: unrecognized subcommand 'cuont'\n\n  \
               tip: a similar command exists: 'count'\n\n\
               Usage: lc [OPTIONS] <DIR>...\n       \
               lc <OPTIONS>\n       \
               lc <COMMAND> [OPTIONS] [ARGUMENTS]\n\n\
               For more information, try '--help'.\n\n\
               Example: lc count .\n",
        ..EMPTY
    },
    Case {
        name: "an_attribute_that_no_file_names",
        words: &["count", "--by", "ext", "--without", "gone", "other"],
        out: b"ext\ttext\teol\tfiles\tlines\tblank\tbytes\n\
               .x\t*\t*\t1\t2\t0\t4\n\
               total\t*\t*\t1\t2\t0\t4\n\
               directories\t1\n",
        err: b"lc: no attribute file names gone\n",
        ..EMPTY
    },
];

#[test]
fn commands_are_run(rt: HostRuntime) -> Result<(), Fail> {
    compare_all(&rt, CASES)
}
