//! Runs that count directories, with one thread and with several.

use crate::runs::asking::{Case, EMPTY, Entry, compare_by_threads};
use lc_program::UnreadReason;
use lc_tests::Sketch;
use lc_tree::OtherKind;
use std::test::Fail;

const SRC: Entry = (
    b"src",
    Sketch::Dir(&[(
        b"build",
        Sketch::Dir(&[(b"y.c", Sketch::File(b"int y;\r\n"))]),
    )]),
);

const SHUT: Entry = (b"shut", Sketch::Closed);

const WORKED: Case<'static> = Case {
    top: Sketch::Dir(&[
        (b".gitignore", Sketch::File(b"*.log\n!keep.log\n/build/\n")),
        (b"a.log", Sketch::File(b"x\n")),
        (b"keep.log", Sketch::File(b"k\n")),
        (b"build", Sketch::Dir(&[(b"x.c", Sketch::File(b"x\n"))])),
        SRC,
    ]),
    files: Sketch::Dir(&[(b"rules", Sketch::File(b"*.c\n"))]),
    ..EMPTY
};

const CASES: &[Case<'static>] = &[
    Case {
        name: "rules_of_a_file_with_both_lists",
        words: &[
            "count",
            "--exclude-from",
            "rules",
            "--files",
            "--left-out",
            "top",
        ],
        out: b"ext\ttext\teol\tfiles\tlines\tblank\tbytes\n\
               -\t-\tlf\t1\t3\t0\t24\n\
               .log\t-\tlf\t1\t1\t0\t2\n\
               total\t*\t*\t2\t4\t0\t26\n\
               directories\t3\n\
               entries\t7\n\
               file\t-\tlf\t3\t0\t24\t.gitignore\n\
               file\t-\tlf\t1\t0\t2\tkeep.log\n\
               left\trule\t.gitignore:1\ta.log\n\
               left\trule\t.gitignore:3\tbuild/\n\
               left\trule\t--exclude-from:1\tsrc/build/y.c\n",
        ..WORKED
    },
    Case {
        name: "one_file_system",
        words: &["count", "-x", "--by", "ext", "--left-out", "top"],
        bounded: Sketch::Dir(&[(b"mnt", Sketch::Other(OtherKind::Mounted))]),
        out: b"ext\ttext\teol\tfiles\tlines\tblank\tbytes\n\
               total\t*\t*\t0\t0\t0\t0\n\
               directories\t1\n\
               entries\t1\n\
               left\tfilesystem\t-\tmnt/\n",
        ..WORKED
    },
    Case {
        name: "paths_of_the_input",
        words: &["count", "--only-from", "-", "-0", "--by", "ext", "top"],
        input: b"keep.log\0src\0",
        out: b"ext\ttext\teol\tfiles\tlines\tblank\tbytes\n\
               .c\t*\t*\t1\t1\t0\t8\n\
               .log\t*\t*\t1\t1\t0\t2\n\
               total\t*\t*\t2\t2\t0\t10\n\
               directories\t3\n",
        ..WORKED
    },
    Case {
        name: "directories_that_are_not_read_in_csv",
        top: Sketch::Dir(&[SHUT, SRC, (b"a\x1b", Sketch::Closed)]),
        words: &["count", "--by", "ext", "--format", "csv", "top"],
        status: 1,
        out: b"ext,files,lines,blank,bytes\n\
               .c,1,1,0,8\n",
        err: b"lc: cannot read a\\x1b\nlc: cannot read shut\n",
        ..EMPTY
    },
    Case {
        name: "several_directories_each_below_its_name",
        top: Sketch::Dir(&[SHUT, SRC]),
        words: &["count", "--by", "ext", "top", "other"],
        status: 1,
        out: b"ext\ttext\teol\tfiles\tlines\tblank\tbytes\n\
               .c\t*\t*\t1\t1\t0\t8\n\
               .x\t*\t*\t1\t2\t0\t4\n\
               total\t*\t*\t2\t3\t0\t12\n\
               directories\t4\n\
               fault\tread\ttop/shut\n",
        err: b"lc: 1 path could not be read: see the line that begins with fault\n",
        ..EMPTY
    },
    Case {
        name: "beside_one_whose_name_begins_alike",
        words: &["count", "--by", "ext", "other", "other-2"],
        why: Some(UnreadReason::Missing),
        status: 1,
        out: b"ext\ttext\teol\tfiles\tlines\tblank\tbytes\n\
               .x\t*\t*\t1\t2\t0\t4\n\
               total\t*\t*\t1\t2\t0\t4\n\
               directories\t1\n\
               fault\tread\tother-2\n",
        err: b"lc: cannot read other-2: no such file or directory\n",
        ..EMPTY
    },
];

#[test]
fn tables_of_counts(rt: HostRuntime) -> Result<(), Fail> {
    compare_by_threads(&rt, CASES)
}
