//! Tests of what a walk skips by attributes, rules and kinds of entries, and of the reasons that it reports.

use crate::walk::walked::check_parts;
use std::test::Fail;

const EXPORTED: &str = "
    .gitattributes=docs/_export-ignore;*.tmp_export-ignore;x.tmp_-export-ignore;*.y_export-ignore=1;
    a.tmp
    x.tmp
    b.y
    docs/{ d }
    s/{ docs }";

const WITH_EXPORTS: &[&str] = &[
    "an archive | --without=export-ignore | - - lf 2 5 0 83, .tmp - lf 1 1 0 2, .y - lf 1 1 0 2, directories 2 entries 7",
    "the whole tree | | - - lf 3 6 0 85, .tmp - lf 2 2 0 4, .y - lf 1 1 0 2, directories 3 entries 8",
];

/// A tree with attributes on files and directories: Set, Unset, with a value, and Set by a macro.
const MARKED: &str = "
    .gitattributes=[attr]made_generated;lib/_vendored;*.y_made;x.y_-generated;*.v_vendored=1;
    a.y
    b.v
    lib/{ m }
    src/{ lib n.y }
    x.y";

const WITHOUT_ATTRIBUTES: &[&str] = &[
    "without what is vendored or generated | --without=vendored --without=generated
     | - - lf 2 6 0 76, .v - lf 1 1 0 2, .y - lf 1 1 0 2, directories 2 entries 8",
];

#[test]
fn attributes_leave_out_what_they_are_set_for(rt: HostRuntime) -> Result<(), Fail> {
    check_parts(&rt, rt.alloc(), EXPORTED, WITH_EXPORTS)?;
    check_parts(&rt, rt.alloc(), MARKED, WITHOUT_ATTRIBUTES)?;
    Ok(())
}

/// A tree with a skipped entry for each reason. Below skipped directories, the tree has more entries that would be skipped.
const REASONED: &str = "
    .git/{ info/{ exclude=#;notes.txt; } }
    .gitattributes=docs/_export-ignore;
    .gitignore=*.log;
    a.log
    disk@/
    docs/{ d.log }
    link.c@
    main.c
    notes.txt
    src/{ .gitignore=#;;gen/; gen/{ g.log h@ } m.c }
    x.bak
    z.log@/";

/// Reports with a line for each skipped entry, in the order of their paths, with the first reason that holds. No entry below a skipped
/// directory has a line. Both exclude files have their only rule on the last line.
const WITH_REASONS: &[&str] = &[
    "reasons of an archive | --without=export-ignore --left-out --max-dirs=4 --exclude-from=#;#;#;#;#;#;*.bak;
     | - - lf 3 5 1 34, .c - lf 2 2 0 4
       directories 2 entries 15
       left git .git/, left rule .gitignore:1 a.log, left filesystem disk@/, left attribute export-ignore docs/
       left other link.c@, left rule .git/info/exclude:2 notes.txt, left rule */.gitignore:3 src/gen/
       left rule --exclude-from:7 x.bak, left rule .gitignore:1 z.log@/",
    "reasons of a tree | --left-out --max-dirs=4 --exclude-from=#;#;#;#;#;#;*.bak;
     | - - lf 3 5 1 34, .c - lf 2 2 0 4
       directories 3 entries 16
       left git .git/, left rule .gitignore:1 a.log, left filesystem disk@/, left rule .gitignore:1 docs/d.log
       left other link.c@, left rule .git/info/exclude:2 notes.txt, left rule */.gitignore:3 src/gen/
       left rule --exclude-from:7 x.bak, left rule .gitignore:1 z.log@/",
];

#[test]
fn entries_are_told_with_their_reasons(rt: HostRuntime) -> Result<(), Fail> {
    check_parts(&rt, rt.alloc(), REASONED, WITH_REASONS)?;
    Ok(())
}
