//! Tests of the filters of a walk: the command line's patterns, walks that read no ignore files, values of attributes, and included files.

use crate::walk::walked::check_parts;
use std::test::Fail;

/// A tree with rules, attributes and files at each depth.
const TREE: &str = "
    .git/{ info/{ exclude=*.tmp; } }
    .gitattributes=*.pb_made=true;*.g_made;
    .gitignore=*.log;
    a.log
    a.rs
    docs/{ a.md deep/{ b.md b.rs } }
    src/{ .gitignore=gen/;!k.log; gen/{ g.rs } k.log m.rs n.pb o.g }
    z.tmp";

const FILTERED: &[&str] = &[
    "the command line's patterns override the files of every directory
     | --files --left-out --exclude=k.log --exclude=!a.log --exclude=/docs/deep
     | - - lf 3 5 0 42, .g - lf 1 1 0 2, .log - lf 1 1 0 2, .md - lf 1 1 0 2, .pb - lf 1 1 0 2, .rs - lf 2 2 0 4
       directories 3 entries 16
       file - lf 2 0 24 .gitattributes, file - lf 1 0 6 .gitignore, file - lf 1 0 2 a.log, file - lf 1 0 2 a.rs
       file - lf 1 0 2 docs/a.md, file - lf 2 0 12 src/.gitignore, file - lf 1 0 2 src/m.rs, file - lf 1 0 2 src/n.pb
       file - lf 1 0 2 src/o.g
       left git .git/, left rule --exclude:3 docs/deep/, left rule */.gitignore:1 src/gen/
       left rule --exclude:1 src/k.log, left rule .git/info/exclude:1 z.tmp",
    "no ignore file is read | --left-out --no-ignore
     | - - lf 3 5 0 42, .g - lf 1 1 0 2, .log - lf 2 2 0 4, .md - lf 2 2 0 4, .pb - lf 1 1 0 2, .rs - lf 4 4 0 8
       .tmp - lf 1 1 0 2
       directories 5 entries 19
       left git .git/",
    "an attribute by its value | --left-out --without=made=true
     | - - lf 3 5 0 42, .g - lf 1 1 0 2, .log - lf 1 1 0 2, .md - lf 2 2 0 4, .rs - lf 3 3 0 6
       directories 4 entries 18
       left git .git/, left rule .gitignore:1 a.log, left rule */.gitignore:1 src/gen/
       left attribute made=true src/n.pb, left rule .git/info/exclude:1 z.tmp",
    "files by a pattern, and all files under a directory | --files --left-out --include=*.rs --include=deep/
     | .md - lf 1 1 0 2, .rs - lf 3 3 0 6
       directories 4 entries 18
       file - lf 1 0 2 a.rs, file - lf 1 0 2 docs/deep/b.md, file - lf 1 0 2 docs/deep/b.rs, file - lf 1 0 2 src/m.rs
       left git .git/, left include .gitattributes, left include .gitignore, left rule .gitignore:1 a.log
       left include docs/a.md, left include src/.gitignore, left rule */.gitignore:1 src/gen/, left include src/k.log
       left include src/n.pb, left include src/o.g, left rule .git/info/exclude:1 z.tmp",
    "all of them, and a path | --files --left-out --no-ignore --include=*.rs --exclude=m.* --without=made src
     | .rs - lf 1 1 0 2
       directories 3 entries 8
       file - lf 1 0 2 src/gen/g.rs
       left include src/.gitignore, left include src/k.log, left rule --exclude:1 src/m.rs, left include src/n.pb
       left attribute made src/o.g",
];

#[test]
fn what_takes_part_is_filtered(rt: HostRuntime) -> Result<(), Fail> {
    check_parts(&rt, rt.alloc(), TREE, FILTERED)?;
    Ok(())
}
