//! Tests of what walks find: rules, attributes, listed files and errors.

use crate::walk::walked::{check, check_parts};
use std::test::Fail;

/// A tree whose rules ignore `a.log` and `build/`.
pub(super) const IGNORING: &str = "
    .gitignore=*.log;!keep.log;/build/;
    a.log=x;
    keep.log=k;
    build/{ x.c=x; }
    src/{ build/{ y.c=int_y.^; } }";

const TEXTS: &str = ".gitattributes=*.c_text;*.b_binary; x.c=a;b; y.b=\0; z.c=a^;^;";

const BY_RULES: &str = "rules of the tree |
    | - - lf 1 3 0 24, .c - crlf 1 1 0 8, .log - lf 1 1 0 2, directories 3 entries 7";

const BY_ATTRIBUTES: &[&str] = &[
    "attributes of the tree |
     | - - lf 1 2 0 20, .b unset nul 1 1 0 2, .c set lf 1 2 0 4, .c set crlf 1 2 1 5, directories 1 entries 4",
    "files that are asked for | --files --max-dirs=1
     | - - lf 1 2 0 20, .b unset nul 1 1 0 2, .c set lf 1 2 0 4, .c set crlf 1 2 1 5, directories 1 entries 4
       file - lf 2 0 20 .gitattributes, file set lf 2 0 4 x.c, file unset nul 1 0 2 y.b, file set crlf 2 1 5 z.c",
];

/// Rules of a tree under an exclude file and without one, and trees with `.git`. A rule would ignore the link if it were a directory.
const RULED: &[&str] = &[
    "a rule of the tree overrides the exclude file | .gitignore=!x.c; x.c=1; y.c=1; | --exclude-from=*.c
     | - - lf 1 1 0 5, .c - lf 1 1 0 2, directories 1 entries 3",
    "a rule file ignores itself, and applies | .gitignore=.*;*.c; x.c=1; y.c=1; | | directories 1 entries 3",
    ".git is a directory | .git/{ f } link@ .gitignore=link/; | | - - lf 1 1 0 6, directories 1 entries 3",
    ".git is a file | .git link@ .gitignore=link/; | | - - lf 1 1 0 6, directories 1 entries 3",
    ".git is another kind | .git@ link@ .gitignore=link/; | | - - lf 1 1 0 6, directories 1 entries 3",
];

#[test]
fn rules_of_the_tree_are_applied(rt: HostRuntime) -> Result<(), Fail> {
    check_parts(&rt, rt.alloc(), IGNORING, &[BY_RULES])?;
    check_parts(&rt, rt.alloc(), TEXTS, BY_ATTRIBUTES)?;
    check(&rt, rt.alloc(), RULED)?;
    Ok(())
}

const WITH_FAULTS: &[&str] = &[
    "a closed top | /! | | directories 0 entries 0, fault read .",
    "a failing rule file | a.c b.c!yy; d/{ .gitignore! z } |
     | .c - lf 1 1 0 2, directories 1 entries 3, fault read b.c, fault read d/.gitignore",
    "a name twice, and a parent's name | d/{ n n@ } e/{ .. } | | directories 1 entries 2, fault twice d, fault name e",
    ".git can't be listed | .git/! a=x; | | directories 0 entries 0, fault read .git",
    "exclude can't be read | .git/{ info/{ exclude! } } a=x; | | directories 0 entries 0, fault read .git/info/exclude",
];

#[test]
fn faults_are_told_and_not_counted(rt: HostRuntime) -> Result<(), Fail> {
    check(&rt, rt.alloc(), WITH_FAULTS)?;
    Ok(())
}

/// A tree with all the rule files that a top may have.
pub(super) const REPOSITORY: &str = "
    .git/{ info/{ exclude=*.o;!k.c; attributes=[attr]src_text;*.c_src; } }
    .gitignore=k.c;
    .gitattributes=*.c_-text;
    a.o=x;
    k.c=k;
    m.c=m;";

const OF_REPOSITORY: &[&str] = &[
    "rules of the repository | | - - lf 2 2 0 14, .c set lf 1 1 0 2, directories 1 entries 6",
    "an exclude file under them | --exclude-from=!a.o | - - lf 2 2 0 14, .c set lf 1 1 0 2, directories 1 entries 6",
];

#[test]
fn rules_of_the_repository_are_applied(rt: HostRuntime) -> Result<(), Fail> {
    check_parts(&rt, rt.alloc(), REPOSITORY, OF_REPOSITORY)?;
    Ok(())
}
