//! Tests of walks of only some paths of a tree: what such a walk finds, and how many calls it makes on the tree.

use crate::walk::walked::check_parts;
use std::test::Fail;

/// A tree in which two directories and a file can't be read.
const TREE: &str = "
    .gitattributes=*.c_text;
    .gitignore=*.log;
    a.c
    other/!
    src/{
        .gitignore=gen/;
        b.c!x;
        deep/{ x.c y.log }
        gen/{ g }
        m.c
        more/!
    }";

const PARTS: &[&str] = &[
    "all: what can't be read is met | --files --left-out --max-dirs=5
     | - - lf 3 3 0 20, .c set lf 3 3 0 6
       directories 3 entries 13
       file - lf 1 0 9 .gitattributes, file - lf 1 0 6 .gitignore, file set lf 1 0 2 a.c
       file - lf 1 0 5 src/.gitignore, file set lf 1 0 2 src/deep/x.c, file set lf 1 0 2 src/m.c
       left rule .gitignore:1 src/deep/y.log, left rule */.gitignore:1 src/gen/
       fault read other, fault read src/b.c, fault read src/more
       calls 35",
    "no path: the top is read alone | --files --left-out --no-path --max-dirs=1 | directories 1 entries 0 calls 7",
    "a file: the rules above it hold, and nothing else is read | --files --left-out src/deep/x.c
     | .c set lf 1 1 0 2, directories 3 entries 3, file set lf 1 0 2 src/deep/x.c, calls 15",
    "a directory | --files --left-out src/deep
     | .c set lf 1 1 0 2
       directories 3 entries 4
       file set lf 1 0 2 src/deep/x.c
       left rule .gitignore:1 src/deep/y.log
       calls 15",
    "two paths, one of them twice | --files --left-out src/m.c a.c src/m.c
     | .c set lf 2 2 0 4, directories 2 entries 3, file set lf 1 0 2 a.c, file set lf 1 0 2 src/m.c, calls 17",
    "absent paths, one of them twice: below a file, with the beginning of a name, in directories
     | --files --left-out src/deep/none sr a.c/b none/x sr
     | directories 3 entries 2
       fault absent a.c/b, fault absent none/x, fault absent sr, fault absent src/deep/none
       calls 12",
    "a directory, and an absent path in it | --files --left-out src/deep src/deep/none
     | .c set lf 1 1 0 2
       directories 3 entries 4
       file set lf 1 0 2 src/deep/x.c
       left rule .gitignore:1 src/deep/y.log
       fault absent src/deep/none
       calls 15",
    "a file that is ignored, and one below a directory that is | --files --left-out src/deep/y.log src/gen/g
     | directories 3 entries 4, left rule .gitignore:1 src/deep/y.log, left rule */.gitignore:1 src/gen/, calls 12",
    "a file that can't be read | --files --left-out src/b.c | directories 2 entries 2, fault read src/b.c, calls 14",
];

/// A tree with names that begin alike, followed by bytes that sort before or after the slash. The directories next to `a` can't be read.
const ALIKE: &str = "a/{ b/{ c.c d.c } b.c!x; b0/! x.c } a-b/! a.b/! a0/!";

const PARTS_OF_ALIKE: &[&str] = &[
    "names that begin alike, in no order, and a directory with paths below it
     | --files --left-out a/x.c a/b/none a/b a/x.c/k a/b/d.c a/b- a- a/b/none
     | .c - lf 3 3 0 6
       directories 3 entries 5
       file - lf 1 0 2 a/b/c.c, file - lf 1 0 2 a/b/d.c, file - lf 1 0 2 a/x.c
       fault absent a-, fault absent a/b-, fault absent a/b/none, fault absent a/x.c/k",
];

#[test]
fn only_what_leads_to_a_path_is_read(rt: HostRuntime) -> Result<(), Fail> {
    check_parts(&rt, rt.alloc(), TREE, PARTS)?;
    check_parts(&rt, rt.alloc(), ALIKE, PARTS_OF_ALIKE)?;
    Ok(())
}
