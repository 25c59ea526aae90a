//! Tests of the limits of a walk: directories, segments and bytes of a path, bytes of a rule file.

use crate::walk::drawn::draw_tree;
use crate::walk::walked::{BOARDS, NO_LISTS, check, check_node, report_of, walk_options};
use lc_level::Filters;
use lc_tests::tree;
use lc_tree::{MemTree, Node};
use lc_walk::{Report, WalkFault, walk_first};
use std::alloc::{AllocError, Global};
use std::process::Abort;
use std::sync::Wait;
use std::test::Fail;
use std::thread::Threads;

const FEW: &[&str] = &[
    "one directory of one | a=q | --max-dirs=1 | - - none 1 1 0 1, directories 1 entries 1",
    "one of the most | a=q | --max-dirs=1048576 | - - none 1 1 0 1, directories 1 entries 1",
    "two directories of one | s/ | --max-dirs=1 | too many directories",
    "two of two | s/ | --max-dirs=2 | directories 2 entries 1",
];

#[test]
fn few_directories(rt: HostRuntime) -> Result<(), Fail> {
    check(&rt, rt.alloc(), FEW)?;
    Ok(())
}

/// The greatest number of directories that `lc count` visits by default.
const MOST: u32 = 65_536;

const SEED: u64 = 12_345;

/// Walks a tree of `MOST` directories with four workers, over each board.
fn check_most<R: Threads + Wait + Sync + Abort>(rt: &R, alloc: Global) -> Result<(), AllocError> {
    let drawn = draw_tree(alloc, SEED, MOST)?;
    for board in BOARDS {
        drawn.walk(rt, alloc, *board, 4)?;
    }
    Ok(())
}

#[test]
fn as_many_directories_as_are_taken(rt: HostRuntime) -> Result<(), Fail> {
    let alloc = rt.alloc();
    check_most(&rt, alloc)?;
    let top = draw_tree(alloc, SEED, MOST + 1)?.top;
    check_node(&rt, alloc, &top, "--max-dirs=65536 | too many directories")?;
    Ok(())
}

/// Numbers of directories for which `walk_first` needs a board of one number, of a few, or of all that it may have.
const SMALL_AND_LARGE: &[u32] = &[1, 64, 65, 100];

/// The greatest number of directories of the trees that `walk_first` walks in these tests, and those that it tries first.
const MOST_OF_SEVERAL: u32 = 100;

const TRIED_FIRST: u32 = 64;

/// Walks a tree of this many directories as one of several.
fn walk_one_of_several<R: Threads + Wait + Sync + Abort>(
    rt: &R,
    alloc: Global,
    count: u32,
) -> Result<Result<Report, WalkFault>, AllocError> {
    let top = draw_tree(alloc, SEED, count)?.top;
    let filters = Filters::none(alloc);
    let options = walk_options(rt, 2, MOST_OF_SEVERAL, NO_LISTS, &filters);
    let tree = MemTree::new(&top);
    Ok(walk_first(rt, alloc, &tree, &options, TRIED_FIRST))
}

#[test]
fn one_of_several_trees(rt: HostRuntime) -> Result<(), Fail> {
    for count in SMALL_AND_LARGE {
        let answer = walk_one_of_several(&rt, rt.alloc(), *count)?;
        let report = report_of(&rt, answer)?;
        assert!(rt; report.directories == u64::from(*count), "{count}");
    }
    match walk_one_of_several(&rt, rt.alloc(), MOST_OF_SEVERAL + 1)? {
        Err(WalkFault::Memory) => Err(AllocError)?,
        answer => assert!(rt; matches!(answer, Err(WalkFault::TooManyDirs))),
    }
    Ok(())
}

/// Nested directories that all have one name, and the expected report. The parts are the number of directories; the length of their name;
/// the length of the innermost entry's name, and what follows this name in the sketch; the other entries of the top; and the report.
type Nest = (u32, u32, (u32, &'static str), &'static str, &'static str);

const NESTS: &[Nest] = &[
    (256, 1, (0, ""), "", "directories 257 entries 256"),
    (257, 1, (0, ""), "", "path too deep"),
    // paths of 4,096 and of 4,097 bytes
    (
        15,
        255,
        (256, "="),
        "",
        "- - none 1 0 0 0, directories 16 entries 16",
    ),
    (15, 255, (257, "="), "", "path too deep"),
    (15, 255, (257, "@"), "", "path too deep"),
    (15, 255, (257, "/!"), "", "path too deep"),
    (15, 255, (257, "="), ".gitignore=*;!*/;", "path too deep"),
];

fn push_many(text: &mut String, count: u32, part: &str) -> Result<(), AllocError> {
    for _ in 0..count {
        text.push_str(part)?;
    }
    Ok(())
}

/// Returns the sketch of the tree of nested directories.
fn sketch_of(
    alloc: Global,
    (count, bytes, (last, kind), beside, _): &Nest,
) -> Result<String, AllocError> {
    let mut name = String::new(alloc);
    push_many(&mut name, *bytes, "a")?;
    name.push_str("/{ ")?;
    let mut sketch = format!(in alloc; "{beside} ")?;
    push_many(&mut sketch, *count, &name)?;
    push_many(&mut sketch, *last, "a")?;
    sketch.push_str(kind)?;
    push_many(&mut sketch, *count, " }")?;
    Ok(sketch)
}

#[test]
fn deep_directories_and_long_paths(rt: HostRuntime) -> Result<(), Fail> {
    let alloc = rt.alloc();
    for nest in NESTS {
        let top = tree(alloc, &sketch_of(alloc, nest)?)?;
        let request = format!(in alloc; "--max-dirs=65536 | {}", nest.4)?;
        check_node(&rt, alloc, &top, &request)?;
    }
    Ok(())
}

/// Returns a directory that has only this entry.
fn with_entry(alloc: Global, name: &[u8], node: Node) -> Result<Node, AllocError> {
    let mut entries = Vec::with_capacity(alloc, 1)?;
    entries.push((name.to_vec(alloc)?, node))?;
    Ok(Node::Dir(entries))
}

#[test]
fn a_rule_file_of_a_byte_too_many(rt: HostRuntime) -> Result<(), Fail> {
    let alloc = rt.alloc();
    let file = Node::File(vec![in alloc; b'\n'; 1_048_577]?);
    let directory = with_entry(alloc, b".gitignore", file)?;
    let top = with_entry(alloc, b"d", directory)?;
    let request = "| directories 1 entries 1, fault long d/.gitignore";
    check_node(&rt, alloc, &top, request)?;
    Ok(())
}
