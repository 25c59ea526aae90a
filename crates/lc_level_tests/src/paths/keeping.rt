//! Tests of the cache of directories. If the directory of a path was opened for an earlier path and is still cached, the directory is not
//! listed again, and its rules are not read again.

use crate::paths::forms::{explained, unrefused};
use lc_paths::{MAX_KEPT, Outcome};
use lc_tests::tree;
use lc_tests::trees::{FailingCall, FailingTree};
use lc_tests::writers::{Narrow, WhenFull};
use lc_tree::{MemTree, Node};
use std::alloc::{AllocError, Global};
use std::process::Abort;
use std::test::Fail;

const TREE: &str = ".gitignore=*.o;out/; a/{ .gitignore=!k.o; b/{ k.o } } c/{ k.o } out/!";

/// The number of calls that explaining the paths takes: four listings, and two files that are each opened, read, and read to their end.
const CALLS: u64 = 10;

/// Paths in several orders, and the expected text of their explanations.
const ORDERS: &[(&[u8], &[u8])] = &[
    (
        b"k.o\na/k.o\na/b/k.o\nc/k.o\n",
        b"ignored\t.gitignore:1\t*.o\tk.o\n\
          included\ta/.gitignore:1\t!k.o\ta/k.o\n\
          included\ta/.gitignore:1\t!k.o\ta/b/k.o\n\
          ignored\t.gitignore:1\t*.o\tc/k.o\n",
    ),
    (
        b"a/b/k.o\nc/k.o\na/b/z\nc/k.o\na/b/k.o\nc/z\n",
        b"included\ta/.gitignore:1\t!k.o\ta/b/k.o\n\
          ignored\t.gitignore:1\t*.o\tc/k.o\n\
          none\t-\t-\ta/b/z\n\
          ignored\t.gitignore:1\t*.o\tc/k.o\n\
          included\ta/.gitignore:1\t!k.o\ta/b/k.o\n\
          none\t-\t-\tc/z\n",
    ),
    (
        b"a/gone/x.o\nc/k.o\nout/x\na/b/gone/k.o\na/x.o\nout/a/b\na/gone/k.o\n",
        b"ignored\t.gitignore:1\t*.o\ta/gone/x.o\n\
          ignored\t.gitignore:1\t*.o\tc/k.o\n\
          below\t.gitignore:2\tout/\tout/x\n\
          included\ta/.gitignore:1\t!k.o\ta/b/gone/k.o\n\
          ignored\t.gitignore:1\t*.o\ta/x.o\n\
          below\t.gitignore:2\tout/\tout/a/b\n\
          included\ta/.gitignore:1\t!k.o\ta/gone/k.o\n",
    ),
];

/// Returns how many calls of the tree the explanation of these paths takes, and asserts that its text is `text`.
fn calls_of<R: Abort + AllocGlobal>(
    rt: &R,
    tree: &MemTree,
    paths: &[u8],
    text: &[u8],
) -> Result<u64, AllocError> {
    let call = FailingCall::new(u64::MAX);
    let counted = FailingTree { tree, call: &call };
    let mut input = paths;
    let mut out = Narrow::new(rt.alloc(), 1024, text.len(), WhenFull::Fails)?;
    let answer = explained(rt.alloc(), &counted, &mut input, &mut out);
    let answer = unrefused(rt, answer, &out)?;
    assert!(rt; answer == Ok(Outcome::Clean) && out.taken.as_slice() == text);
    Ok(call.begun())
}

/// The number of bytes of a comment. Seven directories with such a comment are kept, with the rules that are read from it; an eighth is too
/// much.
const COMMENT: usize = 1_000_000;

/// Returns a tree of eight directories, each named by a digit, whose rules are one long comment.
fn eight_commented(alloc: Global) -> Result<Node, AllocError> {
    let mut children = Vec::with_capacity(alloc, 8)?;
    for digit in b"01234567" {
        let file = Node::File(vec![in alloc; b'#'; COMMENT]?);
        let directory = Node::Dir(vec![in alloc; (b".gitignore".to_vec(alloc)?, file)]?);
        children.push(([*digit].to_vec(alloc)?, directory))?;
    }
    Ok(Node::Dir(children))
}

/// A path in each of the eight directories.
const IN_EACH: &[u8] = b"0/x\n1/x\n2/x\n3/x\n4/x\n5/x\n6/x\n7/x\n";

const TEXT: &[u8] = b"none\t-\t-\t0/x\nnone\t-\t-\t1/x\nnone\t-\t-\t2/x\nnone\t-\t-\t3/x\n\
                      none\t-\t-\t4/x\nnone\t-\t-\t5/x\nnone\t-\t-\t6/x\nnone\t-\t-\t7/x\n";

/// Returns how many calls it takes to explain a path in each directory, and then another path in the directory that is named by `digit`.
fn calls_with<R: Abort + AllocGlobal>(
    rt: &R,
    tree: &MemTree,
    digit: &[u8],
) -> Result<u64, AllocError> {
    let mut paths = IN_EACH.to_vec(rt.alloc())?;
    paths.extend_from_slice(digit)?;
    paths.extend_from_slice(b"/y\n")?;
    let mut text = TEXT.to_vec(rt.alloc())?;
    text.extend_from_slice(b"none\t-\t-\t")?;
    text.extend_from_slice(digit)?;
    text.extend_from_slice(b"/y\n")?;
    calls_of(rt, tree, &paths, &text)
}

#[test]
fn directories_are_entered_once_up_to_a_bound(rt: HostRuntime) -> Result<(), Fail> {
    let node = tree(rt.alloc(), TREE)?;
    for (paths, text) in ORDERS {
        let calls = calls_of(&rt, &MemTree::new(&node), paths, text)?;
        assert!(rt; calls == CALLS, "{calls}");
    }
    assert!(rt; MAX_KEPT / COMMENT / 16 == 6);
    let large = eight_commented(rt.alloc())?;
    let large = MemTree::new(&large);
    let once = calls_of(&rt, &large, IN_EACH, TEXT)?;
    let last = calls_with(&rt, &large, b"7")?;
    assert!(rt; last == once, "{last} {once}");
    let first = calls_with(&rt, &large, b"0")?;
    assert!(rt; first > once, "{first} {once}");
    Ok(())
}
