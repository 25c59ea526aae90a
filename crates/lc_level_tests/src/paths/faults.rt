//! Tests of explanations with trees in which one call fails, such as a listing or a read.

use crate::paths::forms::{explained, unrefused};
use lc_paths::Outcome;
use lc_tests::tree;
use lc_tests::trees::{FailingCall, FailingTree};
use lc_tests::writers::{Narrow, WhenFull};
use lc_tree::MemTree;
use std::process::Abort;
use std::test::Fail;

const NESTED: &str = ".gitignore=*.o; d/{ .gitignore=!k.o; k.o }";

const PATHS: &[u8] = b"d/a.o\nd/k.o\n";

/// The number of calls that explaining both paths takes: two listings, and two files that are each opened, read, and read to their end. So
/// nothing is read twice.
const CALLS: u64 = 8;

const WHOLE: &[u8] = b"ignored\t.gitignore:1\t*.o\td/a.o\nincluded\td/.gitignore:1\t!k.o\td/k.o\n";

/// Returns the text that is written if the call at a place fails: the first path's line names the error, and for the second path the tree
/// is read again.
fn text_at(place: u64) -> &'static [u8] {
    match place {
        0 => b"fault\tread\t-\t.\nincluded\td/.gitignore:1\t!k.o\td/k.o\n",
        1..4 => b"fault\tread\t-\t.gitignore\nincluded\td/.gitignore:1\t!k.o\td/k.o\n",
        4 => b"fault\tread\t-\td\nincluded\td/.gitignore:1\t!k.o\td/k.o\n",
        5..8 => b"fault\tread\t-\td/.gitignore\nincluded\td/.gitignore:1\t!k.o\td/k.o\n",
        _ => WHOLE,
    }
}

#[test]
fn each_call_fails(rt: HostRuntime) -> Result<(), Fail> {
    let node = tree(rt.alloc(), NESTED)?;
    let tree = MemTree::new(&node);
    for place in 0..CALLS + 1 {
        let call = FailingCall::new(place);
        let failing = FailingTree {
            tree: &tree,
            call: &call,
        };
        let mut input = PATHS;
        let mut out = Narrow::new(rt.alloc(), 64, 128, WhenFull::Fails)?;
        let answer = explained(rt.alloc(), &failing, &mut input, &mut out);
        let answer = unrefused(&rt, answer, &out)?;
        let outcome = if place < CALLS {
            Outcome::SomeFaults
        } else {
            Outcome::Clean
        };
        assert!(rt; answer == Ok(outcome), "at {place}");
        assert!(rt; out.taken.as_slice() == text_at(place), "at {place}");
        assert!(rt; place < CALLS || call.begun() == CALLS, "{}", call.begun());
    }
    Ok(())
}
