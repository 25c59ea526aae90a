//! Tests that several workers list directories at the same time.

use crate::walk::told::report_text;
use crate::walk::walked::{Board, NO_LISTS, report_over};
use lc_tests::{has_words, tree};
use lc_tree::{Listing, MemFile, MemTree, ReadFault, Tree};
use std::alloc::{AllocError, Global};
use std::process::Abort;
use std::sync::Wait;
use std::sync::atomic::{AtomicUsize, Ordering};
use std::test::Fail;
use std::thread;
use std::thread::Threads;

/// A tree that lists a directory below the top only after listings of all these directories have begun.
#[derive(Drop)]
struct Gate<'a> {
    tree: MemTree<'a>,
    begun: AtomicUsize,
    directories: usize,
}

impl Gate<'_> {
    /// Waits until listings of all directories have begun, but not for ever. Returns whether they have.
    fn opens(&self) -> bool {
        self.begun.fetch_add(1, Ordering::SeqCst);
        for _ in 0..200_000 {
            if self.begun.load(Ordering::SeqCst) >= self.directories {
                return true;
            }
            thread::yield_now();
        }
        false
    }
}

impl<'a> Tree for Gate<'a> {
    type File = MemFile<'a>;

    ghost use Rattle.lc_tests.specs.AnyListings.{AnyListing};
    ghost use Rattle.lc_tree.specs.MemTrees.{content_of, mem_gives};
    ghost use Rattle.lc_tree.specs.Nodes.{node_at};
    ghost use Rattle.lc_tree.specs.Nameless.{nothing_named};
    ghost use Rattle.lc_tree.specs.Trees.{unread};

    ghost lists = { λ t path. AnyListing };

    ghost gives = { λ t path. mem_gives t.tree path };

    fn list(&self, alloc: Global, path: &[u8]) -> Result<Listing, ReadFault> {
        if !path.is_empty() && !self.opens() {
            return Err(ReadFault::Failed);
        }
        self.tree.list(alloc, path)
    }

    fn open_file(&self, alloc: Global, path: &[u8]) -> Result<MemFile<'a>, ReadFault> {
        self.tree.open_file(alloc, path)
    }

    ghost lists_named = { λ t path. nothing_named AnyListing };

    ghost some_listing = { λ t path. (unread, tt, tt) };

    ghost some_content = { λ t path. (content_of (node_at t.tree path), λ rooms pieces stop given. given) };
}

const TWO: &str = "a/{ f } b/{ f }";

const SIXTEEN: &str = "
    a/{ f } b/{ f } c/{ f } d/{ f } e/{ f } f/{ f } g/{ f } h/{ f }
    i/{ f } j/{ f } k/{ f } l/{ f } m/{ f } n/{ f } o/{ f } p/{ f }";

const OF_TWO: &str = "- - lf 2 2 0 4, directories 3 entries 4";

const OF_SIXTEEN: &str = "- - lf 16 16 0 32, directories 17 entries 32";

const WITHOUT_A: &str = "- - lf 1 1 0 2, directories 2 entries 3, fault read a";

const WITHOUT_B: &str = "- - lf 1 1 0 2, directories 2 entries 3, fault read b";

/// The sketch of a tree, the number of its directories below the top, the board and the number of workers of the walk, and the expected
/// report.
type Case = (&'static str, usize, Board, u32, &'static str);

/// If there are as many workers as directories, the listings begin at the same time, and all succeed. One worker alone can't list the
/// directory that it claims first, since nobody begins the other listing.
const CASES: &[Case] = &[
    (TWO, 2, Board::Words, 2, OF_TWO),
    (SIXTEEN, 16, Board::Words, 16, OF_SIXTEEN),
    (TWO, 2, Board::Words, 1, WITHOUT_B),
    (TWO, 2, Board::Locked, 2, OF_TWO),
    (SIXTEEN, 16, Board::Locked, 16, OF_SIXTEEN),
    (TWO, 2, Board::Locked, 1, WITHOUT_A),
];

/// Checks the report of one case, in which `Gate` holds the listings back.
fn check<R: Threads + Wait + Sync + Abort>(
    rt: &R,
    alloc: Global,
    (sketch, directories, board, threads, wanted): &Case,
) -> Result<(), AllocError> {
    let node = tree(alloc, sketch)?;
    let gate = Gate {
        tree: MemTree::new(&node),
        begun: AtomicUsize::new(0),
        directories: *directories,
    };
    let report = report_over(rt, alloc, &gate, (*board, *threads), 100, NO_LISTS)?;
    // If an allocation fails, for a thread or for the reserve, one worker lists after another, which finds the gate shut.
    if *threads > 1 && !report.faults.is_empty() {
        return Err(AllocError);
    }
    let found = report_text(alloc, &report)?;
    assert!(rt; has_words(&found, wanted), "{board:?}, {threads}: {found}");
    Ok(())
}

#[test]
fn workers_list_at_the_same_time(rt: HostRuntime) -> Result<(), Fail> {
    for case in CASES {
        check(&rt, rt.alloc(), case)?;
    }
    Ok(())
}
