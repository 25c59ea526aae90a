//! In-memory trees that are made at random from a seed, each with the sums that a walk must find.
ghost use Rattle.std.specs.Prelude.{◌<◌};

use crate::walk::walked::{Board, ONLY_FILES, report_over};
use lc_tree::{MemTree, Node};
use lc_walk::{Report, Sums};
use std::alloc::{AllocError, Global};
use std::process::Abort;
use std::sync::Wait;
use std::thread::Threads;

type Entries = Vec<(Vec<u8>, Node)>;

/// A tree made from a seed, with the sums over its files that are not ignored.
#[derive(Drop)]
pub(super) struct Drawn {
    pub(super) top: Node,
    directories: u32,
    sums: Sums,
}

/// A generator of random numbers by xorshift.
#[derive(Drop)]
struct Draws {
    state: u64,
}

impl Draws {
    /// Returns the next random number below a bound.
    fn below(&mut self, bound: usize) -> usize
        requires { 0 < bound }
        ensures { result < bound }
    {
        let mut state = self.state;
        state ^= state << 13;
        state ^= state >> 7;
        state ^= state << 17;
        self.state = state;
        state as usize % bound
    }
}

/// The names of a directory's files, in the order of its entries.
const NAMES: [&[u8]; 3] = [b"a.c", IGNORED, b"c"];

const IGNORED: &[u8] = b"b.log";

/// The text of a rule file, whose rule ignores `b.log` only in the rule file's own directory.
const RULES: &[u8] = b"/b.log\n";

/// Returns up to 40 random bytes, some of which are line ends.
fn draw_text(alloc: Global, draws: &mut Draws) -> Result<Vec<u8>, AllocError> {
    let mut bytes = Vec::new(alloc);
    for _ in 0..draws.below(41) {
        let byte = if draws.below(5) == 0 { b'\n' } else { b'x' };
        bytes.push(byte)?;
    }
    Ok(bytes)
}

/// Returns the sums with one more file, which has these bytes.
fn with_file(sums: Sums, bytes: &[u8]) -> Sums {
    let mut sums = sums;
    sums.files = sums.files.wrapping_add(1);
    sums.bytes = sums.bytes.wrapping_add(bytes.len() as u128);
    for line in bytes.split_inclusive(|byte| *byte == b'\n') {
        sums.lines = sums.lines.wrapping_add(1);
        if line == b"\n".as_slice() {
            sums.blank = sums.blank.wrapping_add(1);
        }
    }
    sums
}

/// Returns the files of one directory: one to three, and a rule file if `ruled`. Adds the files that are not ignored to the sums.
fn draw_files(
    alloc: Global,
    draws: &mut Draws,
    sums: &mut Sums,
    ruled: bool,
) -> Result<Entries, AllocError> {
    let mut entries = Vec::new(alloc);
    if ruled {
        *sums = with_file(*sums, RULES);
        entries.push((
            b".gitignore".to_vec(alloc)?,
            Node::File(RULES.to_vec(alloc)?),
        ))?;
    }
    for name in NAMES.iter().take(1 + draws.below(3)) {
        let bytes = draw_text(alloc, draws)?;
        if !ruled || *name != IGNORED {
            *sums = with_file(*sums, &bytes);
        }
        entries.push((name.to_vec(alloc)?, Node::File(bytes)))?;
    }
    Ok(entries)
}

/// Puts each directory into one that comes before it in the list, or into the top, at random. Returns the top.
fn hang_all(
    alloc: Global,
    draws: &mut Draws,
    skipped: Vec<Entries>,
    top: Entries,
) -> Result<Node, AllocError> {
    let mut skipped = skipped;
    let mut top = top;
    for _ in 0..skipped.len() {
        let Some(entries) = skipped.pop() else {
            break;
        };
        let name = format!(in alloc; "d{}", skipped.len())?.into_bytes();
        let child = (name, Node::Dir(entries));
        let parent = draws.below(skipped.len() + 1);
        match skipped.get_mut(parent) {
            Some(parent) => parent.push(child)?,
            None => top.push(child)?,
        }
    }
    Ok(Node::Dir(top))
}

/// Makes a tree of this many directories, but at least one. The top and every tenth directory have a rule file.
pub(super) fn draw_tree(alloc: Global, seed: u64, directories: u32) -> Result<Drawn, AllocError> {
    let mut draws = Draws { state: seed };
    let mut sums = Sums::none();
    let top = draw_files(alloc, &mut draws, &mut sums, true)?;
    let mut skipped = Vec::new(alloc);
    for number in 1..directories {
        skipped.push(draw_files(alloc, &mut draws, &mut sums, number % 10 == 0)?)?;
    }
    Ok(Drawn {
        top: hang_all(alloc, &mut draws, skipped, top)?,
        directories,
        sums,
    })
}

impl Drawn {
    /// Returns whether a report has the sums and numbers of this tree, and no error.
    fn is_told(&self, report: &Report) -> bool {
        report.totals == self.sums
            && report.directories == u64::from(self.directories)
            && report.files.len() as u64 == self.sums.files
            && report.faults.is_empty()
    }

    /// Walks the tree with this many workers and with room for just its directories. Checks that the walk finds what is known of the tree,
    /// and no error.
    pub(super) fn walk<R: Threads + Wait + Sync + Abort>(
        &self,
        rt: &R,
        alloc: Global,
        board: Board,
        threads: u32,
    ) -> Result<Report, AllocError> {
        let (tree, run) = (MemTree::new(&self.top), (board, threads));
        let report = report_over(rt, alloc, &tree, run, self.directories, ONLY_FILES)?;
        assert!(rt;
            self.is_told(&report),
            "{:?}, {} directories, {:?}",
            report.totals,
            report.directories,
            report.faults
        );
        Ok(report)
    }
}
