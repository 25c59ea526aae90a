//! Tests that a walk uses its board, which no contract shows. The board of these tests wraps a `Locked`, and refuses each post.
ghost use Rattle.std.specs.Prelude.{◌≡◌, ℕ, ◌≤◌, Some, false, IfOk, IfErr, map, slice_get, vec_len};
ghost use Rattle.lc_board.specs.ClosedBoard.{Settled, RefusesClose};
ghost use Rattle.lc_level.specs.Job.{JobModel};
ghost use Rattle.lc_walk.specs.WalkOptions.{AreWithinLimits};

use crate::walk::walked::{NO_LISTS, check_answer, walk_options};
use crate::walk::walks::IGNORING;
use lc_board::{Claim, CloseFault, Closed, Locked, PostFault, Shared};
use lc_level::{Filters, Job};
use lc_tests::tree;
use lc_tree::MemTree;
use lc_walk::{Options, Report, Row, WalkFault, walk_on};
use std::alloc::{AllocError, Global};
use std::sync::Wait;
use std::test::Fail;
use std::thread::Threads;

/// A board that returns `PostFault::Full` for each post, because the board that it wraps has room for the root directory alone.
#[derive(Drop)]
struct NoPosts<B: Shared<Job, Row>> {
    board: B,
    capacity: u32,
    ghost room: { B.capacity_of board ≤ capacity },
}

impl<B: Shared<Job, Row>> Shared<Job, Row> for NoPosts<B> {
    type Pass = B::Pass;

    ghost capacity_of = { λ b. b.capacity };

    ghost workers_of = { λ b. B.workers_of b.board };

    ghost is_root = { λ b root. B.is_root b.board root };

    ghost owns = { λ b p. B.owns b.board p };

    // A post returns `Full` although numbers are left.
    ghost promises = { record { keeps = B.promises.keeps; compares = B.promises.compares; fills = false } };

    fn start(
        alloc: Global,
        capacity: u32,
        workers: u32,
        root: Job,
    ) -> Result<(NoPosts<B>, Vec<B::Pass>), AllocError> {
        let (board, passes) = B::start(alloc, 1, workers, root)?;
        Ok((NoPosts { board, capacity }, passes))
    }

    fn claim<W: Wait>(&self, rt: &W, pass: &mut B::Pass) -> Claim<Job> {
        self.board.claim(rt, pass)
    }

    fn post<W: Wait>(&self, rt: &W, pass: &mut B::Pass, job: Job) -> Result<u32, PostFault<Job>> {
        self.board.post(rt, pass, job)
    }

    fn give<W: Wait>(&self, rt: &W, pass: &mut B::Pass, row: Row) {
        self.board.give(rt, pass, row);
    }

    fn fault<W: Wait>(&self, rt: &W, pass: &mut B::Pass, row: Row) {
        self.board.fault(rt, pass, row);
    }

    fn close(self, passes: Vec<B::Pass>) -> Result<Closed<Row>, CloseFault>
        requires all { vec_len passes ≡ B.workers_of self.board }
        requires each { (w : ℕ) (p : B.Pass) → slice_get passes.items w ≡ Some p → B.owns self.board p × ((B.Pass.view p).worker ≡ w) }
        ensures settled { IfOk result (λ c. (root : JobModel) → B.is_root self.board root →
            Settled self.capacity (B.workers_of self.board) root
            (record { keeps = B.promises.keeps; compares = B.promises.compares; fills = false })
            (map (λ p. B.Pass.view p) passes.items) c.rows.items) }
        ensures fault { IfErr result (RefusesClose self.capacity (B.workers_of self.board)
            (record { keeps = B.promises.keeps; compares = B.promises.compares; fills = false }) (map (λ p. B.Pass.view p) passes.items)) }
    {
        let NoPosts { board, .. } = self;
        board.close(passes)
    }
}

fn walk_without_posts<R: Threads + Wait + Sync>(
    rt: &R,
    alloc: Global,
    tree: &MemTree,
    options: &Options<'_>,
) -> Result<Report, WalkFault>
    requires { AreWithinLimits options.now }
{
    walk_on::<NoPosts<Locked<Job, Row>>, MemTree, R>(rt, alloc, tree, options)
}

#[test]
fn a_walk_posts_directories_on_its_board(rt: HostRuntime) -> Result<(), Fail> {
    let alloc = rt.alloc();
    let top = tree(alloc, IGNORING)?;
    let filters = Filters::none(alloc);
    for threads in [1, 2, 16] {
        let options = walk_options(&rt, threads, 100, NO_LISTS, &filters);
        let answer = walk_without_posts(&rt, alloc, &MemTree::new(&top), &options);
        check_answer(&rt, alloc, "too many directories", &answer, 0)?;
    }
    Ok(())
}
