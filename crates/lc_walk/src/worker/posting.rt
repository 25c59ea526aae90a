//! Posting the child directories of a directory to the board, so that any worker may claim them.
ghost use Rattle.std.specs.Prelude.{◌∷◌, []};
ghost use Rattle.lc_walk.specs.BoardPasses.{HoldsClaim, IsPassOf};
ghost use Rattle.lc_walk.specs.Posting.{PostsMore, PostsChildren};

use crate::broken_cause::BrokenCause;
use crate::row::{Child, Row};
use crate::worker::Worker;
use lc_board::{PostFault, Shared};
use lc_level::{ChildDirectory, Job};
use lc_tree::Tree;
use std::sync::Wait;
use std::thread::Threads;

impl<B: Shared<Job, Row>, T: Tree, W: Threads + Wait + Sync> Worker<'_, '_, B, T, W> {
    /// Posts one child directory to the board, and appends its name and its number to `children`.
    fn post_child(
        &self,
        pass: &mut B::Pass,
        child: ChildDirectory,
        children: &mut Vec<Child>,
    ) -> Result<(), BrokenCause>
        requires { IsPassOf B.owns B.Pass.view self.now.board.now HoldsClaim pass.old }
        ensures pass { IsPassOf B.owns B.Pass.view self.now.board.now HoldsClaim pass.new }
        ensures posts { PostsMore (child ∷ []) (B.Pass.view pass.old) (B.Pass.view pass.new) children.old.items children.new.items result }
    {
        let ChildDirectory { name, job } = child;
        let number = match self.board.post(self.rt, pass, job) {
            Ok(number) => number,
            Err(PostFault::Full(_)) => return Err(BrokenCause::TooManyDirs),
            Err(PostFault::Memory(_)) => return Err(BrokenCause::Memory),
        };
        match children.push(Child { name, number }) {
            Ok(()) => Ok(()),
            Err(_) => Err(BrokenCause::Memory),
        }
    }

    /// Posts the child directories of the claimed directory to the board, in order. Returns their names and numbers.
    pub(crate) fn post_children(
        &self,
        pass: &mut B::Pass,
        directories: Vec<ChildDirectory>,
    ) -> Result<Vec<Child>, BrokenCause>
        requires { IsPassOf B.owns B.Pass.view self.now.board.now HoldsClaim pass.old }
        ensures pass { IsPassOf B.owns B.Pass.view self.now.board.now HoldsClaim pass.new }
        ensures posts { PostsChildren directories.items (B.Pass.view pass.old) (B.Pass.view pass.new) result }
    {
        let Ok(mut children) = Vec::with_capacity(self.alloc, directories.len()) else {
            return Err(BrokenCause::Memory);
        };
        for child in directories {
            self.post_child(pass, child, &mut children)?;
        }
        Ok(children)
    }
}
