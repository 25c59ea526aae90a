//! Files of a tree in memory.
ghost use Rattle.std.specs.Prelude.{◌≡◌, MatchOption};
ghost use Rattle.lc_tree.specs.MemTrees.{content_of, nothing};

use crate::Node;
use lc_io::{Failed, Source};
use std::marker::Model;

/// An open file of a tree in memory: the bytes that were not read yet. A read returns bytes from the front, as many as the buffer holds,
/// and allocates nothing.
#[derive(Debug, Drop)]
pub struct MemFile<'a> {
    bytes: &'a [u8],
    // Whether it fails in place of its end.
    fails: bool,
}

impl<'a> Model for MemFile<'a> {
    ghost use Rattle.lc_tree.specs.Trees.{Content};

    ghost Value = { Content };

    ghost view = { λ f. record { bytes = f.bytes.now; fails = f.fails } };
}

impl<'a> MemFile<'a> {
    // The file that a node is.
    pub(crate) fn of_node(node: &'a Node) -> Option<MemFile<'a>>
        ensures { MatchOption result (content_of (Some node.now) ≡ nothing) (λ file. file ≡ content_of (Some node.now)) }
    {
        match node {
            Node::File(bytes) => Some(MemFile {
                bytes,
                fails: false,
            }),
            Node::Failing(bytes) => Some(MemFile { bytes, fails: true }),
            Node::Dir(_) | Node::Closed | Node::Other(_) => None,
        }
    }
}

impl Source for MemFile<'_> {
    ghost use Rattle.lc_tree.specs.MemTrees.{ReadsContent};

    ghost may_give = { λ old room answer new. ReadsContent old room answer new };

    fn read(&mut self, buffer: &mut [u8]) -> Result<usize, Failed> {
        if self.fails && self.bytes.is_empty() {
            return Err(Failed);
        }
        self.bytes.read(buffer)
    }
}
