//! Descriptions of in-memory trees that fit in a constant table.
ghost use Rattle.std.specs.Prelude.{IfOk};
ghost use Rattle.lc_tests.specs.Sketches.{IsTreeOf};

use lc_tree::{Node, OtherKind};
use std::alloc::{AllocError, Global};

/// A description of an in-memory tree that fits in a constant table, for tests and benchmarks.
///
/// ```
/// let top = Sketch::Dir(&[(b"a.c", Sketch::File(b"int a;\n")), (b"b", Sketch::Dir(&[]))]);
/// let node = top.node(rt.alloc())?;
/// ```
#[derive(Clone, Copy)]
pub enum Sketch<'a> {
    Dir(&'a [(&'a [u8], Sketch<'a>)]),
    Closed,
    File(&'a [u8]),
    Failing(&'a [u8]),
    Other(OtherKind),
}

impl Sketch<'_> {
    /// Makes the tree that the sketch describes: the tree has at each path what the sketch has at this path. If a name occurs twice in a
    /// directory, the first entry counts.
    pub fn node(&self, alloc: Global) -> Result<Node, AllocError>
        ensures { IfOk result (λ node. IsTreeOf self.now node) }
    {
        match self {
            Sketch::Dir(entries) => {
                let mut children = Vec::with_capacity(alloc, entries.len())?;
                for entry in *entries {
                    let (name, sketch) = entry;
                    children.push((name.to_vec(alloc)?, sketch.node(alloc)?))?;
                }
                Ok(Node::Dir(children))
            }
            Sketch::Closed => Ok(Node::Closed),
            Sketch::File(bytes) => Ok(Node::File(bytes.to_vec(alloc)?)),
            Sketch::Failing(bytes) => Ok(Node::Failing(bytes.to_vec(alloc)?)),
            Sketch::Other(what) => Ok(Node::Other(*what)),
        }
    }
}
