//! A tree whose files are read a byte at a time.
ghost use Rattle.lc_tree.specs.Trees.{Opens};

use crate::readers::Bytewise;
use lc_tree::{Listing, ReadFault, Tree};
use std::alloc::Global;

/// A tree that passes calls on to another tree. Each read of a file reads at most one byte.
///
/// ```
/// let node = sketch.node(rt.alloc())?;
/// let tree = BytewiseTree(MemTree::new(&node));
/// ```
#[derive(Debug, Drop)]
pub struct BytewiseTree<T>(pub T);

impl<T: Tree> Tree for BytewiseTree<T> {
    type File = Bytewise<T::File>;

    ghost use Rattle.lc_tests.specs.BytewiseContents.{ByteByByte, held_bytewise};
    ghost use Rattle.lc_tree.specs.Nameless.{nothing_named};

    ghost lists = { λ t path. T.lists t.0 path };

    ghost gives = { λ t path. ByteByByte (T.gives t.0 path) };

    fn list(&self, alloc: Global, path: &[u8]) -> Result<Listing, ReadFault> {
        self.0.list(alloc, path)
    }

    fn open_file(&self, alloc: Global, path: &[u8]) -> Result<Bytewise<T::File>, ReadFault> {
        match self.0.open_file(alloc, path) {
            Ok(file) => Ok(Bytewise(file)),
            Err(fault) => Err(fault),
        }
    }

    ghost lists_named = { λ t path. nothing_named (T.lists t.0 path) };

    ghost some_listing = { λ t path. T.some_listing t.0 path };

    ghost some_content = { λ t path. held_bytewise (T.gives t.0 path) (T.some_content t.0 path) };
}
