//! Trees in memory.
ghost use Rattle.std.specs.Prelude.{◌≡◌, ◌≢◌, IfOk, map};
ghost use Rattle.lc_tree.specs.MemTrees.{ReadsContent, mem_gives};
ghost use Rattle.lc_tree.specs.Nodes.{entry_of_child};
ghost use Rattle.lc_tree.specs.Trees.{Opens};

use crate::mem_file::MemFile;
use crate::{Entry, Listing, Node, ReadFault, Tree};
use std::alloc::{AllocError, Global};
use std::marker::Model;

/// A tree in memory. Each path always has the same listing or the same contents, unless an allocation fails.
///
/// The error is `ReadFault::Failed` if a path does not exist, if a path to be listed is no directory, or if a path to be opened is no file.
/// If `Listing::new` refuses the entries of a directory, listing the directory returns the corresponding `ReadFault`. If two entries have
/// the same name, a path with this name means the first entry.
#[derive(Debug, Drop)]
pub struct MemTree<'a> {
    top: &'a Node,
}

impl<'a> Model for MemTree<'a> {
    ghost use Rattle.std.specs.Coded.{codes};
    ghost use Rattle.lc_tree.specs.contracts.node.Node as node;
    ghost use Rattle.lc_tree.specs.declared.node.Node.{Node};

    ghost Value = { Node };

    ghost coded = { Prim.hlevel (codes, node.the_row.coded) };

    ghost view = { λ t. t.top.now };
}

impl<'a> MemTree<'a> {
    /// Makes the tree whose top is this node. Allocates nothing.
    ///
    /// ```
    /// let tree = MemTree::new(&top);
    /// let listing = tree.list(rt.alloc(), b"src")?;
    /// ```
    pub fn new(top: &'a Node) -> MemTree<'a>
        ensures { result ≡ top.now }
    {
        MemTree { top }
    }
}

// The entries of a directory, as a listing has them.
fn entries_of(alloc: Global, children: &[(Vec<u8>, Node)]) -> Result<Vec<Entry>, AllocError>
    ensures { IfOk result (λ entries. entries.items ≡ map entry_of_child children.now) }
{
    let mut entries = Vec::with_capacity(alloc, children.len())?;
    for child in children {
        let name = child.0.to_vec(alloc)?;
        let kind = child.1.kind();
        entries.push(Entry { name, kind })?;
    }
    Ok(entries)
}

impl<'a> Tree for MemTree<'a> {
    type File = MemFile<'a>;

    ghost use Rattle.lc_tree.specs.MemTrees.{content_of, mem_lists, mem_gives};
    ghost use Rattle.lc_tree.specs.Nodes.{node_at};
    ghost use Rattle.lc_tree.specs.MemListings.{tells_some};
    ghost use Rattle.lc_tree.specs.Nameless.{nothing_named};

    ghost lists = { mem_lists };

    ghost gives = { mem_gives };

    fn list(&self, alloc: Global, path: &[u8]) -> Result<Listing, ReadFault> {
        let Some(Node::Dir(children)) = self.top.at(path) else {
            return Err(ReadFault::Failed);
        };
        let entries = entries_of(alloc, children)?;
        Ok(Listing::new(entries)?)
    }

    /// Opens the file at a path. Allocates nothing, so the error is never `ReadFault::Memory`.
    fn open_file(&self, _alloc: Global, path: &[u8]) -> Result<MemFile<'a>, ReadFault>
        ensures given { Opens ReadsContent (mem_gives self.now path.now) result }
        ensures no_memory { result ≢ Err ReadFault.Memory }
    {
        let Some(node) = self.top.at(path) else {
            return Err(ReadFault::Failed);
        };
        match MemFile::of_node(node) {
            Some(file) => Ok(file),
            None => Err(ReadFault::Failed),
        }
    }

    ghost lists_named = { λ t path. nothing_named (mem_lists t path) };

    ghost some_listing = { λ t path. tells_some (node_at t path) };

    ghost some_content = { λ t path. (content_of (node_at t path), λ rooms pieces stop given. given) };
}
