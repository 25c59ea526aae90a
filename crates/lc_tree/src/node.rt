//! The contents of a tree in memory.
ghost use Rattle.std.specs.Prelude.{◌≡◌};
ghost use Rattle.std.specs.Option.{option_copied};
ghost use Rattle.lc_glob.specs.Path.{segments_of};
ghost use Rattle.lc_tree.specs.Nodes.{kind_of, child_among, child_of, node_below, node_at};

use crate::{Kind, OtherKind};
use lc_glob::cut_at_first;

/// A directory, a file or another entry of a tree in memory.
#[derive(Debug, Drop)]
pub enum Node {
    /// A directory: the names of its entries, in any order, and the node of each.
    Dir(Vec<(Vec<u8>, Node)>),
    /// A directory that can't be listed.
    Closed,
    /// A file of these bytes.
    File(Vec<u8>),
    /// A file whose reads return these bytes, and then an error in place of the file's end.
    Failing(Vec<u8>),
    /// An entry that is neither a file nor a directory that is entered.
    Other(OtherKind),
}

impl Node {
    // What it is in a listing.
    pub(crate) fn kind(&self) -> Kind
        ensures { result ≡ kind_of self.now }
    {
        match self {
            Node::Dir(_) | Node::Closed => Kind::Dir,
            Node::File(_) | Node::Failing(_) => Kind::File,
            Node::Other(what) => Kind::Other(*what),
        }
    }

    // Returns the node of a name in a directory.
    fn child(&self, name: &[u8]) -> Option<&Node>
        ensures { option_copied result ≡ child_of name.now self.now }
    {
        match self {
            Node::Dir(children) => child_among(children, name),
            Node::Closed | Node::File(_) | Node::Failing(_) | Node::Other(_) => None,
        }
    }

    // Returns the node at a path.
    pub(crate) fn at(&self, path: &[u8]) -> Option<&Node>
        ensures { option_copied result ≡ node_at self.now path.now }
    {
        if path.is_empty() {
            return Some(self);
        }
        self.below(path)
    }

    // Returns the node at a path that is not empty, or that has an empty name.
    fn below(&self, path: &[u8]) -> Option<&Node>
        ensures { option_copied result ≡ node_below (segments_of path.now) self.now }
    {
        let mut node = self;
        let mut left = path;
        'names: loop {
            let (name, others) = cut_at_first(b'/', left);
            let Some(child) = node.child(name) else {
                return None;
            };
            let Some(rest) = others else {
                return Some(child);
            };
            node = child;
            left = rest;
        }
    }
}

// Returns the node of the first entry with a name.
fn child_among<'a>(children: &'a [(Vec<u8>, Node)], name: &[u8]) -> Option<&'a Node>
    ensures { option_copied result ≡ child_among name.now children.now }
{
    let found = children.iter().find(|child| child.0.as_slice() == name);
    found.map(|child| &child.1)
}
