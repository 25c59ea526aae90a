//! An entry of a directory: its name, and whether it is a file, a directory or something else.
ghost use Rattle.std.specs.Prelude.{◌≡◌};
ghost use Rattle.lc_tree.specs.Kinds.{is_file, is_dir};

use std::marker::Model;

/// Why an entry is neither a file that is read nor a directory that is entered.
#[derive(Clone, Copy, Debug, Drop, PartialEq, Eq)]
pub enum OtherKind {
    /// The entry is neither a regular file nor a directory, but a symbolic link, for instance. Or its path has over `MAX_PATH` bytes, and a
    /// `SysTree` did not look at it.
    Special,
    /// The entry is a directory that the tree does not enter, because the tree enters only directories on the file system of its top.
    Mounted,
}

/// What an entry of a directory is: a regular file, a directory or something else.
#[derive(Clone, Copy, Debug, Drop, PartialEq, Eq)]
pub enum Kind {
    /// A regular file.
    File,
    /// A directory.
    Dir,
    /// Anything else, symbolic links included.
    Other(OtherKind),
}

impl Kind {
    /// Returns whether the entry is a regular file.
    pub fn is_file(self) -> bool
        ensures { result ≡ is_file self }
    {
        matches!(self, Kind::File)
    }

    /// Returns whether the entry is a directory. Returns false for a directory of the kind `OtherKind::Mounted`.
    pub fn is_dir(self) -> bool
        ensures { result ≡ is_dir self }
    {
        matches!(self, Kind::Dir)
    }
}

/// An entry of a directory: its name and its kind.
#[derive(Debug, Drop)]
pub struct Entry {
    /// The bytes of the name, in no particular encoding.
    pub name: Vec<u8>,
    pub kind: Kind,
}

impl Model for Entry {
    ghost use Rattle.lc_tree.specs.Listing.{EntryModel};

    ghost Value = { EntryModel };

    ghost view = { λ e. record { name = e.name.items; kind = e.kind } };
}
