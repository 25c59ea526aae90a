//! The system that the program runs in: the directories and files that a command line names.

ghost use Rattle.std.specs.Prelude.{◌≡◌, ℕ, List, Option, option_map, string_bytes, IfOk};
ghost use Rattle.lc_tree.specs.Trees.{Contents, Opens};
ghost use Rattle.lc_tree.specs.declared.file_systems.FileSystems.{FileSystems};
ghost use Rattle.lc_program.specs.declared.repository.Repository.{Repository};
ghost use Rattle.lc_program.specs.declared.unread_reason.UnreadReason.{UnreadReason};

use crate::repository::Repository;
use crate::unread_reason::UnreadReason;
use lc_io::Source;
use lc_tree::{FileSystems, ReadFault, Tree};
use std::alloc::{AllocError, Global};

/// The directories and files that a command line names.
///
/// The ghost member `tree` defines the tree that belongs to each directory's name. The other ghost members define which answers a system
/// may give about a name.
pub trait System {
    /// A directory with everything under it.
    type Tree: Tree + Drop;

    /// An opened file.
    type File: Source + Drop;

    // The tree of the directory with this name. It enters these file systems.
    ghost tree: { Self → List ℕ → FileSystems → Self.Tree };

    // What reads of the file with this name may give each time that it is opened.
    ghost holds: { Self → List ℕ → Contents };

    // The answers that may be given to why the directory with this name could not be listed.
    ghost unlists: { Self → List ℕ → Option UnreadReason → Type 0 };

    // The answers that may be given to why the file with this name could not be read.
    ghost unreads: { Self → List ℕ → Option UnreadReason → Type 0 };

    // The answers that may be given to which repository the directory with this name lies in, below its top.
    ghost lies: { Self → List ℕ → Option Repository → Type 0 };

    // The answers that may be given to which canonical path the directory with this name has.
    ghost stands: { Self → List ℕ → Option (List ℕ) → Type 0 };

    /// Makes the tree of the directory with this name. A walk of the tree enters directories on all file systems, or only those on the file
    /// system of its top. If there is no such directory, the top of the tree can't be listed.
    fn tree(
        &self,
        alloc: Global,
        directory: &str,
        entered: FileSystems,
    ) -> Result<Self::Tree, AllocError>
        ensures { IfOk result (λ t. t ≡ tree self.now directory.now entered) };

    /// Opens the file with this name. The only errors are `ReadFault::Failed` and `ReadFault::Memory`.
    fn open_file(&self, alloc: Global, name: &str) -> Result<Self::File, ReadFault>
        ensures { Opens Self.File.may_give (holds self.now name.now) result };

    /// Returns why the directory with this name can't be listed, or nothing if it can be listed or the system gives no reason.
    fn why_unlisted(
        &self,
        alloc: Global,
        directory: &str,
    ) -> Result<Option<UnreadReason>, AllocError>
        ensures { IfOk result (λ why. unlists self.now directory.now why) };

    /// Returns why the file with this name can't be read, or nothing if it can be read or the system gives no reason.
    fn why_unread(&self, alloc: Global, name: &str) -> Option<UnreadReason>
        ensures { unreads self.now name.now result };

    /// Returns the repository in which the directory with this name lies, below the repository's top, or nothing if the system gives none.
    fn repository_above(&self, alloc: Global, directory: &str) -> Option<Repository>
        ensures { lies self.now directory.now result };

    /// Returns the canonical path of the directory with this name, which has no symbolic link, or nothing if the system gives none.
    fn canonical(&self, alloc: Global, directory: &str) -> Result<Option<String>, AllocError>
        ensures { IfOk result (λ found. stands self.now directory.now (option_map (λ path. string_bytes path) found)) };
}
