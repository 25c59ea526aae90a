//! A `System` whose directories and files are in memory.

ghost use Rattle.std.specs.Prelude.{◌≡◌};

use lc_program::{Repository, System, UnreadReason};
use lc_tree::{FileSystems, MemFile, MemTree, Node, ReadFault, Tree};
use std::alloc::{AllocError, Global};

/// A `System` whose directories and files are in memory.
#[derive(Drop)]
pub(super) struct MemSystem<'a> {
    /// The directories that a command line may name, each with its name.
    pub(super) directories: &'a [(&'a str, Node)],
    /// The directories in `directories`, without entries on other file systems.
    pub(super) bounded: &'a [(&'a str, Node)],
    /// The directory for any name that `directories` lacks.
    pub(super) absent: &'a Node,
    /// The directory with the files that a command line may name.
    pub(super) files: &'a Node,
    /// The reason that the system gives if a directory or a file can't be read.
    pub(super) why: Option<UnreadReason>,
    /// The repository in which every directory lies, if there is one: its top, and the directory's path in it.
    pub(super) above: Option<(&'static str, &'static str)>,
}

impl<'a> System for MemSystem<'a> {
    type Tree = MemTree<'a>;

    type File = MemFile<'a>;

    ghost use Rattle.std.specs.Prelude.{◌≡◌, ℕ, List, bytes_eq, find, option_map, unwrap_or};
    ghost use Rattle.std.specs.Borrow.{Bor};
    ghost use Rattle.lc_tree.specs.MemTrees.{mem_gives};
    ghost use Rattle.lc_program_tests.specs.Listed.{listed_by};
    ghost use Rattle.lc_tree.specs.declared.node.Node.{Node};

    ghost tree = { λ s name entered. unwrap_or (option_map (λ (d : Bor (List ℕ) × Node). d.1)
        (find (λ (d : Bor (List ℕ) × Node). bytes_eq d.0.now name) (listed_by s.directories.now s.bounded.now entered))) s.absent.now };

    ghost holds = { λ s name. mem_gives s.files.now name };

    ghost unlists = { λ s name answer. Unit {0} };

    ghost unreads = { λ s name answer. answer ≡ s.why };

    ghost lies = { λ s name answer. Unit {0} };

    ghost stands = { λ s name answer. Unit {0} };

    /// Makes the tree, and allocates no memory.
    fn tree(
        &self,
        _alloc: Global,
        directory: &str,
        entered: FileSystems,
    ) -> Result<MemTree<'a>, AllocError> {
        let directories = match entered {
            FileSystems::All => self.directories,
            FileSystems::One => self.bounded,
        };
        let found = directories.iter().find(|named| named.0 == directory);
        Ok(MemTree::new(match found {
            Some(named) => &named.1,
            None => self.absent,
        }))
    }

    fn open_file(&self, alloc: Global, name: &str) -> Result<MemFile<'a>, ReadFault> {
        MemTree::new(self.files).open_file(alloc, name.as_bytes())
    }

    /// Returns `IsFile` for a name that ends with `.json`, and the field `why` for any other name.
    fn why_unlisted(
        &self,
        _alloc: Global,
        directory: &str,
    ) -> Result<Option<UnreadReason>, AllocError> {
        if directory.ends_with(".json") {
            return Ok(Some(UnreadReason::IsFile));
        }
        Ok(self.why)
    }

    fn why_unread(&self, _alloc: Global, _name: &str) -> Option<UnreadReason> {
        self.why
    }

    fn repository_above(&self, alloc: Global, _directory: &str) -> Option<Repository> {
        let (top, path) = self.above?;
        let top = String::from_str(alloc, top).ok()?;
        let path = String::from_str(alloc, path).ok()?;
        Some(Repository { top, path })
    }

    /// Returns a slash and the name, without `./` at its beginning, or nothing for the name `away`.
    fn canonical(&self, alloc: Global, directory: &str) -> Result<Option<String>, AllocError> {
        if directory == "away" {
            return Ok(None);
        }
        let path = directory.strip_prefix("./").unwrap_or(directory);
        let mut canonical = String::from_str(alloc, "/")?;
        canonical.push_str(path)?;
        Ok(Some(canonical))
    }
}
