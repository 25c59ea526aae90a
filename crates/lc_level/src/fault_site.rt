//! The places of errors in a directory.
ghost use Rattle.std.specs.Prelude.{◌≡◌, IfOk};
ghost use Rattle.lc_level.specs.SitePaths.{site_path};

use crate::paths::path_in;
use std::alloc::{AllocError, Global};

/// What could not be read: a directory itself, one of its rule files, or the directory `.git` or `.git/info` in it. The variants `Git`,
/// `GitInfo`, `InfoExclude` and `InfoAttributes` occur only for the top directory of a tree.
#[derive(Clone, Copy, PartialEq, Eq, Debug, Drop)]
pub enum FaultSite {
    /// The directory itself.
    Directory,
    /// The directory `.git` in the top directory of the tree.
    Git,
    /// The directory `.git/info` in the top directory of the tree.
    GitInfo,
    /// The file `.git/info/exclude` in the top directory of the tree.
    InfoExclude,
    /// The file `.git/info/attributes` in the top directory of the tree.
    InfoAttributes,
    /// The `.gitignore` of the directory.
    Gitignore,
    /// The `.gitattributes` of the directory.
    Gitattributes,
}

impl FaultSite {
    /// Returns the path of what could not be read, relative to the top of the tree. `directory` is the path of the directory that could not
    /// be opened.
    pub fn path(self, alloc: Global, directory: &[u8]) -> Result<Vec<u8>, AllocError>
        ensures { IfOk result (λ path. path.items ≡ site_path directory.now self) }
    {
        match self {
            FaultSite::Directory => directory.to_vec(alloc),
            FaultSite::Git => b".git".to_vec(alloc),
            FaultSite::GitInfo => b".git/info".to_vec(alloc),
            FaultSite::InfoExclude => b".git/info/exclude".to_vec(alloc),
            FaultSite::InfoAttributes => b".git/info/attributes".to_vec(alloc),
            FaultSite::Gitignore => path_in(alloc, directory, b".gitignore"),
            FaultSite::Gitattributes => path_in(alloc, directory, b".gitattributes"),
        }
    }
}
