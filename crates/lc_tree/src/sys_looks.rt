//! Reading the metadata of the files and directories at paths of the operating system.
ghost use Rattle.std.specs.Prelude.{List, ℕ};
ghost use Rattle.lc_tree.specs.Bounds.{stays};
ghost use Rattle.lc_tree.specs.SysLooks.{Answers, AnyLook, IsKindOf, Tells};

use crate::file_systems::Bounds;
use crate::system_call::uninterrupted;
use crate::{Kind, OtherKind, ReadFault};
use std::fs::Metadata;
use std::io;
use std::io::ErrorKind;
use std::rt::Files;

/// The metadata of the entry at a path, and whether the entry is on a file system that the tree does not enter.
#[derive(Drop)]
pub(crate) struct Looked {
    pub(crate) metadata: Metadata,
    /// Whether the entry is on a file system that the tree does not enter.
    pub(crate) is_outside: bool,
}

/// Reads the metadata of the entries at paths of the operating system. A symbolic link is not followed.
pub(crate) trait Look {
    // What reading the metadata of a path may answer.
    ghost may_answer: { Self → List ℕ → Answers };

    /// Reads the metadata of the entry at a path.
    fn look(&self, path: &str) -> io::Result<Looked>
        ensures { may_answer self.now path.now result };
}

/// Reads metadata by calls of the system itself, and repeats a call that a signal interrupts. Contracts do not say what these calls return,
/// since std's contract of `symlink_metadata` does not.
#[derive(Drop)]
pub(crate) struct SysLook<'a, R> {
    pub(crate) files: &'a R,
    pub(crate) bounds: Bounds,
}

impl<R: Files> Look for SysLook<'_, R> {
    ghost may_answer = { λ looks path. AnyLook (stays looks.bounds) };

    fn look(&self, path: &str) -> io::Result<Looked> {
        match uninterrupted(|| self.files.symlink_metadata(path)) {
            Ok(metadata) => {
                let is_outside = self.bounds.leave_out(&metadata);
                Ok(Looked {
                    metadata,
                    is_outside,
                })
            }
            Err(error) => Err(error),
        }
    }
}

/// Returns what the entry at a path is, or `None` if nothing exists at the path.
pub(crate) fn kind_at<L: Look>(looks: &L, path: &str) -> Result<Option<Kind>, ReadFault>
    ensures { Tells (L.may_answer looks.now path.now) result }
{
    match looks.look(path) {
        Ok(found) => Ok(Some(kind_of(&found))),
        Err(error) if error.kind() == ErrorKind::NotFound => Ok(None),
        Err(_) => Err(ReadFault::Failed),
    }
}

// Returns the kind of an entry with this metadata.
fn kind_of(found: &Looked) -> Kind
    ensures { IsKindOf found.now result }
{
    if found.metadata.is_file() {
        return Kind::File;
    }
    if !found.metadata.is_dir() {
        return Kind::Other(OtherKind::Special);
    }
    if found.is_outside {
        Kind::Other(OtherKind::Mounted)
    } else {
        Kind::Dir
    }
}
