//! The file systems whose directories a `SysTree` enters, and how the tree decides whether to enter a directory.
ghost use Rattle.std.specs.Prelude.{◌≡◌, IsTrue};
ghost use Rattle.lc_tree.specs.Bounds.{is_one, is_outside, stays};

use crate::system_call::uninterrupted;
use std::fs::Metadata;
use std::io;
use std::os::unix::fs::MetadataExt;
use std::rt::Files;

/// Says which directories a `SysTree` enters, by the file systems that they are on.
#[derive(Clone, Copy, Debug, Drop, PartialEq, Eq)]
pub enum FileSystems {
    /// Directories on all file systems.
    All,
    /// Only directories on the file system of the tree's top.
    One,
}

/// Says which directories a `SysTree` enters, by the devices that they are on.
#[derive(Clone, Copy, Debug)]
pub(crate) enum Bounds {
    /// The tree enters all directories.
    Everywhere,
    /// The tree enters only directories on the device with this number.
    Device(u64),
    /// No directory below the top is entered, because the device of the top could not be read.
    TopAlone,
}

impl Bounds {
    /// Returns the bounds of a `SysTree` whose top is at this path of the system, by the file systems that the tree enters.
    pub(crate) fn of<R: Files>(files: &R, top: &str, entered: FileSystems) -> Bounds
        ensures { stays result ≡ is_one entered }
    {
        match entered {
            FileSystems::All => Bounds::Everywhere,
            FileSystems::One => match uninterrupted(|| files.metadata(top)) {
                Ok(found) => Bounds::Device(found.dev()),
                Err(_) => Bounds::TopAlone,
            },
        }
    }

    /// Returns whether a directory on the device with this number is on a file system that the tree does not enter.
    fn is_outside(self, device: u64) -> bool
        ensures { result ≡ is_outside self device }
    {
        match self {
            Bounds::Everywhere => false,
            Bounds::Device(number) => device != number,
            Bounds::TopAlone => true,
        }
    }

    /// Returns whether a directory with this metadata is on a file system that the tree does not enter.
    pub(crate) fn leave_out(self, found: &Metadata) -> bool
        ensures { IsTrue result → IsTrue (stays self) }
    {
        self.is_outside(found.dev())
    }
}
