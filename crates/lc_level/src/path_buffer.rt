//! A buffer for a directory's path, and for the path of one of its entries at a time.
ghost use Rattle.std.specs.Prelude.{◌≡◌, OnOk};
ghost use Rattle.lc_glob.specs.Path.{path_in};
ghost use Rattle.lc_level.specs.PathBuffers.{IsNamed};

use crate::OpenFault;
use lc_glob::path::{is_too_long, push_name};
use std::alloc::{AllocError, Global};
use std::marker::Model;

/// The path of a directory, followed by the name of one entry at a time, so that a path needs no allocation of its own.
#[derive(Debug, Drop)]
pub(crate) struct PathBuffer {
    bytes: Vec<u8>,
    // The length of the directory's path.
    base: usize,
}

impl Model for PathBuffer {
    ghost use Rattle.std.specs.Prelude.{◌≤◌, take, length};
    ghost use Rattle.lc_level.specs.PathBuffers.{PathBufferModel};

    ghost Value = { PathBufferModel };

    ghost view = { λ p. record { directory = take p.base p.bytes.items; path = p.bytes.items } };

    ghost invariant = { λ p. p.base ≤ length p.bytes.items };
}

impl PathBuffer {
    /// Returns the buffer of the empty path.
    pub(crate) fn new(alloc: Global) -> PathBuffer {
        PathBuffer {
            bytes: Vec::new(alloc),
            base: 0,
        }
    }

    /// Sets the directory, whose path is then the buffer's path.
    pub(crate) fn enter(&mut self, directory: &[u8]) -> Result<(), AllocError>
        ensures { OnOk result (self.new.directory ≡ directory.now) }
    {
        self.base = 0;
        self.bytes.clear();
        self.bytes.extend_from_slice(directory)?;
        self.base = self.bytes.len();
        Ok(())
    }

    /// Sets the path to that of the directory's entry of this name.
    pub(crate) fn set_name(&mut self, name: &[u8]) -> Result<(), AllocError>
        ensures same { self.new.directory ≡ self.old.directory }
        ensures path { OnOk result (self.new.path ≡ path_in self.old.directory name.now) }
    {
        self.bytes.truncate(self.base);
        push_name(&mut self.bytes, name)?;
        Ok(())
    }

    /// Like `set_name`, but returns an error if the path is too long for a walk.
    pub(crate) fn set_short(&mut self, name: &[u8]) -> Result<(), OpenFault>
        ensures same { self.new.directory ≡ self.old.directory }
        ensures named { IsNamed (path_in self.old.directory name.now) self.new.path result }
    {
        let Ok(()) = self.set_name(name) else {
            return Err(OpenFault::Memory);
        };
        let path = self.as_slice();
        if is_too_long(path) {
            return Err(OpenFault::TooDeep);
        }
        Ok(())
    }

    /// Returns the path that was set last.
    pub(crate) fn as_slice(&self) -> &[u8]
        ensures { result.now ≡ self.now.path }
    {
        &self.bytes
    }
}
