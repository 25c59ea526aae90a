//! A directory of the operating system as a tree.
ghost use Rattle.std.specs.Prelude.{◌≡◌, ◌++◌, IfErr, IfOk, Ok, string_bytes};
ghost use Rattle.lc_tree.specs.Named.{bytes_of, LooksAt};
ghost use Rattle.lc_tree.specs.SysLists.{NamesOfSome, SysShows};
ghost use Rattle.lc_tree.specs.SysTrees.{sys_top, IsFaultOfOpening, IsFaultOfPath};

use crate::file_systems::{Bounds, FileSystems};
use crate::listing::listed;
use crate::sys_entries::look_in;
use crate::sys_looks::SysLook;
use crate::sys_names::{open_dir, read_names};
use crate::system_call::uninterrupted;
use crate::{Entry, Listing, ReadFault, Tree};
use lc_io::{Source, StdSource};
use std::alloc::{AllocError, Global};
use std::fs::OpenOptions;
use std::marker::Model;
use std::rt::Files;

/// The number of bytes that are reserved after the path of a directory, for a slash and the name of an entry.
const NAME_ROOM: usize = 256;

/// A directory of the operating system as a tree, with everything under it.
///
/// Symbolic links in the directory, and everything else that is neither a regular file nor a directory, are `Kind::Other`. For
/// `FileSystems::One`, directories that are not on the file system of the tree's top are `Kind::Other` too. If the system reports an error,
/// the error is `ReadFault::Failed`. If a name is not UTF-8, the error is `ReadFault::Unnamed`; of several names with an error, the first
/// decides. An entry that is removed before its metadata are read is not in the listing. A system call that a signal interrupts is
/// repeated, with at most `MAX_TRIES` tries in all.
///
/// An entry whose path in the tree has over `MAX_PATH` bytes is `Kind::Other`. Its metadata are not read, since the system would refuse the
/// path. The path that the system gets begins with the path of the tree's top. If this whole path has over 4,095 bytes, but the path in the
/// tree has at most `MAX_PATH`, the system refuses the path. In this case, listing the entry's directory returns `ReadFault::Failed`.
///
/// A file may be replaced after its metadata were read and before it is opened. `open_file` then opens what replaced the file, even through
/// a symbolic link. If that is a named pipe, `open_file` waits for the pipe's writer.
#[derive(Drop)]
pub struct SysTree<'a, R> {
    files: &'a R,
    // The directory's path and a slash, by which a link to it is followed; nothing where that path is empty.
    top: String,
    bounds: Bounds,
}

impl<'a, R> Model for SysTree<'a, R> {
    ghost use Rattle.std.specs.Prelude.{string_bytes};
    ghost use Rattle.lc_tree.specs.Bounds.{stays};
    ghost use Rattle.lc_tree.specs.SysTrees.{SysTop};

    ghost Value = { SysTop };

    ghost view = { λ t. record { text = string_bytes t.top; stays = stays t.bounds } };
}

impl<'a, R: Files> SysTree<'a, R> {
    /// Makes the tree of the directory at a path. A symbolic link at the path is followed. Nothing is listed yet: if the path is no
    /// directory, listing the tree's top fails later. For `FileSystems::One`, `new` reads which file system the top is on.
    ///
    /// ```
    /// let tree = SysTree::new(&rt, rt.alloc(), "src", FileSystems::All)?;
    /// let listing = tree.list(rt.alloc(), b"")?;
    /// ```
    pub fn new(
        rt: &'a R,
        alloc: Global,
        dir: &str,
        entered: FileSystems,
    ) -> Result<SysTree<'a, R>, AllocError>
        ensures { IfOk result (λ t. t ≡ sys_top dir.now entered) }
    {
        let mut top = String::from_str(alloc, dir)?;
        // With a slash the empty path, which names nothing, would be the root.
        if !dir.is_empty() {
            top.push('/')?;
        }
        let bounds = Bounds::of(rt, top.as_str(), entered);
        Ok(SysTree {
            files: rt,
            top,
            bounds,
        })
    }

    // The system's path of a path of the tree.
    fn full_path(&self, alloc: Global, path: &[u8]) -> Result<String, ReadFault>
        ensures path { IfOk result (λ text. string_bytes text ≡ self.now.text ++ path.now) }
        ensures fault { IfErr result (IsFaultOfPath self.now path.now) }
    {
        let Ok(path) = str::from_utf8(path) else {
            return Err(ReadFault::Failed);
        };
        if self.top.is_empty() {
            return Err(ReadFault::Failed);
        }
        let len = self.top.len().saturating_add(path.len());
        let mut text = String::with_capacity(alloc, len.saturating_add(NAME_ROOM))?;
        text.push_str(&self.top)?;
        text.push_str(path)?;
        Ok(text)
    }

    // The names in the directory at a path.
    fn names_at(&self, alloc: Global, path: &[u8]) -> Result<Vec<Vec<u8>>, ReadFault>
        ensures names { IfOk result (λ names. NamesOfSome ⟦<StdSource<R::Dir> as Source>⟧.may_give (Ok (bytes_of names.items))) }
        ensures fault { IfErr result IsFaultOfOpening }
    {
        let text = match self.full_path(alloc, path) {
            Ok(text) => text,
            Err(fault) => return Err(fault),
        };
        let mut dir = open_dir(self.files, text.as_str())?;
        let names = read_names(alloc, &mut dir)?;
        Ok(names)
    }

    // Looks at these names in the directory at a path.
    fn look_at(
        &self,
        alloc: Global,
        path: &[u8],
        names: Vec<Vec<u8>>,
    ) -> Result<Vec<Entry>, ReadFault>
        ensures { LooksAt (SysShows self.now path.now) (bytes_of names.items) result }
    {
        if names.is_empty() {
            return Ok(Vec::new(alloc));
        }
        let looks = SysLook {
            files: self.files,
            bounds: self.bounds,
        };
        match self.full_path(alloc, path) {
            Ok(text) => look_in(&looks, alloc, path, text, names),
            Err(fault) => Err(fault),
        }
    }
}

impl<R: Files + Sync> Tree for SysTree<'_, R>
where
    R::File: Send,
    R::Dir: Send,
{
    type File = StdSource<R::File>;

    ghost use Rattle.lc_tree.specs.MemTrees.{nothing};
    ghost use Rattle.lc_tree.specs.SysFails.{may_fail};
    ghost use Rattle.lc_tree.specs.SysLists.{NamesOfSome, SysListings, SysShows};
    ghost use Rattle.lc_tree.specs.SysTrees.{AnyContents};

    ghost lists = { λ t path. SysListings ⟦<StdSource<R::Dir> as Source>⟧.may_give t path };

    ghost gives = { λ t path. AnyContents };

    ghost has_names = { λ t path. NamesOfSome ⟦<StdSource<R::Dir> as Source>⟧.may_give };

    ghost shows = { λ t path. SysShows t path };

    fn list(&self, alloc: Global, path: &[u8]) -> Result<Listing, ReadFault> {
        let names = match self.names_at(alloc, path) {
            Ok(names) => names,
            Err(fault) => return Err(fault),
        };
        match self.look_at(alloc, path, names) {
            Ok(entries) => listed(entries),
            Err(fault) => Err(fault),
        }
    }

    fn names(&self, alloc: Global, path: &[u8]) -> Result<Option<Vec<Vec<u8>>>, ReadFault> {
        match self.names_at(alloc, path) {
            Ok(names) => Ok(Some(names)),
            Err(fault) => Err(fault),
        }
    }

    fn look(
        &self,
        alloc: Global,
        path: &[u8],
        names: Vec<Vec<u8>>,
    ) -> Result<Vec<Entry>, ReadFault> {
        self.look_at(alloc, path, names)
    }

    fn open_file(&self, alloc: Global, path: &[u8]) -> Result<StdSource<R::File>, ReadFault> {
        let text = self.full_path(alloc, path)?;
        let opened = uninterrupted(|| {
            OpenOptions::new()
                .read(true)
                .open(self.files, text.as_str())
        });
        match opened {
            Ok(file) => Ok(StdSource(file)),
            Err(_) => Err(ReadFault::Failed),
        }
    }

    ghost lists_named = { λ t path answer by. by };

    ghost some_listing = { λ t path. may_fail ⟦<StdSource<R::Dir> as Source>⟧.may_give t path };

    ghost some_content = { λ t path. (nothing, λ rooms pieces stop given. tt) };
}
