//! An implementation of the trait `Files` for tests. It can make calls fail as if a signal interrupted them, and a test may choose the
//! names in the directory `top/`.
ghost use Rattle.std.specs.Io.{ReadsAtMost};

use std::alloc::Allocator;
use std::fs::{File, Metadata, OpenOptions};
use std::io::{Error, ErrorKind, Read, Result as IoResult};
use std::rt::Files;
use std::sync::atomic::{AtomicU64, Ordering};

/// What the reads of a directory return, one after another: the bytes of names, or `None` for an error.
pub(super) type Reads = &'static [Option<&'static [u8]>];

/// Interrupts all calls except every `period`-th call.
#[derive(Drop)]
pub(super) struct Signals {
    calls: AtomicU64,
    period: u64,
}

impl Signals {
    /// Makes signals that interrupt all calls except every `period`-th call.
    pub(super) fn new(period: u64) -> Signals {
        Signals {
            calls: AtomicU64::new(0),
            period,
        }
    }

    fn call(&self) -> IoResult<()> {
        let before = self.calls.fetch_add(1, Ordering::SeqCst);
        if before.wrapping_add(1) % self.period.max(1) == 0 {
            Ok(())
        } else {
            Err(Error::from(ErrorKind::Interrupted))
        }
    }
}

/// The files of the host. If `given` is set, the only directory is `top/`, and the first byte of a name in `top/` decides what the name is.
/// `f`, `d` and `l` are a file, a directory and a symbolic link. A name with `g` does not exist, and any other name gives an error.
#[derive(Drop)]
pub(super) struct System<'a> {
    pub host: &'a HostRuntime,
    pub given: Option<Reads>,
    pub signals: &'a Signals,
}

/// Where the names of a directory come from: a directory of the host, or reads that a test chooses.
#[derive(Drop)]
pub(super) enum Source {
    Host(<HostRuntime as Files>::Dir),
    Given(Reads),
}

#[derive(Drop)]
pub(super) struct Names<'a> {
    source: Source,
    at: usize,
    signals: &'a Signals,
}

/// Returns what the read at this index returns, in the list of reads.
fn read_given(reads: Reads, at: usize, buffer: &mut [u8]) -> IoResult<usize>
    ensures { ReadsAtMost result buffer.new }
{
    if at >= reads.len() {
        return Ok(0);
    }
    let Some(names) = reads[at] else {
        return Err(Error::from(ErrorKind::Other));
    };
    let len = names.len().min(buffer.len());
    buffer[..len].copy_from_slice(&names[..len]);
    Ok(len)
}

impl Read for Names<'_> {
    fn read(&mut self, buffer: &mut [u8]) -> IoResult<usize> {
        self.signals.call()?;
        let at = self.at;
        self.at = at.saturating_add(1);
        match &mut self.source {
            Source::Host(dir) => dir.read(buffer),
            Source::Given(reads) => read_given(*reads, at, buffer),
        }
    }
}

fn unsupported<T>() -> IoResult<T> {
    Err(Error::from(ErrorKind::Unsupported))
}

/// Returns the metadata of a path in `top/`, by the first byte of the name.
fn told_of(path: &str) -> IoResult<Metadata> {
    match path.as_bytes() {
        [b't', b'o', b'p', b'/', b'f', ..] => Ok(Metadata::of_file(1)),
        [b't', b'o', b'p', b'/', b'd', ..] => Ok(Metadata::of_dir()),
        [b't', b'o', b'p', b'/', b'l', ..] => Ok(Metadata::of_symlink(1)),
        [b't', b'o', b'p', b'/', b'g', ..] => Err(Error::from(ErrorKind::NotFound)),
        _ => Err(Error::from(ErrorKind::PermissionDenied)),
    }
}

impl<'a> Files for System<'a> {
    type File = File;

    type Dir = Names<'a>;

    fn open_file(&self, how: &OpenOptions, path: &str) -> IoResult<File> {
        self.signals.call()?;
        self.host.open_file(how, path)
    }

    fn open_dir(&self, path: &str) -> IoResult<Names<'a>> {
        self.signals.call()?;
        let source = match self.given {
            None => Source::Host(self.host.open_dir(path)?),
            Some(reads) if path == "top/" => Source::Given(reads),
            Some(_) => return Err(Error::from(ErrorKind::NotFound)),
        };
        Ok(Names {
            source,
            at: 0,
            signals: self.signals,
        })
    }

    fn metadata(&self, _path: &str) -> IoResult<Metadata> {
        unsupported()
    }

    fn symlink_metadata(&self, path: &str) -> IoResult<Metadata> {
        self.signals.call()?;
        if self.given.is_some() {
            told_of(path)
        } else {
            self.host.symlink_metadata(path)
        }
    }

    fn copy(&self, _from: &str, _to: &str) -> IoResult<u64> {
        unsupported()
    }

    fn rename(&self, _from: &str, _to: &str) -> IoResult<()> {
        unsupported()
    }

    fn remove_file(&self, _path: &str) -> IoResult<()> {
        unsupported()
    }

    fn create_dir(&self, _path: &str) -> IoResult<()> {
        unsupported()
    }

    fn remove_dir(&self, _path: &str) -> IoResult<()> {
        unsupported()
    }

    fn remove_dir_all<B: Allocator>(&self, _alloc: B, _path: &str) -> IoResult<()> {
        unsupported()
    }
}
