//! The names in a directory of the operating system.
ghost use Rattle.std.specs.Prelude.{◌≡◌, ◌++◌, ◌∷◌, ◌<◌, [], IfOk, MatchResult, OnOk, filter, length, not, string_bytes};
ghost use Rattle.lc_glob.specs.Path.{is_no_name};
ghost use Rattle.lc_tree.specs.Named.{bytes_of};
ghost use Rattle.lc_tree.specs.SysNames.{names_in, with_slash, AreNamesRead};
ghost use Rattle.lc_tree.specs.SysTrees.{IsFaultOfOpening};

use crate::ReadFault;
use crate::system_call::uninterrupted;
use lc_glob::cut_at_first;
use lc_io::{Failed, Source, StdSource};
use std::alloc::{AllocError, Global};
use std::rt::Files;

/// The length in bytes of the buffer for one read of a directory, which has room for the names of a few hundred entries.
const NAMES_LEN: usize = 8_192;

/// Opens the directory at a path of the system. Reads of the result return the names in the directory, each with a NUL byte after it.
pub(crate) fn open_dir<R: Files>(files: &R, path: &str) -> Result<StdSource<R::Dir>, ReadFault>
    ensures { MatchResult result (λ _. Unit {0}) IsFaultOfOpening }
{
    match uninterrupted(|| files.open_dir(path)) {
        Ok(dir) => Ok(StdSource(dir)),
        Err(_) => Err(ReadFault::Failed),
    }
}

/// Returns all names that the reads of a directory return up to the directory's end, except `.` and `..`.
pub(crate) fn read_names<S: Source>(alloc: Global, dir: &mut S) -> Result<Vec<Vec<u8>>, ReadFault>
    ensures { MatchResult result (λ names. AreNamesRead S.may_give dir.old (bytes_of names.items) dir.new) IsFaultOfOpening }
{
    let mut buffer = [0; NAMES_LEN];
    read_names_by(alloc, &mut buffer, dir)
}

// All names, by reads into the buffer.
fn read_names_by<S: Source>(
    alloc: Global,
    buffer: &mut [u8],
    dir: &mut S,
) -> Result<Vec<Vec<u8>>, ReadFault>
    requires { 0 < length buffer.old }
    ensures { MatchResult result (λ names. AreNamesRead S.may_give dir.old (bytes_of names.items) dir.new) IsFaultOfOpening }
{
    let mut all = Vec::new(alloc);
    for _turn in 0..u64::MAX {
        match dir.read(buffer) {
            Ok(0) => return Ok(all),
            Ok(len) => add_names(alloc, &buffer[..len], &mut all)?,
            Err(Failed) => return Err(ReadFault::Failed),
        }
    }
    Err(ReadFault::Failed)
}

// Adds the names that bytes hold.
fn add_names(alloc: Global, bytes: &[u8], all: &mut Vec<Vec<u8>>) -> Result<(), AllocError>
    ensures { OnOk result (bytes_of all.new.items ≡ bytes_of all.old.items ++ names_in bytes.now) }
{
    let mut rest = Some(bytes);
    'names: while let Some(left) = rest {
        let (name, others) = cut_at_first(0, left);
        add_name(alloc, name, all)?;
        rest = others;
    }
    Ok(())
}

// Adds a name, unless no entry has it: the empty one behind the last NUL byte, `.` and `..`.
fn add_name(alloc: Global, name: &[u8], all: &mut Vec<Vec<u8>>) -> Result<(), AllocError>
    ensures { OnOk result (bytes_of all.new.items ≡ bytes_of all.old.items ++ filter (λ n. not (is_no_name n)) (name.now ∷ [])) }
{
    if !matches!(name, [] | [b'.'] | [b'.', b'.']) {
        all.push(name.to_vec(alloc)?)?;
    }
    Ok(())
}

/// Returns the path of a directory with a slash at its end, to which the name of an entry is appended.
pub(crate) fn with_slash(path: String) -> Result<String, AllocError>
    ensures { IfOk result (λ text. string_bytes text ≡ with_slash (string_bytes path)) }
{
    let mut path = path;
    if !path.as_bytes().ends_with(b"/") {
        path.push('/')?;
    }
    Ok(path)
}
