//! The entries of a directory of the operating system.
ghost use Rattle.std.specs.Prelude.{◌≡◌, ◌++◌, Err, Ok, Option, OnOk, IfErr, string_bytes};
ghost use Rattle.lc_tree.specs.Named.{bytes_of, entry_of, LooksAt};
ghost use Rattle.lc_tree.specs.SysLooks.{is_beyond, ShowsIn, TellsOf};
ghost use Rattle.lc_tree.specs.SysNames.{with_slash};
ghost use Rattle.lc_tree.specs.declared.entry.Kind.{Kind};

use crate::sys_looks::{Look, kind_at};
use crate::sys_names::with_slash;
use crate::{Entry, Kind, OtherKind, ReadFault};
use lc_glob::path::MAX_PATH;
use std::alloc::Global;

/// Returns the entries of the names that still exist in a directory. `directory` is the directory's path in the tree, and `path` is its
/// path in the system. The metadata are read one name after another, up to the first error.
pub(crate) fn look_in<L: Look>(
    looks: &L,
    alloc: Global,
    directory: &[u8],
    path: String,
    names: Vec<Vec<u8>>,
) -> Result<Vec<Entry>, ReadFault>
    ensures { LooksAt (ShowsIn (L.may_answer looks.now) directory.now (with_slash (string_bytes path))) (bytes_of names.items) result }
{
    let Ok(path) = with_slash(path) else {
        return Err(ReadFault::Memory);
    };
    look_at_each(looks, alloc, directory, path, names)
}

// The entries of those names, in a directory whose path of the system ends with a slash.
fn look_at_each<L: Look>(
    looks: &L,
    alloc: Global,
    directory: &[u8],
    path: String,
    names: Vec<Vec<u8>>,
) -> Result<Vec<Entry>, ReadFault>
    ensures { LooksAt (ShowsIn (L.may_answer looks.now) directory.now (string_bytes path)) (bytes_of names.items) result }
{
    let mut path = path;
    let Ok(mut entries) = Vec::with_capacity(alloc, names.len()) else {
        return Err(ReadFault::Memory);
    };
    for name in names {
        if let Err(fault) = look_at_one(looks, directory, &mut path, name, &mut entries) {
            return Err(fault);
        }
    }
    Ok(entries)
}

// Adds the entry of a name, if it is still there.
fn look_at_one<L: Look>(
    looks: &L,
    directory: &[u8],
    path: &mut String,
    name: Vec<u8>,
    entries: &mut Vec<Entry>,
) -> Result<(), ReadFault>
    ensures path { string_bytes path.new ≡ string_bytes path.old }
    ensures entry { OnOk result ((kind : Option Kind)
        × ShowsIn (L.may_answer looks.now) directory.now (string_bytes path.old) name.items (Ok kind)
        × (entries.new.items ≡ entries.old.items ++ entry_of name.items kind)) }
    ensures fault { IfErr result (λ fault. ShowsIn (L.may_answer looks.now) directory.now (string_bytes path.old) name.items (Err fault)) }
{
    let Ok(text) = str::from_utf8(&name) else {
        return Err(ReadFault::Unnamed);
    };
    let Some(kind) = kind_in(looks, directory, path, text)? else {
        return Ok(());
    };
    entries.push(Entry { name, kind })?;
    Ok(())
}

// Returns what a name in a directory names. An entry whose path in the tree is too long is not looked at: the system may refuse so long a
// path, and the whole directory would be an error. A walk reports such an entry as too deep, whatever it is.
fn kind_in<L: Look>(
    looks: &L,
    directory: &[u8],
    path: &mut String,
    name: &str,
) -> Result<Option<Kind>, ReadFault>
    ensures path { string_bytes path.new ≡ string_bytes path.old }
    ensures told { TellsOf (L.may_answer looks.now) directory.now (string_bytes path.old) name.now result }
{
    if is_beyond(directory, name.as_bytes()) {
        return Ok(Some(Kind::Other(OtherKind::Special)));
    }
    let base = path.len();
    path.push_str(name)?;
    let kind = kind_at(looks, path.as_str());
    path.truncate(base);
    kind
}

// Whether the path of a name in a directory is too long for a walk.
fn is_beyond(directory: &[u8], name: &[u8]) -> bool
    ensures { result ≡ is_beyond directory.now name.now }
{
    let slash = usize::from(!directory.is_empty());
    let path = directory.len().saturating_add(slash);
    path.saturating_add(name.len()) > MAX_PATH
}
