//! Functions that compare what the calls of a tree return with what is expected.

use lc_io::{Source, WholeFault, read_whole};
use lc_tests::{push_kind, push_name};
use lc_tree::{Listing, ReadFault, Tree};
use std::alloc::{AllocError, Global};
use std::process::Abort;

/// The expected result of listing a directory: the text of its entries, or an error.
pub(super) type Listed<'a> = Result<&'a str, ReadFault>;

/// The expected bytes of a file and how its reads stop, or the error of opening the file.
pub(super) type Given<'a> = Result<(&'a [u8], Result<(), WholeFault>), ReadFault>;

/// Returns the names of a listing's entries as text, each with the mark of its kind (see `push_kind`).
pub(super) fn text_of(alloc: Global, listing: &Listing) -> Result<String, AllocError> {
    let mut text = String::new(alloc);
    for entry in listing.entries() {
        push_name(&mut text, &entry.name)?;
        push_kind(&mut text, entry.kind)?;
        text.push_str(" ")?;
    }
    Ok(text)
}

/// Returns whether a directory was listed as expected. The only error is a failed allocation.
pub(super) fn is_listed(
    alloc: Global,
    listed: Result<Listing, ReadFault>,
    wanted: &Listed,
) -> Result<bool, ReadFault> {
    match (listed, wanted) {
        (Err(ReadFault::Memory), _) => Err(ReadFault::Memory),
        (Ok(listing), Ok(wanted)) => Ok(text_of(alloc, &listing)?.trim() == *wanted),
        (Err(fault), Err(wanted)) => Ok(fault == *wanted),
        (Ok(_), Err(_)) | (Err(_), Ok(_)) => Ok(false),
    }
}

/// Checks that listing the directory at each path has the expected result.
pub(super) fn check_listings<T: Tree>(
    rt: &impl Abort,
    alloc: Global,
    tree: &T,
    cases: &[(&[u8], Listed)],
) -> Result<(), ReadFault> {
    for (path, wanted) in cases {
        assert!(rt;
            is_listed(alloc, tree.list(alloc, path), wanted)?,
            "{path:?}"
        );
    }
    Ok(())
}

/// Returns whether the reads of an open file return these bytes, and stop like this.
fn is_given<F: Source + Drop>(
    alloc: Global,
    file: F,
    (bytes, stop): &(&[u8], Result<(), WholeFault>),
) -> Result<bool, ReadFault> {
    let mut buffer = [0; 2];
    let mut found = Vec::new(alloc);
    let mut file = file;
    match read_whole(&mut buffer, &mut found, &mut file, 100) {
        Err(WholeFault::Memory) => Err(ReadFault::Memory),
        ended => Ok(ended == *stop && found.as_slice() == *bytes),
    }
}

/// Checks that opening and reading the file at each path have the expected results.
pub(super) fn check_files<T: Tree>(
    rt: &impl Abort,
    alloc: Global,
    tree: &T,
    cases: &[(&[u8], Given)],
) -> Result<(), ReadFault> {
    for (path, wanted) in cases {
        let same = match (tree.open_file(alloc, path), wanted) {
            (Err(ReadFault::Memory), _) => return Err(ReadFault::Memory),
            (Ok(file), Ok(given)) => is_given(alloc, file, given)?,
            (Err(fault), Err(wanted)) => fault == *wanted,
            (Ok(_), Err(_)) | (Err(_), Ok(_)) => false,
        };
        assert!(rt; same, "{path:?}");
    }
    Ok(())
}
