//! Tests of single calls: methods of a `System`, and the functions `misuse` and `give_up`.

use crate::runs::mem_system::MemSystem;
use lc_io::Source;
use lc_program::{Cause, Repository, System, UnreadReason, give_up, misuse};
use lc_tests::Sketch;
use lc_tree::{FileSystems, Node, Tree};
use std::alloc::AllocError;
use std::test::Fail;

const TOP: Sketch<'static> = Sketch::Dir(&[(b"a", Sketch::File(b"x"))]);

/// Reads the first bytes of a file, and returns how many there are, or 0 if the read fails.
fn first<S: Source + Drop>(mut file: S, buffer: &mut [u8]) -> usize {
    match file.read(buffer) {
        Ok(count) => count,
        Err(_) => 0,
    }
}

#[test]
fn answers_of_a_system(rt: HostRuntime) -> Result<(), Fail> {
    let directories = vec![in rt.alloc(); ("top", TOP.node(rt.alloc())?)]?;
    let system = MemSystem {
        directories: &directories,
        bounded: &[],
        absent: &Node::Closed,
        files: &directories[0].1,
        why: Some(UnreadReason::Missing),
        above: Some(("..", "top")),
    };
    let tree = system.tree(rt.alloc(), "top", FileSystems::All)?;
    let listing = tree.list(rt.alloc(), b"")?;
    assert!(rt; listing.entries().len() == 1);
    let file = system.open_file(rt.alloc(), "a")?;
    let mut buffer = [0; 4];
    assert!(rt; first(file, &mut buffer) == 1 && buffer[0] == b'x');
    let why = system.why_unlisted(rt.alloc(), "top")?;
    assert!(rt; matches!(why, Some(UnreadReason::Missing)));
    let why = system.why_unread(rt.alloc(), "list");
    assert!(rt; matches!(why, Some(UnreadReason::Missing)));
    let Some(Repository { top, path }) = system.repository_above(rt.alloc(), "top") else {
        return Err(AllocError.into());
    };
    assert!(rt; top.as_str() == ".." && path.as_str() == "top");
    Ok(())
}

#[test]
fn what_is_told(rt: HostRuntime) -> Result<(), Fail> {
    let mut err = Vec::with_capacity(rt.alloc(), 4096)?;
    assert!(rt; misuse("lc: no\n", &mut err).status() == 2);
    assert!(rt; give_up(rt.alloc(), Cause::TooDeep, &mut err).status() == 3);
    assert!(rt; err.as_slice() == b"lc: no\nlc: path too deep\n".as_slice());
    Ok(())
}
