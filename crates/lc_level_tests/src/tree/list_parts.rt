//! Tests that list large directories in parts, and directories whose names the tests choose.

use crate::tree::checks::{Listed, is_listed, text_of};
use crate::tree::system::{Reads, Signals, System};
use lc_tree::{FileSystems, IdleThreads, Listing, ReadFault, SysTree, Tree, list_in_parts};
use std::alloc::Global;
use std::os::unix::fs::symlink;
use std::process::Abort;
use std::test::Fail;
use std::thread::Threads;
use std::{fs, io};

const FOLDER: &str = "lc_tree_large_folder";

/// How many files the folder has.
const FILES: u32 = 3_000;

/// Makes a folder with many files, a directory, and a symbolic link to the directory.
fn make_folder(rt: &HostRuntime) -> io::Result<()> {
    let _ = fs::remove_dir_all(rt, FOLDER);
    fs::create_dir_all(rt, "lc_tree_large_folder/1b")?;
    symlink(rt, "1b", "lc_tree_large_folder/2c")?;
    for number in 0..FILES {
        let path = format!(in rt.alloc(); "{FOLDER}/{number}")?;
        fs::write(rt, path.as_str(), b"")?;
    }
    Ok(())
}

/// Lists the tree's top with the help of this many idle threads, and checks that all of them are given back.
fn listed_with<T: Tree, R: Threads + Abort + Sync>(
    rt: &R,
    alloc: Global,
    tree: &T,
    threads: u32,
) -> Result<Listing, ReadFault> {
    let idle = IdleThreads::all_idle(threads.saturating_add(1));
    let listed = list_in_parts(rt, alloc, tree, b"", &idle);
    let free = idle.take(u32::MAX);
    let back = free.count() == threads;
    idle.give_back(free);
    assert!(rt; back);
    listed
}

/// Checks that the folder is listed with the help of this many idle threads as by one thread.
fn check_folder<T: Tree, R: Threads + Abort + Sync>(
    rt: &R,
    alloc: Global,
    tree: &T,
    threads: u32,
) -> Result<(), ReadFault> {
    let listing = listed_with(rt, alloc, tree, threads)?;
    let same = text_of(alloc, &listing)? == text_of(alloc, &tree.list(alloc, b"")?)?;
    assert!(rt;
        same && listing.entries().len() == 3_002,
        "{threads} threads"
    );
    Ok(())
}

#[test]
fn large_folders_are_listed(rt: HostRuntime) -> Result<(), Fail> {
    make_folder(&rt)?;
    let tree = SysTree::new(&rt, rt.alloc(), FOLDER, FileSystems::All)?;
    for threads in [0, 1, 3, 40] {
        check_folder(&rt, rt.alloc(), &tree, threads)?;
    }
    fs::remove_dir_all(&rt, FOLDER)?;
    Ok(())
}

/// A read of a directory that returns the same name 126 times.
const F: Option<&[u8]> = Some(
    b"f\0f\0f\0f\0f\0f\0f\0f\0f\0f\0f\0f\0f\0f\0f\0f\0f\0f\0f\0f\0f\0f\0f\0f\0f\0f\0f\0f\0f\0f\0f\0f\0f\0f\0f\0f\0f\0f\0f\0f\0f\0f\0\
      f\0f\0f\0f\0f\0f\0f\0f\0f\0f\0f\0f\0f\0f\0f\0f\0f\0f\0f\0f\0f\0f\0f\0f\0f\0f\0f\0f\0f\0f\0f\0f\0f\0f\0f\0f\0f\0f\0f\0f\0f\0f\0\
      f\0f\0f\0f\0f\0f\0f\0f\0f\0f\0f\0f\0f\0f\0f\0f\0f\0f\0f\0f\0f\0f\0f\0f\0f\0f\0f\0f\0f\0f\0f\0f\0f\0f\0f\0f\0f\0f\0f\0f\0f\0f\0",
);

const UNNAMED: Option<&[u8]> = Some(b"f\xFF\0");

const DENIED: Option<&[u8]> = Some(b"x\0");

/// What the reads of a directory return, and the expected listing. Where there are over 1,024 names, an idle thread helps.
const GIVEN: &[(Reads, Listed)] = &[
    (&[], Ok("")),
    (&[Some(b".\0..\0")], Ok("")),
    (&[Some(b"f\0.\0d\0..\0")], Ok("d/ f")),
    (&[Some(b"l\0"), Some(b"f\0")], Ok("f l@")),
    (&[Some(b"f\0gone\0")], Ok("f")),
    (&[Some(b"f\0denied\0x\0")], Err(ReadFault::Failed)),
    (&[Some(b"f\0"), None], Err(ReadFault::Failed)),
    (&[Some(b"f\0f\xFF\0")], Err(ReadFault::Unnamed)),
    (&[Some(b"f\0"), Some(b"f\0")], Err(ReadFault::Twice)),
    (&[Some(b"f/f\0")], Err(ReadFault::BadName)),
    (&[F, F, F, F, F, F, F, F, F], Err(ReadFault::Twice)),
    // The first error decides.
    (
        &[F, UNNAMED, F, F, F, F, F, F, F, DENIED, F],
        Err(ReadFault::Unnamed),
    ),
    (
        &[F, DENIED, F, F, F, F, F, F, F, UNNAMED, F],
        Err(ReadFault::Failed),
    ),
    (
        &[F, UNNAMED, F, F, F, F, F, F, F, F, None],
        Err(ReadFault::Failed),
    ),
];

/// Checks that a directory with these reads is listed as expected, by one thread and with the help of another.
fn check_given<R: Threads + Abort + Sync>(
    rt: &R,
    host: &HostRuntime,
    (reads, wanted): &(Reads, Listed),
) -> Result<(), ReadFault> {
    let signals = Signals::new(1);
    let system = System {
        host,
        given: Some(*reads),
        signals: &signals,
    };
    let alloc = host.alloc();
    let tree = SysTree::new(&system, alloc, "top", FileSystems::All)?;
    let alone = is_listed(alloc, tree.list(alloc, b""), wanted)?;
    let helped = is_listed(alloc, listed_with(rt, alloc, &tree, 1), wanted)?;
    assert!(rt; alone && helped, "{wanted:?}");
    Ok(())
}

#[test]
fn names_may_vanish_fail_or_repeat(rt: HostRuntime) -> Result<(), Fail> {
    for case in GIVEN {
        check_given(&rt, &rt, case)?;
    }
    Ok(())
}
