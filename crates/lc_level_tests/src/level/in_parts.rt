//! Directories whose files idle threads help to count: one with many files, and one whose files follow a large file.

use lc_level::{
    CountedFiles, FaultLine, FaultWord, Filters, Job, LevelReader, Opened, ReaderOptions, Scratch,
    SpareThreads,
};
use lc_tests::{numbered_files, tree};
use lc_tree::{IdleThreads, MemTree, Node};
use std::alloc::{AllocError, Global};
use std::process::Abort;
use std::test::Fail;
use std::thread::Threads;

const NOTHING: ReaderOptions<'static> = ReaderOptions {
    left_out: false,
    texts: false,
    named: None,
};

fn is_same(found: &CountedFiles, wanted: &CountedFiles) -> bool {
    let files = found.files.iter().zip(&wanted.files).all(|(file, other)| {
        file.path == other.path && file.text() == other.text() && file.count == other.count
    });
    let faults = found.faults.iter().zip(&wanted.faults).all(|(fault, other)| {
        fault.path == other.path && fault.word == other.word
    });
    files
        && faults
        && found.files.len() == wanted.files.len()
        && found.faults.len() == wanted.faults.len()
}

/// Counts the files of a tree's top: by `count_divided` with these idle threads, or by `count` if `idle` is `None`. The counted files come
/// with the error of an absent path.
fn count_flat<'t, R: Threads + Sync>(
    rt: &R,
    alloc: Global,
    tree: &'t MemTree<'_>,
    filters: &'t Filters<'_>,
    idle: Option<&IdleThreads>,
) -> Result<CountedFiles, AllocError> {
    let reader = LevelReader::new(alloc, tree, filters, NOTHING);
    let mut scratch = Scratch::new(alloc)?;
    let Ok(opened) = reader.open(&Job::top(alloc, filters)?, &mut scratch) else {
        return Err(AllocError);
    };
    let Opened {
        job,
        files,
        mut absent,
        ..
    } = opened;
    absent.push(FaultLine {
        path: b"absent".to_vec(alloc)?,
        word: FaultWord::Absent,
    })?;
    match idle {
        Some(idle) => {
            let threads = SpareThreads { rt, idle };
            reader.count_divided(&threads, &job, files, absent, &mut scratch)
        }
        None => reader.count(&job, files, absent, &mut scratch),
    }
}

/// Checks that a count with this many idle threads finds the same files as a count without them. Afterwards all these threads must be idle
/// again, even if an allocation failed.
fn check<R: Threads + Sync + Abort>(
    rt: &R,
    alloc: Global,
    node: &Node,
    wanted: &CountedFiles,
    threads: u32,
) -> Result<(), AllocError> {
    let idle = IdleThreads::all_idle(threads.saturating_add(1));
    let (tree, filters) = (MemTree::new(node), Filters::none(alloc));
    let counted = count_flat(rt, alloc, &tree, &filters, Some(&idle));
    let free = idle.take(u32::MAX);
    let back = free.count() == threads;
    idle.give_back(free);
    assert!(rt; back, "{threads}");
    assert!(rt; is_same(&counted?, wanted), "{threads}");
    Ok(())
}

/// Checks that a directory has this many files that can be counted, and this many errors, however many threads are idle.
fn check_all<R: Threads + Sync + Abort>(
    rt: &R,
    alloc: Global,
    node: &Node,
    (files, faults): (usize, usize),
) -> Result<(), AllocError> {
    let (tree, filters) = (MemTree::new(node), Filters::none(alloc));
    let wanted = count_flat(rt, alloc, &tree, &filters, None)?;
    assert!(rt; wanted.files.len() == files && wanted.faults.len() == faults);
    for threads in [0, 1, 2, 15, 40] {
        check(rt, alloc, node, &wanted, threads)?;
    }
    Ok(())
}

/// The number of bytes of the large file: over 16 MiB, so that the files after this one are counted in parts.
const LARGE: usize = 17 << 20;

/// Returns a directory of a small file, a large one, and three more. A read fails at the end of the second of these three.
fn files_after_a_large_one(alloc: Global) -> Result<Node, AllocError> {
    let mut top = tree(alloc, "a=a; c=c^; d!d e=e;;")?;
    if let Node::Dir(entries) = &mut top {
        let large = vec![in alloc; b'\n'; LARGE]?;
        entries.push((b"b".to_vec(alloc)?, Node::File(large)))?;
    }
    Ok(top)
}

#[test]
fn files_are_counted_in_parts(rt: HostRuntime) -> Result<(), Fail> {
    let alloc = rt.alloc();
    check_all(&rt, alloc, &numbered_files(alloc, 2000, 7)?, (1714, 287))?;
    check_all(&rt, alloc, &files_after_a_large_one(alloc)?, (4, 2))?;
    Ok(())
}
