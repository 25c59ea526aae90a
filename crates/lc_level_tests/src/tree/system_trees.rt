//! Tests of `SysTree` on a folder of the host. In some cases, system calls are interrupted as by a signal.

use crate::tree::checks::{Given, Listed, check_files, check_listings};
use crate::tree::system::{Signals, System};
use lc_io::WholeFault;
use lc_tree::{FileSystems, ReadFault, SysTree};
use std::os::unix::fs::symlink;
use std::process::Abort;
use std::test::Fail;
use std::{fs, io};

const FOLDER: &str = "lc_tree_folder";

/// Makes a folder with files, a directory with a file, and symbolic links: to a file, to a directory and to nothing. The names of two files
/// begin with dots.
fn make_folder(rt: &HostRuntime) -> io::Result<()> {
    let _ = fs::remove_dir_all(rt, FOLDER);
    fs::create_dir_all(rt, "lc_tree_folder/b")?;
    fs::write(rt, "lc_tree_folder/a", b"one\n")?;
    fs::write(rt, "lc_tree_folder/.e", b"")?;
    fs::write(rt, "lc_tree_folder/..f", b"")?;
    fs::write(rt, "lc_tree_folder/b/c", b"")?;
    symlink(rt, "a", "lc_tree_folder/to_a")?;
    symlink(rt, "b", "lc_tree_folder/to_b")?;
    symlink(rt, "missing", "lc_tree_folder/to_nothing")
}

const TOP: Listed = Ok("..f .e a b/ to_a@ to_b@ to_nothing@");

const DIRECTORIES: &[(&[u8], Listed)] = &[
    (b"", TOP),
    (b"b", Ok("c")),
    (b"a", Err(ReadFault::Failed)),
    (b"to_b", Err(ReadFault::Failed)),
    (b"missing", Err(ReadFault::Failed)),
    (b"b/\xFF", Err(ReadFault::Failed)),
];

const FILES: &[(&[u8], Given)] = &[
    (b"a", Ok((b"one\n", Ok(())))),
    (b"b/c", Ok((b"", Ok(())))),
    (b"b", Ok((b"", Err(WholeFault::Read)))),
    (b"missing", Err(ReadFault::Failed)),
    (b"a/\xFF", Err(ReadFault::Failed)),
];

const LISTED: &[(&[u8], Listed)] = &[(b"", TOP)];

const OPENED: &[(&[u8], Given)] = &[(b"a", Ok((b"one\n", Ok(()))))];

const NOT_LISTED: &[(&[u8], Listed)] = &[(b"", Err(ReadFault::Failed))];

const NOT_OPENED: &[(&[u8], Given)] = &[(b"a", Err(ReadFault::Failed))];

/// A tree of the host: the path of its top, the period of its signals (see `Signals`), and the expected results for directories and files.
type Case = (
    &'static str,
    u64,
    &'static [(&'static [u8], Listed<'static>)],
    &'static [(&'static [u8], Given<'static>)],
);

const CASES: &[Case] = &[
    (FOLDER, 1, DIRECTORIES, FILES),
    // A link is followed where it is the top.
    ("lc_tree_folder/to_b", 1, &[(b"", Ok("c"))], &[]),
    ("", 1, NOT_LISTED, &[]),
    ("lc_tree_folder/a", 1, NOT_LISTED, &[]),
    ("lc_tree_folder/missing", 1, NOT_LISTED, &[]),
    ("a\0", 1, NOT_LISTED, &[]),
    // Interrupted calls are tried again, and succeed.
    (FOLDER, 2, LISTED, OPENED),
    (FOLDER, 65_536, LISTED, OPENED),
    // Here they end with no answer.
    (FOLDER, 65_537, NOT_LISTED, &[]),
    (FOLDER, 65_537, &[], NOT_OPENED),
];

fn check(
    rt: &impl Abort,
    host: &HostRuntime,
    (top, period, directories, files): &Case,
) -> Result<(), ReadFault> {
    let signals = Signals::new(*period);
    let system = System {
        host,
        given: None,
        signals: &signals,
    };
    let tree = SysTree::new(&system, host.alloc(), top, FileSystems::All)?;
    check_listings(rt, host.alloc(), &tree, directories)?;
    check_files(rt, host.alloc(), &tree, files)
}

#[test]
fn folders_are_listed_and_files_opened(rt: HostRuntime) -> Result<(), Fail> {
    make_folder(&rt)?;
    for case in CASES {
        check(&rt, &rt, case)?;
    }
    fs::remove_dir_all(&rt, FOLDER)?;
    Ok(())
}
