//! The files that have boxes of their own, in the boxes of the directories that hold them.

ghost use Rattle.std.specs.Prelude.{◌≡◌, ◌++◌, IfOk, OnOk};
ghost use Rattle.lc_walk.specs.Sums.{one_file};
ghost use Rattle.lc_picture.specs.Files.{box_of_file, file_box, files_in, large_files, with_files};

use crate::colours::SHARED_COLOUR;
use crate::drawn_box::DrawnBox;
use crate::small_directories::SmallDirectories;
use lc_census::Count;
use lc_rows::{directory_at, name_of, number_of};
use lc_sheet::Number;
use lc_walk::{FileLine, Sums};
use std::alloc::{AllocError, Global};
use std::marker::Model;

/// A file with a box of its own.
#[derive(Drop)]
pub(crate) struct FileBox<'a> {
    /// The path of the directory whose box holds the box of the file: the path of the file's directory, cut after the `depth` names that
    /// `large_files` allows.
    parent: &'a [u8],
    drawn: DrawnBox<'a>,
}

impl<'a> Model for FileBox<'a> {
    ghost use Rattle.lc_picture.specs.Files.{FileBoxModel};

    ghost Value = { FileBoxModel };

    ghost view = { λ f. record { parent = f.parent.now; drawn = f.drawn } };
}

fn sums_of(count: Count) -> Sums
    ensures { result ≡ one_file count }
{
    Sums {
        files: 1,
        lines: u128::from(count.lines),
        blank: u128::from(count.blank),
        bytes: u128::from(count.bytes),
    }
}

fn box_of_file(file: &FileLine) -> DrawnBox<'_>
    ensures { result ≡ box_of_file 0 file.entry.now }
{
    DrawnBox {
        path: &file.path,
        own_name: name_of(&file.path),
        depth: 0,
        colour: SHARED_COLOUR,
        begins_strip: false,
        sums: sums_of(file.count),
        kinds: &[],
        small: SmallDirectories::none(),
        is_file: true,
        is_rest: false,
    }
}

fn file_box(depth: u32, file: &FileLine) -> FileBox<'_>
    ensures { result ≡ file_box depth file.entry.now }
{
    FileBox {
        parent: directory_at(depth, &file.path),
        drawn: box_of_file(file),
    }
}

/// Returns the boxes of the files whose number `by`, such as lines, is at least `least`. The paths of their directories are cut after
/// `depth` names.
pub(crate) fn large_files<'a>(
    alloc: Global,
    depth: u32,
    by: Number,
    least: u128,
    files: &'a [FileLine],
) -> Result<Vec<FileBox<'a>>, AllocError>
    ensures { IfOk result (λ boxes. boxes.items ≡ large_files depth by least files.entry.now) }
{
    let mut boxes = Vec::new(alloc);
    for file in files {
        if u128::from(number_of(by, file)) >= least {
            boxes.push(file_box(depth, file))?;
        }
    }
    Ok(boxes)
}

/// Appends the boxes of the files that are directly in a directory. `depth` boxes are around them.
fn push_files<'a>(
    boxes: &mut Vec<DrawnBox<'a>>,
    files: &[FileBox<'a>],
    directory: &[u8],
    depth: usize,
) -> Result<(), AllocError>
    ensures { OnOk result (boxes.new.items ≡ boxes.old.items ++ files_in directory.now depth files.now) }
{
    for file in files {
        if directory == file.parent {
            boxes.push(file.drawn.moved(depth, file.drawn.own_name))?;
        }
    }
    Ok(())
}

/// Returns the boxes of directories, depth first. After the box of each directory come the boxes of the files directly in the directory.
///
/// Each directory is compared with each file that has a box. At most a thousand files have one.
pub(crate) fn with_files<'a>(
    alloc: Global,
    files: &[FileBox<'a>],
    directories: &[DrawnBox<'a>],
) -> Result<Vec<DrawnBox<'a>>, AllocError>
    ensures { IfOk result (λ boxes. boxes.items ≡ with_files files.now directories.now) }
{
    let mut boxes = Vec::new(alloc);
    for directory in directories {
        let depth = directory.depth.checked_add(1).ok_or(AllocError)?;
        boxes.push(directory.copy())?;
        push_files(&mut boxes, files, directory.path, depth)?;
    }
    Ok(boxes)
}
