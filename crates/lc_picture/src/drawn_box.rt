//! A box of the picture, which shows a directory, a file or the rest of a directory.

ghost use Rattle.std.specs.Prelude.{◌≡◌};
ghost use Rattle.lc_picture.specs.Boxes.{moved, painted};

use crate::small_directories::SmallDirectories;
use lc_rows::ShownRow;
use lc_walk::Sums;
use std::marker::Model;

/// A directory, a file or the rest of a directory that the picture shows as a box.
#[derive(Drop)]
pub(crate) struct DrawnBox<'a> {
    /// The path of the directory or the file, or of the directory whose rest it is. The path of the top is empty.
    pub(crate) path: &'a [u8],
    /// The part of the path that follows the path of the box around this box. In most trees this is the last name. It is
    /// empty for the top and for a rest.
    pub(crate) own_name: &'a [u8],
    /// The number of boxes around this box.
    pub(crate) depth: usize,
    /// The colour of the box. Colours are numbers (see `colours`).
    pub(crate) colour: usize,
    /// Whether a strip of boxes begins with the box.
    pub(crate) begins_strip: bool,
    /// The sums over the files in the directory and below it, over the file alone, or over the files in the rest.
    pub(crate) sums: Sums,
    /// The sums over the files in the directory and below it by extension. A file and a rest have none.
    pub(crate) kinds: &'a [ShownRow<'a>],
    /// How many directories directly in this directory are too small for boxes of their own, and the sum of their numbers, such as lines. A
    /// file has none.
    pub(crate) small: SmallDirectories,
    /// Whether the box shows a file.
    pub(crate) is_file: bool,
    /// Whether the box shows the rest of a directory: what is directly in the directory, and has no box of its own.
    pub(crate) is_rest: bool,
}

impl<'a> Model for DrawnBox<'a> {
    ghost use Rattle.lc_picture.specs.Boxes.{BoxModel};

    ghost Value = { BoxModel };

    ghost view = { λ b. record {
      path = b.path.now;
      own_name = b.own_name.now;
      depth = b.depth;
      colour = b.colour;
      begins_strip = b.begins_strip;
      sums = b.sums;
      kinds = b.kinds.now;
      small = b.small;
      is_file = b.is_file;
      is_rest = b.is_rest;
    } };
}

impl<'a> DrawnBox<'a> {
    pub(crate) fn copy(&self) -> DrawnBox<'a>
        ensures { result ≡ self.now }
    {
        DrawnBox {
            path: self.path,
            own_name: self.own_name,
            depth: self.depth,
            colour: self.colour,
            begins_strip: self.begins_strip,
            sums: self.sums,
            kinds: self.kinds,
            small: self.small,
            is_file: self.is_file,
            is_rest: self.is_rest,
        }
    }

    /// Returns the box with this colour, and with or without the beginning of a strip.
    pub(crate) fn painted(&self, colour: usize, begins_strip: bool) -> DrawnBox<'a>
        ensures { result ≡ painted colour begins_strip self.now }
    {
        DrawnBox {
            colour,
            begins_strip,
            ..self.copy()
        }
    }

    /// Returns the box with another number of boxes around it, and another name.
    pub(crate) fn moved(&self, depth: usize, own_name: &'a [u8]) -> DrawnBox<'a>
        ensures { result ≡ moved depth own_name.now self.now }
    {
        DrawnBox {
            depth,
            own_name,
            ..self.copy()
        }
    }
}
