//! Laws: theorems about the definitions that the contracts cite. Each law is the contract of a function that does nothing.

ghost use Rattle.lc_picture.specs.Inside.{InsideLaw};
ghost use Rattle.lc_picture.specs.Places.{FallingLaw};
ghost use Rattle.lc_picture.specs.Laws.{ChainsLaw, ColoursLaw, DrawnLaw, JoinedDepthsLaw, LargeLaw, NestingLaw, OutlineLaw, ReportLaw};
ghost use Rattle.lc_picture.specs.Laws.{ShownLaw, StripsLaw, TagLaw, UnescapedLaw};
ghost use Rattle.lc_picture.specs.TreeLaws.{SumsLaw, TreeSumsLaw};

/// The law that a name in the page neither begins nor ends a tag or an attribute. If the character references in the name are decoded, the
/// result is the name as terminals show it.
pub fn names_are_never_markup()
    ensures no_tags { TagLaw }
    ensures reads_back { UnescapedLaw }
{}

/// The law that a page shows the following names and numbers, and no others but numbers in tags. At the top are the title, the chosen
/// files, the sums over all files, the number of errors, the first errors, and how many errors are not listed. Next come the legend, and
/// each drawn directory, file and rest once, with its sums and its share. Last come the rows of the chart, and the sums over the
/// other rows, with their shares. On the page of a report, each row of the chart is an extension. Of the directories of at most 250 names,
/// exactly those are drawn, alone or in a chain, whose number, such as lines, is large enough.
pub fn a_page_shows_each_directory_once()
    ensures shown { ShownLaw }
    ensures report { ReportLaw }
    ensures drawn { DrawnLaw }
{}

/// The law that each file whose number, such as lines, is large enough has a box, if the directory that holds the file has a box.
pub fn large_files_have_boxes()
    ensures { LargeLaw }
{}

/// The law that a chain of directories has the box of its last directory, with the numbers of this directory. All other boxes stay as they
/// are, but for their depths and names. If the boxes come depth first, they still do with their chains joined.
pub fn a_chain_is_its_last_directory()
    ensures ends { ChainsLaw }
    ensures depths { JoinedDepthsLaw }
{}

/// The law that the numbers of the boxes directly in a directory's box, of which the last is that of its rest, add up to the number of the
/// directory. The directory must have at least as much as the boxes without the rest. In a tree this holds for each line with lines below
/// it, down to any level.
pub fn a_directory_is_its_boxes_and_its_rest()
    ensures boxes { SumsLaw }
    ensures levels { TreeSumsLaw }
{}

/// The law that the strips in a box, joined, are the boxes directly inside it, each once and from the first to the last.
pub fn strips_are_the_boxes_in_a_box()
    ensures { StripsLaw }
{}

/// The law that each row of the chart has the colour in which boxes show its extension.
pub fn rows_have_the_colours_of_their_extensions()
    ensures { ColoursLaw }
{}

/// The law that each open box is closed, and that no box is closed when none is open.
pub fn boxes_are_nested()
    ensures { NestingLaw }
{}

/// The law that the box of a directory or file opens inside the box of the directory above it, if the boxes come depth first. A reader of
/// the open boxes finds the name of each directory and file, and the names of all directories above it.
pub fn a_box_opens_inside_that_of_its_parent()
    ensures { InsideLaw }
{}

/// The law that of two boxes directly in the same box, the first has the larger number, or both have the same number.
pub fn larger_boxes_come_first()
    ensures { FallingLaw }
{}

/// The law that no name adds a tag to the boxes or takes one away. Apart from the names themselves, the boxes are the same for any names.
pub fn names_change_no_tag()
    ensures { OutlineLaw }
{}
