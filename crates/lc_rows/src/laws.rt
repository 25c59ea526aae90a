//! Laws: theorems about the definitions that the contracts cite. Each law is the contract of a function that does nothing.

ghost use Rattle.lc_rows.specs.Laws.{ChildrenLaw, ClassesLaw, CutTotalsLaw, DirectoriesLaw, FirstFilesLaw, NamesLaw, OneRowLaw};
ghost use Rattle.lc_rows.specs.Laws.{PermutationLaw, SortedFilesLaw, TotalsLaw, TreeLaw, WholeLaw};

/// The law that sorting the rows of a table changes only their order: the sorted rows are the summed rows, each once.
pub fn shown_rows_are_the_summed_ones()
    ensures { PermutationLaw }
{}

/// The law that the rows of a table add up to the same sums as all rows of the report, whichever columns the table lacks. Rows by
/// directories or attributes add up to the sums over all files.
pub fn shown_rows_keep_the_totals()
    ensures { TotalsLaw }
{}

/// The law that adding up rows by all columns changes no row, if the rows are in the order of their keys and no two rows have the same key.
pub fn whole_keys_add_up_to_themselves()
    ensures { WholeLaw }
{}

/// The law that a row of a table by directories or attributes has the sums over the files with the row's key. The directory in the key of a
/// file is the directory that holds the file, cut after some of its names. The states in the key are those of the attributes that rows are
/// grouped by.
pub fn rows_of_a_directory_are_the_sums_of_its_files()
    ensures { DirectoriesLaw }
{}

/// The law that each file is in exactly one row of a table by directories or attributes.
pub fn each_file_is_in_one_row()
    ensures { OneRowLaw }
{}

/// The law that cutting the directory of a file after n names keeps the first n segments of the directory's path, or all segments if there
/// are fewer. The file must be in a tree, so that all segments of its path are names.
pub fn directories_of_names_are_their_first_segments()
    ensures { NamesLaw }
{}

/// The law that in a tree of directories, the row of a directory has the sums over the files with the row's key in the directory and below
/// it. So a file counts once in each directory above it. If paths are cut after n names, the law requires that at most n directories are
/// above the directory.
pub fn rows_of_a_tree_are_the_sums_of_what_is_below()
    ensures { TreeLaw }
{}

/// The law that in a tree of directories, a directory's row adds up the files directly in the directory and the rows of its child
/// directories. If paths are cut after N names, a directory of N names also adds up the files in deeper directories. For each key, only the
/// files and rows with this key are added up.
pub fn a_directory_is_its_files_and_its_children()
    ensures { ChildrenLaw }
{}

/// The law that the shown rows of a cut table, and the sums over the other rows, add up to the sums over all rows.
pub fn what_is_cut_off_adds_up()
    ensures { CutTotalsLaw }
{}

/// The law that sorted files are the files of the report, each once.
pub fn sorted_files_are_the_files()
    ensures { SortedFilesLaw }
{}

/// The law that if files are sorted by a number, such as lines, no file that is cut off has a larger number than a listed file.
pub fn the_first_files_are_the_largest()
    ensures { FirstFilesLaw }
{}

/// The law that the sums over binary files and over text files add up to the sums over all rows.
pub fn classes_add_up_to_all_rows()
    ensures { ClassesLaw }
{}
