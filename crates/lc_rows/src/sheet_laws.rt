//! Laws of the sheet of a report. Each law is a theorem, which is the contract of a function that does nothing.

ghost use Rattle.lc_rows.specs.SheetLaws.{ClassPartsLaw, SheetClassesLaw, SheetFilesLaw, SheetPartsLaw, SheetTotalsLaw};
ghost use Rattle.lc_rows.specs.SheetLaws.{WalkedSheetLaw};

use lc_tree::Tree;

/// The law that the shown rows, and the sums over the rows that are cut off, add up to the total in each column of numbers. The law
/// requires that the report's totals are the sums over its rows, or over its files if rows are by directories or attributes.
pub fn rows_of_a_sheet_add_up()
    ensures { SheetTotalsLaw }
{}

/// The law that in each column of numbers, the lines for text files and for binary files add up to the total. The law requires that the
/// sums over both classes of files add up to the report's totals.
pub fn classes_of_a_sheet_add_up()
    ensures { SheetClassesLaw }
{}

/// The law that in the rows and sums of a sheet, no share is larger than the total, and no bar is longer than the bar of the largest
/// number. The report's totals must meet the requirements of [`rows_of_a_sheet_add_up`] and of [`classes_of_a_sheet_add_up`].
pub fn no_line_of_a_sheet_is_over_its_whole()
    ensures rows { SheetPartsLaw }
    ensures totals { ClassPartsLaw }
{}

/// The law that each sheet of a walk's report adds up. The shown rows, and the sums over the rows that are cut off, add up to the total.
/// The sums over text files and over binary files add up to the total. No share is larger than the total, and no bar is longer than the bar
/// of the largest number. All this is also true of the part of a walk's report that meets conditions such as `lines>1000`. If rows are by
/// directories or attributes, the walk must list its files.
pub fn sheets_of_walks_add_up<T: Tree>(tree: &T)
    ensures { WalkedSheetLaw (T.lists tree.now) (T.gives tree.now) }
{
    let _tree = tree;
}

/// The law that the files that a sheet lists are the first of the report's sorted files.
pub fn files_of_a_sheet_are_the_first()
    ensures { SheetFilesLaw }
{}
