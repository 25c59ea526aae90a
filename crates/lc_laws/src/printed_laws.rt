//! Laws of the sheet of a report (its lines to print). The sheet has what laws in `lc_formats` about printed texts require. The text of a
//! plain table is written from the report alone. Each law is the contract of a function that does nothing.

ghost use Rattle.lc_laws.specs.PlainTableLaw.{PlainTableLaw, UnlistedLaw};
ghost use Rattle.lc_laws.specs.PrintedShares.{PrintedSharesLaw};
ghost use Rattle.lc_laws.specs.SheetReadable.{ReadableSheetLaw, SheetRecordsLaw};

use lc_tree::Tree;

/// The law that the sheet of a report (its lines to print) in the format `table` has the words, columns and values that
/// `lc_formats::lines_of_a_part_are_as_wide` requires. In definitions, a name is a list of numbers. The law requires that the numbers in
/// the names and values of rows, in the names of skipped entries and in the headings of attributes are bytes, less than 256. No heading of
/// an attribute may end in a blank.
pub fn sheets_of_reports_are_readable()
    ensures { ReadableSheetLaw }
{}

/// The law that the sheet of a report (its lines to print) has the columns and values that `lc_formats::csv_reads_back` requires.
pub fn sheets_of_reports_have_records()
    ensures { SheetRecordsLaw }
{}

/// The law that each share of a total in a human-readable text is at most 100.0 per cent. This holds for the report of a walk, and for the
/// part of the report that meets conditions such as `lines>1000`. If rows are by directory or by attributes, the walk must list its
/// files.
pub fn printed_shares_are_at_most_the_whole<T: Tree>(tree: &T)
    ensures { PrintedSharesLaw (T.lists tree.now) (T.gives tree.now) }
{
    let _tree = tree;
}

/// The law that the text of a plain table is the text that the definition `plain_table` writes, on one page, from the report alone. A
/// table is plain if its format is `tsv`, if it has all columns, and if no option sorts or cuts its rows and files. `lc count` prints a
/// plain table if no option changes the table and standard output is not a terminal, and also with `--files`. The clause `table` requires
/// that the report lists no skipped entries. By the clause `walk`, the report of a walk lists none unless the walk's options request it.
pub fn plain_tables_follow_from_reports<T: Tree>(tree: &T)
    ensures table { PlainTableLaw }
    ensures walk { UnlistedLaw (T.lists tree.now) (T.gives tree.now) }
{
    let _tree = tree;
}
