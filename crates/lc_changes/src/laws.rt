//! Laws: theorems about the definitions that the contracts cite. Each law is the contract of a function that does nothing.

ghost use Rattle.lc_changes.specs.Laws.{DifferencesLaw, OneComparisonLaw, SelfLaw, TablesLaw};

/// The law that the comparison of a report with itself finds no difference, if no two files of the report have the same path.
pub fn a_report_does_not_differ_from_itself()
    ensures { SelfLaw }
{}

/// The law that a comparison, before it drops a row, has a row for each key in the whole table of either report, and no row with another
/// key. A row has the sums that each report's table shows for the row's key. If a table lacks the key, these sums are zero. Over all rows
/// of the comparison, the sums of each report add up to the sums over the rows of the report's table.
pub fn rows_of_a_comparison_are_those_of_tables()
    ensures { TablesLaw }
{}

/// The law that each shown change, also in per cent, is the change from the old report's number to the new report's number. This holds in
/// each line, whether the line shows a row, sums or a file. If a report lacks a file, the file's numbers in that report are 0.
#[tactic(auto, using(crate::proofs::Differences::differences_law))]
pub fn old_numbers_and_changes_add_up_to_new_ones()
    ensures { DifferencesLaw }
{}

/// The law that two reports have only one comparison: the reports determine its rows and its files. For the files, the law requires that
/// neither report has two files with the same path.
#[tactic(auto, using(crate::proofs::OneComparison::one_comparison))]
pub fn reports_are_compared_in_one_way()
    ensures { OneComparisonLaw }
{}
