//! Laws: theorems about the definitions that the contracts cite. Each law is the contract of a function that does nothing.
ghost use Rattle.lc_reports.specs.Laws.{JoinGroupLaw, JoinOnceLaw, JoinOrderLaw, JoinTotalsLaw, NameTotalsLaw, NamedRulesLaw, SumOrderLaw};

/// The law that a joined report does not depend on the order of the reports.
pub fn a_joined_report_has_no_order()
    ensures { JoinOrderLaw }
{}

/// The law that reports may be joined in any groups. A report that is itself joined may be replaced by the reports that it was joined from.
pub fn a_joined_report_has_no_grouping()
    ensures { JoinGroupLaw }
{}

/// The law that all joins of the same reports are equal, except for the order of files with the same path. The law requires that each row
/// of these reports counts at least one file.
pub fn reports_are_joined_in_one_way()
    ensures { JoinOnceLaw }
{}

/// The law that a joined report adds up if each report that was joined adds up. A report adds up if its totals are the sums over its rows,
/// and also its sums over text and over binary files together. If the report lists files, its rows and totals must also be the sums over
/// these files.
pub fn totals_of_a_joined_report_add_up()
    ensures { JoinTotalsLaw }
{}

/// The law that if a report adds up, it still adds up after `named` has put a name in front of its paths. A report adds up if its totals
/// are the sums over its rows, and also its sums over text and over binary files together. If the report lists files, its rows and totals
/// must also be the sums over these files. The law requires that no file of the report has the empty path.
pub fn names_change_no_number()
    ensures { NameTotalsLaw }
{}

/// The law about an entry that is skipped by a rule of a file in the tree, such as `.gitignore`. `named` puts the same name in front of the
/// entry's path and in front of the path of this file. The law is not about rules of `--exclude` and `--exclude-from`.
pub fn rules_of_a_named_report_are_in_named_files()
    ensures { NamedRulesLaw }
{}

/// The law that the order of reports changes neither their sum nor whether they can be summed.
pub fn a_sum_has_no_order()
    ensures { SumOrderLaw }
{}
