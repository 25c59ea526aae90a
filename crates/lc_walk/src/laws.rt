//! Laws: theorems about the definitions that the contracts cite. Each law is the contract of a function that does nothing.
ghost use Rattle.std.specs.Prelude.{List};
ghost use Rattle.std.specs.List.Sorted.{IsPermutation};
ghost use Rattle.lc_walk.specs.Accounts.{EntriesLaw, RuleLaw};
ghost use Rattle.lc_walk.specs.Examples.{WalkExamplesHold};
ghost use Rattle.lc_walk.specs.FoundAt.{FoundLaw};
ghost use Rattle.lc_walk.specs.GivenAnswers.{ByAnswersLaw};
ghost use Rattle.lc_walk.specs.IncludedFiles.{IncludeLaw};
ghost use Rattle.lc_walk.specs.Laws.{CoreLaw, NumbersLaw, OneAnswerLaw, PartLaw, PathsOnceLaw};
ghost use Rattle.lc_walk.specs.NodeWalks.{NodeOneAnswerLaw, NodeReportLaw};
ghost use Rattle.lc_walk.specs.PartOfWalk.{PartOfWalkLaw, TwoWalksLaw};
ghost use Rattle.lc_walk.specs.ReportTotals.{ReportTotalsLaw};
ghost use Rattle.lc_walk.specs.Tally.{TallyModel, CountedFile, StandsFor};
ghost use Rattle.lc_walk.specs.FoundReports.{ReportLaw};

use lc_level::a_node_is_one_tree;
use lc_rules::the_last_match_decides;
use lc_tree::Tree;

/// The law that a tally does not depend on the order of its files, so that tallies may be merged in any order.
pub fn a_tally_has_no_order()
    ensures { (tally : TallyModel) (files moved : List CountedFile)
        → IsPermutation files moved → StandsFor tally files → StandsFor tally moved }
{}

/// The law about the rows that workers added to a board, one row for each directory. Each row names the directory's child directories, so
/// the rows make a tree. Under any scheduling of the workers, a recursive walk of this tree visits the directory of each row once, and
/// finds exactly what the rows have. The law requires that each row is true of its directory. It also requires that no row is
/// `Row::Broken`: no worker stopped before it had finished a directory.
pub fn rows_are_the_walk_of_their_tree()
    ensures found { CoreLaw }
    ensures numbers { NumbersLaw }
{}

/// The law about a tree, and the rows that workers added to a board, one row for each directory. A recursive walk of the tree finds exactly
/// what the directories of the rows contribute. The law requires that each row is true of its directory in this tree, and that the path of
/// the board's root is empty. It also requires that no row is `Row::Broken`: no worker stopped before it had finished a directory.
pub fn rows_are_the_walk_of_one_tree()
    ensures { OneAnswerLaw }
{}

/// The law that each report of a walk is also the report of some recursive walk. All listings and file contents that this recursive walk
/// reads are results that the tree may return. In each of these listings, the names are good, distinct and in order, as in a `Listing`.
pub fn reports_are_by_given_answers<T: Tree>(tree: &T)
    ensures { ByAnswersLaw (T.lists tree.now) (T.gives tree.now) }
{
    let _tree = tree;
}

/// The law that a walk of an in-memory tree makes the report of a recursive walk of the tree that its top `Node` describes. The law
/// requires that each file has less than 2^47 bytes. It also requires that the closed board has the rows in order: the row at index N is
/// that of the directory with the number N.
pub fn reports_of_memory_are_those_of_its_node()
    ensures one_answer { NodeOneAnswerLaw }
    ensures report { NodeReportLaw }
{
    a_node_is_one_tree();
}

/// The law about a directory's row and the events on the board. An event is what a worker did on the board, such as adding a row. A row is
/// lawful by some events if it is true of its directory, and of the child directories that these events posted for any worker to visit. If
/// a row is lawful by the events of one worker, it is lawful by the events of all workers. The law requires that the list of all events is
/// legal: each event was allowed when it came.
pub fn lawful_in_part_is_lawful()
    ensures { PartLaw }
{}

/// The law that the recursive walk of a tree, down to some depth, finds what each directory that it reaches contributes, and nothing else.
/// A directory contributes its counted files, its errors and its skipped entries, and itself if it was listed. The walk reaches the top. If
/// it reads a directory's listing and rule files without an error, it also reaches the child directories there, down to this depth, that
/// the requested paths select and that are not skipped.
pub fn all_that_is_found_is_given()
    ensures { FoundLaw }
{}

/// The law about the entries in a walk's report, if the report lists its skipped entries. Four numbers add up to the number of entries
/// plus one for the top, which is not an entry: counted files, listed directories, skipped entries, and errors with another word than
/// `absent`. Each error with the word `absent` is about a requested path.
pub fn entries_are_accounted_for<T: Tree>(tree: &T)
    ensures { EntriesLaw (T.lists tree.now) (T.gives tree.now) }
{
    let _tree = tree;
}

/// The law that the totals of a walk's report are the sums of its rows, and also its sums over text and over binary files together. If the
/// report lists its files, the totals are also the sums of the files. In this case, each row has the sums of the files that have the row's
/// extension, state of the attribute `text` and class of line ends.
pub fn totals_of_a_report_add_up<T: Tree>(tree: &T)
    ensures { ReportTotalsLaw (T.lists tree.now) (T.gives tree.now) }
{
    let _tree = tree;
}

/// The law that a walk of some requested paths finds a part of what the walk of the whole tree finds, apart from the numbers of entries.
/// The part is what is at or below the requested paths, the directories above these paths, and the errors of these directories. The walk of
/// the requested paths has only one more kind of error, `absent`, for a requested path. The law requires that the requested paths and the
/// listings are well-formed. The tree may change between the two walks. A directory that both walks read must give the same answers in
/// both.
pub fn a_part_is_the_whole_filtered()
    ensures two_walks { TwoWalksLaw }
    ensures one_tree { PartOfWalkLaw }
{}

/// The law about a walk with `include` patterns and the walk without them. Of the files that the walk without the patterns counts, the walk
/// with the patterns counts exactly the files that the patterns include. Both walks list the same directories.
pub fn included_files_are_the_whole_filtered()
    ensures { IncludeLaw }
{}

/// The law about an entry that a report shows as skipped by a rule. Of the rules that apply in the entry's directory, this rule is the last
/// that matches the entry. The rule ignores the entry.
pub fn the_rule_of_a_line_ignores_it()
    ensures { RuleLaw }
{
    the_last_match_decides();
}

/// The law that no path occurs twice in what a walk finds, if each listing is as `Listing::new` makes it.
pub fn paths_stand_once()
    ensures { PathsOnceLaw }
{}

/// The law that a report does not depend on the order in which files, errors, directories and skipped entries were found.
pub fn a_report_has_no_order()
    ensures { ReportLaw }
{}

/// The law that the definitions of what a directory contributes give the expected results on a small directory.
pub fn walk_examples_hold()
    ensures { WalkExamplesHold }
{}
