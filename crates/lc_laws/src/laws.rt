//! Laws: theorems about the definitions that the contracts cite. Each law is the contract of a function that does nothing.
//!
//! Most laws have two clauses. The clause `answers` is about a report or an explanation that is computed from given answers: a listing of
//! each directory, and the contents of its files. A report and an explanation may be computed from different answers. Each report and each
//! explanation of a tree is computed from some answers that the tree may give (`lc_walk::reports_are_by_given_answers`,
//! [`explanations_are_by_given_answers`]). The clause `tree` is about the reports and explanations of a tree that always gives the same
//! answers, as an in-memory tree does. Of [`no_ignore_file_of_the_tree_skips_an_entry`] this clause is about any tree.

ghost use Rattle.lc_laws.specs.ByAnswers.{SaidByAnswersLaw};
ghost use Rattle.lc_laws.specs.CountsChecked.{AnswersCheckedLaw, CheckedLaw};
ghost use Rattle.lc_laws.specs.CountsExplained.{AnswersExplainedLaw, ExplainedLaw};
ghost use Rattle.lc_laws.specs.IncludedEntries.{IncludedEntriesLaw};
ghost use Rattle.lc_laws.specs.NoIgnore.{AnswersNoIgnoreLaw, NoIgnoreLaw};
ghost use Rattle.lc_laws.specs.OneExplanation.{AnswersOneExplanationLaw, OneExplanationLaw};
ghost use Rattle.lc_laws.specs.SlashAtEnd.{AnswersSlashLaw, SlashLaw};

use lc_paths::entries_are_explained_as_decided;
use lc_rules::the_last_match_decides;
use lc_tree::Tree;
use lc_walk::{all_that_is_found_is_given, the_rule_of_a_line_ignores_it};

/// The law that each explanation of a path follows from fixed answers that the tree may give. These answers are a listing and rule files
/// for each directory that the explanation enters.
pub fn explanations_are_by_given_answers<T: Tree>(tree: &T)
    ensures { SaidByAnswersLaw (T.lists tree.now) (T.gives tree.now) }
{
    let _tree = tree;
}

/// The law that two explanations of a path with the same options are equal, if both read the same entries and the same rule files in each
/// directory on the way to the path.
pub fn one_answer_is_one_explanation<T: Tree>(tree: &T)
    ensures answers { AnswersOneExplanationLaw }
    ensures tree { OneExplanationLaw (T.lists tree.now) (T.gives tree.now) }
{
    let _tree = tree;
}

/// The law that the explanation of a directory's path with a slash at its end is also the explanation of the path without this slash. The
/// law requires that the tree returns the same entries and the same rule files for both explanations.
pub fn slashes_of_directories_say_nothing<T: Tree>(tree: &T)
    ensures answers { AnswersSlashLaw }
    ensures tree { SlashLaw (T.lists tree.now) (T.gives tree.now) }
{
    let _tree = tree;
}

/// The law that a count and an explanation agree on a path that is not bad and has no slash at its end. The law requires that both have the
/// same filters, such as `--exclude`. It also requires that both read the same entries and the same rule files in each directory on the way
/// to the path. The count must be of the whole tree, and must list files and skipped entries. The explanation of a counted file says that
/// the file is not skipped. The explanation of a skipped entry has the reason that is in the report. The explanation of any entry shows
/// whether the report skips the entry or a directory above it, or has an error on the way.
pub fn counts_are_as_explained<T: Tree>(tree: &T)
    ensures answers { AnswersExplainedLaw }
    ensures tree { ExplainedLaw (T.lists tree.now) (T.gives tree.now) }
{
    let _tree = tree;
    entries_are_explained_as_decided();
}

/// The law that a count and a check by the `.gitignore` of the top directory agree on an entry. The law requires that the tree has no other
/// ignore file. The count must use only the rules of the tree, list skipped entries, and have no errors. The check prints `ignored` or
/// `below` for the entry exactly if the count skips the entry, or a directory above it, by a rule. A directory is checked with a slash at
/// the end of its path. The law is not about paths for which a check prints `bad`, and not about paths with a name `.git`.
pub fn counts_are_as_checked<T: Tree>(tree: &T)
    ensures answers { AnswersCheckedLaw }
    ensures tree { CheckedLaw (T.lists tree.now) (T.gives tree.now) }
{
    let _tree = tree;
    the_last_match_decides();
    the_rule_of_a_line_ignores_it();
}

/// The law that a count that reads no ignore file of the tree, as with `--no-ignore`, skips no entry by a rule of a `.gitignore` or of
/// `.git/info/exclude`.
pub fn no_ignore_file_of_the_tree_skips_an_entry<T: Tree>(tree: &T)
    ensures answers { AnswersNoIgnoreLaw }
    ensures tree { NoIgnoreLaw (T.lists tree.now) (T.gives tree.now) }
{
    let _tree = tree;
    the_rule_of_a_line_ignores_it();
}

/// The law that a walk with `--include` reports exactly these errors: errors of directories and of their rule files, paths of `--only` that
/// do not exist, and errors of included files. The walk skips each entry that a walk without `--include` skips, for the same reason. It
/// also skips each file that no pattern of `--include` includes and that the walk without `--include` counts or cannot read.
pub fn errors_and_skipped_entries_are_those_of_included_files()
    ensures { IncludedEntriesLaw }
{
    all_that_is_found_is_given();
}
