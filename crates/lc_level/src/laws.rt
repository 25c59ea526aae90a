//! Theorems about opening a directory and counting its files. Each is the contract of a function that does nothing.
ghost use Rattle.lc_level.specs.Examples.{LevelExamplesHold};
ghost use Rattle.lc_level.specs.FileReads.{CountsOnce, ReadsRulesOnce};
ghost use Rattle.lc_level.specs.Laws.{CountedLaw, OpenedLaw};
ghost use Rattle.lc_level.specs.OneAnswer.{MemoryLaw, NodeAnswersLaw, NodeLevelsLaw, NodeWellFormedLaw, OneLevelLaw};

use lc_census::bytes_have_one_cutting;
use lc_tree::{Tree, trees_of_memory_list_once};
use std::alloc::Global;

/// The law that opening a directory and counting its files together give its level, which is all that the directory contributes to a walk.
pub fn work_is_a_level<T: Tree>(tree: &T)
    ensures opened { OpenedLaw (T.lists tree.now) (T.gives tree.now) }
    ensures counted { CountedLaw (T.lists tree.now) (T.gives tree.now) }
{
    let _tree = tree;
}

/// The law about a tree that gives only one answer to each question: each listing, each count and each reading of a rule file. For given
/// filters and a given job, a directory of this tree has only one level, which is what the directory contributes to a walk.
pub fn one_answer_is_one_level<T: Tree>(tree: &T)
    ensures { OneLevelLaw (T.lists tree.now) (T.gives tree.now) }
{
    let _tree = tree;
}

/// The law that reading a file of a tree in memory as a rule file has only one result, unless an allocation fails. If the file has under
/// 2^47 bytes, so has counting it.
pub fn files_of_memory_are_read_once()
    ensures counts { CountsOnce }
    ensures rules { ReadsRulesOnce }
{
    bytes_have_one_cutting();
}

/// The law that a tree in memory gives only one answer to each question, if each of its files has under 2^47 bytes. A question is a
/// listing, a count or a reading of a rule file.
pub fn trees_of_memory_give_one()
    ensures { MemoryLaw }
{
    trees_of_memory_list_once();
    files_of_memory_are_read_once();
}

/// The law about the answers that the definition `tree_of_node` derives from the `Node` of a tree in memory: the listing of each directory,
/// and the results of reading its files. First, the tree may give these answers. Second, the names in each listing are good, distinct and
/// in order. Third, if each file has under 2^47 bytes, whatever answers the tree gives, they make the same level as these. A level is what
/// a directory contributes to a walk.
pub fn a_node_is_one_tree()
    ensures answers { NodeAnswersLaw }
    ensures levels { NodeLevelsLaw }
    ensures well_formed { NodeWellFormedLaw }
{
    trees_of_memory_give_one();
}

/// The law that the definitions of a tree in memory give the expected results for one small directory.
pub fn level_examples_hold(alloc: Global)
    ensures { LevelExamplesHold alloc }
{
    let _alloc = alloc;
    bytes_have_one_cutting();
}
