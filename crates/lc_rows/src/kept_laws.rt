//! Laws of the parts of a report that meet conditions. Each law is a theorem, which is the contract of a function that does nothing.

ghost use Rattle.lc_rows.specs.KeptLaws.{KeptTotalsLaw, NoConditionLaw, OppositesLaw, OrderLaw, WalkedOppositesLaw};

use lc_tree::Tree;

/// The law that a report stays as it is if there are no conditions.
pub fn no_condition_keeps_all()
    ensures { NoConditionLaw }
{}

/// The law that the order of conditions makes no difference.
pub fn conditions_have_no_order()
    ensures { OrderLaw }
{}

/// The law that if the totals of a report are right, the totals of the part that meets conditions are right too. Right totals are the sums
/// over the rows, and also the sums over text and over binary files together. If the report lists its files, right totals are also the sums
/// over the files, and the rows add up these files by key. The report of a walk has right totals.
pub fn conditions_keep_totals()
    ensures { KeptTotalsLaw }
{}

/// The law that the totals with a condition and the totals with its opposite add up to the totals without the condition. Opposites are `=`
/// and `!=`, `<` and `>=`, and `>` and `<=`. The law is true of the report of a walk. If the condition is on a number, the walk must list
/// its files. For any other report, the law requires that the totals are the sums over the files if the condition is on a number, and over
/// the rows otherwise.
pub fn opposite_conditions_add_up<T: Tree>(tree: &T)
    ensures any { OppositesLaw }
    ensures walked { WalkedOppositesLaw (T.lists tree.now) (T.gives tree.now) }
{
    let _tree = tree;
}
