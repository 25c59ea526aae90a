//! The law that relates the JSON text of a report to what is read from that text. The law is the contract of a function that does nothing.

ghost use Rattle.lc_laws.specs.ReadBack.{ReadBackLaw};

use lc_tree::Tree;

/// The law that a report is the same after it was printed as JSON, if it is read again. For skipped entries and the number of entries, this
/// holds only for what JSON shows. The report must be that of a walk that lists its files, or the part of this report that meets conditions
/// such as `lines>1000`. The JSON text must list all files and all rows. It must have the columns of all attributes whose states the files
/// have, and it is read with these attributes. No member of one attribute may have the name of a member of another, as those of `a` and of
/// `a_bytes` may.
pub fn reports_read_back<T: Tree>(tree: &T)
    ensures { ReadBackLaw (T.lists tree.now) (T.gives tree.now) }
{
    let _tree = tree;
}
