//! What is printed of a skipped entry: the word for its kind, such as `dir`, and what is printed after its path.

ghost use Rattle.std.specs.Prelude.{◌≡◌};
ghost use Rattle.lc_level.specs.Reasons.{reason_model};
ghost use Rattle.lc_rows.specs.Words.{kind_word, skipped_end};

use lc_level::Reason;
use lc_tree::{Kind, OtherKind};

pub(crate) fn kind_word(kind: Kind) -> &'static str
    ensures { result.now ≡ kind_word kind }
{
    match kind {
        Kind::File => "file",
        Kind::Dir | Kind::Other(OtherKind::Mounted) => "dir",
        Kind::Other(OtherKind::Special) => "other",
    }
}

/// Returns what follows the path of a skipped entry: a slash if it is a directory other than `.git`.
pub(crate) fn skipped_end(kind: Kind, reason: &Reason) -> &'static str
    ensures { result.now ≡ skipped_end kind (reason_model reason.now) }
{
    match (kind, reason) {
        (Kind::Dir, Reason::Git) => "",
        (Kind::Dir | Kind::Other(OtherKind::Mounted), _) => "/",
        (Kind::File | Kind::Other(OtherKind::Special), _) => "",
    }
}
