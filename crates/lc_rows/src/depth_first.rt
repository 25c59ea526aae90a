//! The depth-first order of directories: each directory comes right before the directories below it.

ghost use Rattle.std.specs.Prelude.{◌≡◌};
ghost use Rattle.lc_rows.specs.TreeRows.{byte_place, path_cmp};

use std::cmp::Ordering;

/// Returns the rank of a byte in the order of bytes in which the slash comes first.
fn byte_place(byte: u8) -> u16
    ensures { result ≡ byte_place byte }
{
    if byte == b'/' { 0 } else { u16::from(byte) + 1 }
}

/// Compares two paths byte by byte. A slash comes before all other bytes.
pub(crate) fn compare_paths(a: &[u8], b: &[u8]) -> Ordering
    ensures { result ≡ path_cmp a.now b.now }
{
    let mut a = a;
    let mut b = b;
    'bytes: while let Some((x, left)) = a.split_first() {
        let Some((y, right)) = b.split_first() else {
            return Ordering::Greater;
        };
        let order = byte_place(*x).cmp(&byte_place(*y));
        if order.is_ne() {
            return order;
        }
        a = left;
        b = right;
    }
    if b.is_empty() {
        Ordering::Equal
    } else {
        Ordering::Less
    }
}
