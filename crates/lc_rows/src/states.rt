//! The order of states of attributes: unspecified, set, unset, and then values by their bytes.

ghost use Rattle.std.specs.Prelude.{◌≡◌, map};
ghost use Rattle.std.specs.Cmp.Lexicographic.{slice_cmp};
ghost use Rattle.lc_level.specs.FileAttributes.{owned_state};
ghost use Rattle.lc_rows.specs.RowKeys.{state_bytes, state_cmp, state_place};

use lc_level::AttributeState;
use std::cmp::Ordering;

fn place(state: &AttributeState) -> u8
    ensures { result ≡ state_place (owned_state state.now) }
{
    match state {
        AttributeState::Unspecified => 0,
        AttributeState::Set => 1,
        AttributeState::Unset => 2,
        AttributeState::Value(_) => 3,
    }
}

/// Returns the bytes of a state that is a value, and otherwise none.
fn bytes_of(state: &AttributeState) -> &[u8]
    ensures { result.now ≡ state_bytes (owned_state state.entry.now) }
{
    match state {
        AttributeState::Value(bytes) => bytes,
        AttributeState::Unspecified | AttributeState::Set | AttributeState::Unset => &[],
    }
}

/// Compares two lists of states one by one. The first difference decides.
pub(crate) fn compare_states(a: &[AttributeState], b: &[AttributeState]) -> Ordering
    ensures { result ≡ slice_cmp state_cmp (map owned_state a.now) (map owned_state b.now) }
{
    let mut a = a;
    let mut b = b;
    'states: while let Some((x, left)) = a.split_first() {
        let Some((y, right)) = b.split_first() else {
            return Ordering::Greater;
        };
        let order = place(x).cmp(&place(y)).then(bytes_of(x).cmp(&bytes_of(y)));
        if order.is_ne() {
            return order;
        }
        a = left;
        b = right;
    }
    if b.is_empty() {
        Ordering::Equal
    } else {
        Ordering::Less
    }
}
