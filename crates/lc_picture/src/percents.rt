//! Shares in per cent, as text.

ghost use Rattle.std.specs.Prelude.{◌≡◌, ◌++◌, IfOk, OnOk};
ghost use Rattle.lc_formats.specs.Shares.{rounded_parts, share_word};

use crate::sums::push_number;
use std::alloc::AllocError;

/// Returns how many tenths of a per cent a part is of a whole, rounded half up.
///
/// An error means that the divisor or the dividend overflows, which needs numbers of 2^111 or more.
fn tenths_of(part: u128, whole: u128) -> Result<u128, AllocError>
    ensures { IfOk result (λ tenths. tenths ≡ rounded_parts 1000 part whole) }
{
    if whole == 0 {
        return Ok(0);
    }
    let divisor = whole.checked_mul(2).ok_or(AllocError)?;
    let product = part.checked_mul(2_000).ok_or(AllocError)?;
    let dividend = product.checked_add(whole).ok_or(AllocError)?;
    Ok(dividend / divisor)
}

/// Appends the share of a part in a whole, in per cent with one decimal.
pub(crate) fn push_percent(text: &mut Vec<u8>, part: u128, whole: u128) -> Result<(), AllocError>
    ensures { OnOk result (text.new.items ≡ text.old.items ++ share_word (rounded_parts 1000 part whole)) }
{
    let tenths = tenths_of(part, whole)?;
    push_number(text, tenths / 10)?;
    text.extend_from_slice(b".")?;
    push_number(text, tenths % 10)?;
    text.extend_from_slice(b"%")
}
