//! The texts of shares in per cent, and of bars.

ghost use Rattle.std.specs.Prelude.{◌≡◌, ◌<◌, ◌+◌, ◌*◌, ◌^◌, ◌++◌, IfErr, IfOk, OnOk, decimal, string_bytes};
ghost use Rattle.lc_formats.specs.Shares.{bar, blocks, last_block, rounded_parts, share_word};

use std::alloc::AllocError;

/// The number of parts of a whole in which shares are printed: tenths of a per cent.
const SHARE_PARTS: u16 = 1_000;

/// The number of cells of the longest bar in a text that is not narrowed.
pub(crate) const FULL_BAR: u8 = 20;

/// Divides `whole` into `count` equal parts, and returns how many of these `part` is, rounded half up. Returns 0 if `whole` is 0.
///
/// An error means that the divisor or the dividend overflows, which takes numbers of 2^111 or more.
fn rounded_parts(count: u16, part: u128, whole: u128) -> Result<u128, AllocError>
    ensures parts { IfOk result (λ parts. parts ≡ rounded_parts count part whole) }
    ensures overflow { IfErr result (λ _. 2 * count * part + whole < 2 ^ 128 → 2 * whole < 2 ^ 128 → ⊥) }
{
    if whole == 0 {
        return Ok(0);
    }
    let divisor = whole.checked_mul(2).ok_or(AllocError)?;
    let product = part.checked_mul(2 * u128::from(count)).ok_or(AllocError)?;
    let dividend = product.checked_add(whole).ok_or(AllocError)?;
    Ok(dividend / divisor)
}

fn push_decimal(text: &mut String, n: u128) -> Result<(), AllocError>
    ensures { OnOk result (string_bytes text.new ≡ string_bytes text.old ++ decimal n) }
{
    let mut buffer = itoa::Buffer::new();
    text.push_str(buffer.format(n))
}

fn push_blocks(text: &mut String, count: u128) -> Result<(), AllocError>
    ensures { OnOk result (string_bytes text.new ≡ string_bytes text.old ++ blocks count) }
{
    let mut rest = count;
    'copies: while rest > 0 {
        text.push('\u{2588}')?;
        rest -= 1;
    }
    Ok(())
}

fn last_block(eighths: u128) -> &'static str
    requires { eighths < 8 }
    ensures { result.now ≡ last_block eighths }
{
    match eighths {
        1 => "\u{258f}",
        2 => "\u{258e}",
        3 => "\u{258d}",
        4 => "\u{258c}",
        5 => "\u{258b}",
        6 => "\u{258a}",
        7 => "\u{2589}",
        _ => "",
    }
}

/// Appends the share of a part in a whole, in per cent.
pub(crate) fn push_share(text: &mut String, part: u128, whole: u128) -> Result<(), AllocError>
    ensures { OnOk result (string_bytes text.new ≡ string_bytes text.old ++ share_word (rounded_parts 1000 part whole)) }
{
    let tenths = rounded_parts(SHARE_PARTS, part, whole)?;
    push_decimal(text, tenths / 10)?;
    text.push_str(".")?;
    push_decimal(text, tenths % 10)?;
    text.push_str("%")
}

/// Appends a bar for a part of a whole. The bar of the whole has this many cells.
pub(crate) fn push_bar(
    text: &mut String,
    cells: u8,
    part: u128,
    whole: u128,
) -> Result<(), AllocError>
    ensures { OnOk result (string_bytes text.new ≡ string_bytes text.old ++ bar (rounded_parts (8 * cells) part whole)) }
{
    let eighths = rounded_parts(8 * u16::from(cells), part, whole)?;
    push_blocks(text, eighths / 8)?;
    text.push_str(last_block(eighths % 8))
}
