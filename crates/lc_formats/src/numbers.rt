//! Numbers in digits: plain for programs, and with commas for people.

ghost use Rattle.std.specs.Prelude.{◌≡◌, ◌++◌, IsAscii, OnOk, decimal, string_bytes};
ghost use Rattle.lc_formats.specs.CellWords.{change_word, comma, growth_word, sign, with_commas};

use crate::shares::push_share;
use std::alloc::AllocError;

/// Appends the digits of a number.
pub(crate) fn push_digits(text: &mut Vec<u8>, n: u128) -> Result<(), AllocError>
    ensures { OnOk result (text.new.items ≡ text.old.items ++ decimal n) }
{
    let mut buffer = itoa::Buffer::new();
    text.extend_from_slice(buffer.format(n).as_bytes())
}

fn push_comma(text: &mut String, digits: &[u8]) -> Result<(), AllocError>
    ensures { OnOk result (string_bytes text.new ≡ string_bytes text.old ++ comma digits.now) }
{
    if !digits.is_empty() && digits.len() % 3 == 0 {
        text.push_str(",")
    } else {
        Ok(())
    }
}

fn push_with_commas(text: &mut String, digits: &[u8]) -> Result<(), AllocError>
    requires { IsAscii digits.now }
    ensures { OnOk result (string_bytes text.new ≡ string_bytes text.old ++ with_commas digits.now) }
{
    let mut rest = digits;
    'digits: while let Some((digit, others)) = rest.split_first() {
        text.push(char::from(*digit))?;
        push_comma(text, others)?;
        rest = others;
    }
    Ok(())
}

/// Appends a number with commas between groups of three digits.
///
/// ```
/// push_number(&mut text, 41_203)?; // `41,203`
/// ```
pub fn push_number(text: &mut String, n: u128) -> Result<(), AllocError>
    ensures { OnOk result (string_bytes text.new ≡ string_bytes text.old ++ with_commas (decimal n)) }
{
    let mut buffer = itoa::Buffer::new();
    push_with_commas(text, buffer.format(n).as_bytes())
}

/// Returns the sign of a change from one number to another, or an empty text if the numbers are equal.
fn sign(old: u128, new: u128) -> &'static str
    ensures { result.now ≡ sign old new }
{
    if old < new {
        "+"
    } else if new < old {
        "-"
    } else {
        ""
    }
}

/// Appends the change from one number to another, with its sign and with commas.
pub(crate) fn push_change(text: &mut String, old: u128, new: u128) -> Result<(), AllocError>
    ensures { OnOk result (string_bytes text.new ≡ string_bytes text.old ++ change_word old new) }
{
    text.push_str(sign(old, new))?;
    push_number(text, old.abs_diff(new))
}

/// Appends the change from one number to another in per cent of the old number, with its sign. If the old number is 0, appends `new`, or
/// nothing if the new number is 0 too.
///
/// An error may mean that a change or a number is 2^111 or more.
pub(crate) fn push_growth(text: &mut String, old: u128, new: u128) -> Result<(), AllocError>
    ensures { OnOk result (string_bytes text.new ≡ string_bytes text.old ++ growth_word old new) }
{
    if old == 0 {
        return text.push_str(if new == 0 { "" } else { "new" });
    }
    text.push_str(sign(old, new))?;
    push_share(text, old.abs_diff(new), old)
}
