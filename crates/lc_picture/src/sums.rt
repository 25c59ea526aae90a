//! Numbers and sums as text, such as `lines 7, files 1`.

ghost use Rattle.std.specs.Prelude.{◌≡◌, ◌++◌, OnOk, decimal, string_bytes};
ghost use Rattle.lc_formats.specs.CellWords.{with_commas};
ghost use Rattle.lc_picture.specs.Pieces.{number_word, numbers, share_pieces, sums_pieces, text_of};

use crate::percents::push_percent;
use crate::scale::Scale;
use lc_sheet::Number;
use lc_walk::Sums;
use std::alloc::AllocError;

/// Returns the words that name a number of a report, such as `blank lines`.
pub(crate) fn number_word(by: Number) -> &'static [u8]
    ensures { result.now ≡ number_word by }
{
    match by {
        Number::Files => b"files",
        Number::Lines => b"lines",
        Number::Blank => b"blank lines",
        Number::Bytes => b"bytes",
    }
}

/// Appends a number in decimal digits, without commas.
pub(crate) fn push_number(text: &mut Vec<u8>, n: u128) -> Result<(), AllocError>
    ensures { OnOk result (text.new.items ≡ text.old.items ++ decimal n) }
{
    let mut buffer = itoa::Buffer::new();
    text.extend_from_slice(buffer.format(n).as_bytes())
}

/// Appends a number with commas between groups of three digits.
pub(crate) fn push_count(text: &mut Vec<u8>, n: u128, made: &mut String) -> Result<(), AllocError>
    ensures { OnOk result (text.new.items ≡ text.old.items ++ with_commas (decimal n)) }
{
    made.clear();
    lc_formats::push_number(made, n)?;
    text.extend_from_slice(made.as_bytes())
}

/// Appends four numbers, each after its word, such as `lines 7, files 1, blank 0, bytes 50`.
pub(crate) fn push_numbers(
    text: &mut Vec<u8>,
    lines: u128,
    files: u128,
    blank: u128,
    bytes: u128,
    made: &mut String,
) -> Result<(), AllocError>
    ensures { OnOk result (text.new.items ≡ text.old.items ++ text_of (numbers lines files blank bytes)) }
{
    text.extend_from_slice(b"lines ")?;
    push_count(text, lines, made)?;
    text.extend_from_slice(b", files ")?;
    push_count(text, files, made)?;
    text.extend_from_slice(b", blank ")?;
    push_count(text, blank, made)?;
    text.extend_from_slice(b", bytes ")?;
    push_count(text, bytes, made)
}

/// Appends sums over files, each after its word, such as `lines 7, files 1, blank 0, bytes 50`.
pub(crate) fn push_sums(text: &mut Vec<u8>, sums: Sums, made: &mut String) -> Result<(), AllocError>
    ensures { OnOk result (text.new.items ≡ text.old.items ++ text_of (sums_pieces sums)) }
{
    push_numbers(
        text,
        sums.lines,
        u128::from(sums.files),
        sums.blank,
        sums.bytes,
        made,
    )
}

/// Appends the share that a number has in the sum over all files, such as `, 38.9% of all lines`.
pub(crate) fn push_share(text: &mut Vec<u8>, scale: Scale, n: u128) -> Result<(), AllocError>
    ensures { OnOk result (text.new.items ≡ text.old.items ++ text_of (share_pieces scale n)) }
{
    text.extend_from_slice(b", ")?;
    push_percent(text, n, scale.whole)?;
    text.extend_from_slice(b" of all ")?;
    text.extend_from_slice(number_word(scale.by))
}
