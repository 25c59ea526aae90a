//! Joining the bytes of a name with what is printed before and after them, in formats that programs read.

ghost use Rattle.std.specs.Prelude.{◌≡◌, ◌++◌, IsTrue, OnOk};
ghost use Rattle.lc_text.specs.Names.{name_model, named};

use crate::numbers::push_digits;
use lc_text::Name;
use std::alloc::AllocError;

/// Appends a name with what is printed before and after its bytes. The bytes are not escaped.
pub(crate) fn join_name(text: &mut Vec<u8>, name: Name<'_>) -> Result<(), AllocError>
    ensures { OnOk result (text.new.items ≡ text.old.items ++ named (λ bytes. bytes) (name_model name.entry)) }
{
    text.extend_from_slice(name.front.as_bytes())?;
    text.extend_from_slice(name.bytes)?;
    text.extend_from_slice(name.end.as_bytes())?;
    let Some(line) = name.line else {
        return Ok(());
    };
    text.push(b':')?;
    push_digits(text, u128::from(line))
}

/// Returns whether nothing is printed before or after the bytes of a name. If so, callers use these bytes without a copy.
pub(crate) fn has_bytes_alone(name: Name<'_>) -> bool
    ensures { IsTrue result → named (λ bytes. bytes) (name_model name.entry) ≡ name.entry.bytes.now }
{
    name.front.is_empty() && name.end.is_empty() && name.line.is_none()
}
