//! Reading numbers that consist of digits only.

ghost use Rattle.std.specs.Prelude.{◌≡◌, ◌≢◌, ◌<◌, ◌^◌, ℕ, decimal, MatchOption};

use itoa::Buffer;

/// Reads a number in the form in which it is printed: digits, without zeros at the beginning.
pub(crate) fn number(text: &str) -> Option<u128>
    ensures { MatchOption result ((n : ℕ) → n < 2 ^ 128 → text.now ≢ decimal n) (λ n. text.now ≡ decimal n) }
{
    let Ok(number) = text.parse::<u128>() else {
        return None;
    };
    let mut buffer = Buffer::new();
    if buffer.format(number) == text {
        Some(number)
    } else {
        None
    }
}
