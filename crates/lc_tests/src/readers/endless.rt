//! A reader without an end.
ghost use Rattle.std.specs.Prelude.{◌≡◌, replicate};
ghost use Rattle.lc_io.specs.Reads.{gave};

use lc_io::{Failed, Source};

/// A reader that fills each buffer with the letter `x`, for ever.
#[derive(Drop)]
pub struct Endless;

impl Source for Endless {
    ghost may_give = { λ _ room answer _. answer ≡ gave (replicate room 120) };

    fn read(&mut self, buffer: &mut [u8]) -> Result<usize, Failed> {
        buffer.fill(b'x');
        Ok(buffer.len())
    }
}
