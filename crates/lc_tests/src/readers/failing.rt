//! A reader that fails.
ghost use Rattle.lc_tests.specs.TrialReads.{GivesThenFails};

use lc_io::{Failed, Source};

/// A reader that returns its bytes in order, as many at a time as the buffer holds, and fails at each read after the last byte.
///
/// ```
/// let mut reader = Failing(&bytes[..count]); // fails after so many bytes
/// ```
#[derive(Drop)]
pub struct Failing<'a>(pub &'a [u8]);

impl Source for Failing<'_> {
    ghost may_give = { λ old room answer new. GivesThenFails old.0.now room answer new.0.now };

    fn read(&mut self, buffer: &mut [u8]) -> Result<usize, Failed> {
        if self.0.is_empty() {
            return Err(Failed);
        }
        self.0.read(buffer)
    }
}
