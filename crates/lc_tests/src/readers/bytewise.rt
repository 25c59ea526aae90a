//! A reader that reads a byte at a time.
ghost use Rattle.std.specs.Prelude.{min};

use lc_io::{Failed, Source};

/// A reader that reads at most one byte at a time from another reader.
///
/// ```
/// let mut reader = Bytewise(b"a\r\n".as_slice()); // three reads of a byte, and then the end
/// ```
#[derive(Drop)]
pub struct Bytewise<S>(pub S);

impl<S: Source> Source for Bytewise<S> {
    ghost may_give = { λ old room answer new. S.may_give old.0 (min room 1) answer new.0 };

    fn read(&mut self, buffer: &mut [u8]) -> Result<usize, Failed> {
        let room = buffer.len().min(1);
        self.0.read(&mut buffer[..room])
    }
}
