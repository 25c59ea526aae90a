//! The trait of readers.
ghost use Rattle.std.specs.Prelude.{◌≡◌, ℕ, ◌≤◌, length, take, drop, IfOk};
ghost use Rattle.lc_io.specs.Reads.{Answer, gave, answer_of};

/// The error of a read or a write that failed, for any cause.
#[derive(Clone, Copy, Debug, Drop, PartialEq, Eq)]
pub struct Failed;

/// A reader of bytes.
///
/// Each type states in `may_give` what one read may return. From this the definitions in `specs/Reads.antt` derive what a sequence of reads
/// may return.
pub trait Source {
    // A read of this reader, into a buffer of this length, may give this answer and leave this reader.
    ghost may_give: { Self → ℕ → Answer → Self → Type 0 };

    /// Reads the next bytes into the front of the buffer, and returns how many it read.
    ///
    /// If the buffer is not empty, 0 means that the reader is at its end. After a failure, the buffer may have any bytes.
    fn read(&mut self, buffer: &mut [u8]) -> Result<usize, Failed>
        ensures within { IfOk result (λ count. count ≤ length buffer.old) }
        ensures given { may_give self.old (length buffer.old) (answer_of result buffer.new) self.new };
}

/// A slice as a reader. Each read returns the next bytes of the slice, as many as the buffer holds. It never fails and allocates nothing.
impl Source for &[u8] {
    ghost may_give = { λ old room answer new. (answer ≡ gave (take room old.now)) × (new.now ≡ drop room old.now) };

    fn read(&mut self, buffer: &mut [u8]) -> Result<usize, Failed> {
        let bytes: &[u8] = *self;
        let count = bytes.len().min(buffer.len());
        buffer[..count].copy_from_slice(&bytes[..count]);
        *self = &bytes[count..];
        Ok(count)
    }
}
