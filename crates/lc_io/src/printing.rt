//! Writing a whole text.

ghost use Rattle.std.specs.Prelude.{◌≡◌, ◌≢◌};
ghost use Rattle.lc_io.specs.declared.printing.PrintFault.TheVariants.{Write, Memory};
ghost use Rattle.lc_io.specs.Writes.{AnswersPrint};

use crate::sink::Sink;
use crate::source::Failed;
use std::alloc::AllocError;
use thiserror::Error;

/// Why a text was not written, or was written only in part.
#[derive(Debug, Clone, Copy, PartialEq, Eq, Error)]
pub enum PrintFault {
    /// A write failed, or accepted no byte. What was written is a prefix of the text.
    #[error("cannot write")]
    Write,
    /// An allocation failed. If the text is written while it is made, a prefix of the text may have been written. Otherwise nothing was
    /// written.
    #[error("out of memory")]
    Memory,
}

impl From<AllocError> for PrintFault {
    ghost from_gives = { λ _ fault. fault ≡ Memory };

    fn from(_refused: AllocError) -> PrintFault {
        PrintFault::Memory
    }
}

impl From<Failed> for PrintFault {
    ghost from_gives = { λ _ fault. fault ≡ Write };

    fn from(_failed: Failed) -> PrintFault {
        PrintFault::Write
    }
}

/// Writes a whole text, in one write or several. A write that accepts no byte is an error too. An empty text needs no write.
pub fn print<O: Sink>(out: &mut O, text: &[u8]) -> Result<(), PrintFault>
    ensures answers { AnswersPrint O.may_take out.old text.now result out.new }
    ensures no_memory { result ≢ Err PrintFault.Memory }
{
    let mut rest = text;
    while !rest.is_empty() {
        let count = out.write(rest)?;
        if count == 0 {
            return Err(PrintFault::Write);
        }
        rest = &rest[count..];
    }
    Ok(())
}
