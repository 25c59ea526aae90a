//! Writing a text in blocks while it is made, so that a long text is not in memory as a whole.

ghost use Rattle.std.specs.Prelude.{◌≡◌, ◌≢◌, []};
ghost use Rattle.lc_io.specs.Blocks.{AnswersBlock};
ghost use Rattle.lc_io.specs.Writes.{AnswersPrint};
ghost use Rattle.lc_io.specs.declared.printing.PrintFault.TheVariants.{Memory};

use crate::printing::{PrintFault, print};
use crate::sink::Sink;
use std::alloc::Global;

/// The number of bytes at which a block is full: 64 KiB.
pub const BLOCK_SIZE: usize = 65_536;

/// The last part of a text, which is not written yet. The caller appends lines to it, and `print_if_full` writes it when it is full.
///
/// A block may grow past [`BLOCK_SIZE`] by one line. It keeps its memory from one write to the next.
///
/// ```
/// let mut block = Block::new(alloc);
/// for line in lines {
///     push_escaped(&mut block.text, line)?;
///     block.text.extend_from_slice(b"\n")?;
///     block.print_if_full(out)?;
/// }
/// block.print_rest(out)
/// ```
#[derive(Drop)]
pub struct Block {
    /// The text that was appended since the last write.
    pub text: Vec<u8>,
}

impl Block {
    /// Makes an empty block, without allocating.
    pub fn new(alloc: Global) -> Block
        ensures { result.text.items ≡ [] }
    {
        Block {
            text: Vec::new(alloc),
        }
    }

    /// If the block is full, writes all of it and empties it. Otherwise does nothing.
    pub fn print_if_full<O: Sink>(&mut self, out: &mut O) -> Result<(), PrintFault>
        ensures { AnswersBlock O.may_take out.old self.old.text.items result out.new self.new.text.items }
    {
        if self.text.len() < BLOCK_SIZE {
            return Ok(());
        }
        print(out, &self.text)?;
        self.text.clear();
        Ok(())
    }

    /// Writes what is left in the block. Call `print_rest` after the last line of the text was appended.
    pub fn print_rest<O: Sink>(self, out: &mut O) -> Result<(), PrintFault>
        ensures answers { AnswersPrint O.may_take out.old self.text.items result out.new }
        ensures no_memory { result ≢ Err Memory }
    {
        print(out, &self.text)
    }
}
