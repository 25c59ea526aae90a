//! Cases of texts that are printed to a writer that is interrupted or that becomes full.

use lc_io::{Block, StdSink, print};
use lc_tests::cases::{Pushed, number_of, push_bytes, text_of};
use lc_tests::writers::{Narrow, WhenFull};
use std::alloc::{AllocError, Global};
use std::io::{self, ErrorKind, Write};

pub(crate) fn push_answer(
    text: &mut String,
    alloc: Global,
    kind: &str,
    columns: &[&[u8]],
) -> Result<bool, AllocError> {
    match (kind, columns) {
        ("interrupted", [times, bytes]) => {
            let times = text_of(times).parse::<u32>().unwrap_or(0);
            push_interrupted(text, alloc, times, bytes)?
        }
        ("block", [bytes, step, room]) => {
            push_block(text, alloc, bytes, number_of(step), number_of(room))?
        }
        _ => return Ok(false),
    }
    Ok(true)
}

/// A writer that accepts at most three bytes in one write. Before each such write, `times` writes are interrupted.
#[derive(Drop)]
struct Interrupted {
    taken: Vec<u8>,
    times: u32,
    left: u32,
}

impl Write for Interrupted {
    fn write(&mut self, bytes: &[u8]) -> io::Result<usize> {
        if self.left > 0 {
            self.left -= 1;
            return Err(io::Error::from(ErrorKind::Interrupted));
        }
        self.left = self.times;
        let count = bytes.len().min(3);
        self.taken.extend_from_slice(&bytes[..count])?;
        Ok(count)
    }

    fn flush(&mut self) -> io::Result<()> {
        Ok(())
    }
}

/// Appends what a writer has taken of some bytes, after `fails` if they could not be printed.
fn push_interrupted(text: &mut String, alloc: Global, times: u32, bytes: &[u8]) -> Pushed {
    let mut out = StdSink(Interrupted {
        taken: Vec::with_capacity(alloc, bytes.len())?,
        times,
        left: times,
    });
    if print(&mut out, bytes).is_err() {
        text.push_str("fails ")?;
    }
    push_bytes(text, &out.0.taken)
}

/// Appends how many bytes of a block are left after it was printed if full, and how many a writer had taken then and at the end. The writer
/// takes at most `step` bytes in one write, and `room` bytes in all.
fn push_block(text: &mut String, alloc: Global, bytes: &[u8], step: usize, room: usize) -> Pushed {
    let mut block = Block::new(alloc);
    block.text.extend_from_slice(bytes)?;
    let mut out = Narrow::new(alloc, step, room, WhenFull::Fails)?;
    let printed = block.print_if_full(&mut out);
    write!(text, "{} left, {} taken", block.text.len(), out.taken.len())?;
    if printed.is_err() || block.print_rest(&mut out).is_err() {
        return text.push_str(", fails");
    }
    write!(text, ", {} at the end", out.taken.len())
}
