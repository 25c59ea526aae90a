//! Tests with a text that is longer than three blocks, the pieces in which output is written. If the writer stops, a prefix of the text was
//! written. Each line of the text has about 1 KiB, because the line shows a long pattern.

use crate::paths::forms::{Case, Form, called, stops_there};
use lc_io::{Failed, Sink};
use lc_paths::{CheckFault, Outcome};
use lc_tests::readers::Bytewise;
use lc_tests::writers::WhenFull;
use std::alloc::{AllocError, Global};
use std::process::Abort;
use std::test::Fail;

/// The number of lines of the text. They make three blocks and a part of a fourth.
const LINES: usize = 200;

/// Returns a pattern of 1,003 bytes that matches `a`.
fn long_pattern(alloc: Global) -> Result<Vec<u8>, AllocError> {
    let mut pattern = b"[a".to_vec(alloc)?;
    for _ in 0..1000 {
        pattern.push(b'x')?;
    }
    pattern.push(b']')?;
    Ok(pattern)
}

/// Returns this line, repeated `LINES` times.
fn repeated(alloc: Global, line: &[u8]) -> Result<Vec<u8>, AllocError> {
    let mut text = Vec::new(alloc);
    for _ in 0..LINES {
        text.extend_from_slice(line)?;
    }
    Ok(text)
}

/// Returns the output that is expected for `LINES` paths `a`, which this pattern ignores.
fn expected(alloc: Global, pattern: &[u8]) -> Result<Vec<u8>, AllocError> {
    let mut line = b"ignored\t.gitignore:1\t".to_vec(alloc)?;
    line.extend_from_slice(pattern)?;
    line.extend_from_slice(b"\ta\n")?;
    repeated(alloc, &line)
}

/// A sink that takes all bytes, and stores how many bytes each write had.
#[derive(Drop)]
struct Measured {
    lengths: Vec<usize>,
}

impl Sink for Measured {
    ghost may_take = { λ old bytes answer new. Unit {0} };

    fn write(&mut self, bytes: &[u8]) -> Result<usize, Failed> {
        match self.lengths.push(bytes.len()) {
            Ok(()) => Ok(bytes.len()),
            Err(_) => Err(Failed),
        }
    }
}

/// Checks that the call of a case writes each full block at once. A line has 1,027 bytes, and 64 of them are the first that fill a block.
fn compare_lengths<R: AllocGlobal + Abort>(rt: &R, case: &Case<'_>) -> Result<(), AllocError> {
    let mut out = Measured {
        lengths: Vec::with_capacity(rt.alloc(), 8)?,
    };
    let answer = called(rt.alloc(), case, &mut Bytewise(case.input), &mut out);
    if answer == Err(CheckFault::Memory) {
        return Err(AllocError);
    }
    assert!(rt;
        answer == Ok(Outcome::Clean)
            && out.lengths.as_slice() == [65_728, 65_728, 65_728, 8_216].as_slice(),
        "{:?}",
        out.lengths
    );
    Ok(())
}

/// The numbers of bytes that a writer has room for: they end in the first block, at its end, in the second, in the last and at the end of
/// the text.
const ROOMS: &[usize] = &[
    0, 1, 65_727, 65_728, 65_729, 100_000, 197_184, 205_399, 205_400,
];

fn compare_writes<R: AllocGlobal + Abort>(rt: &R, case: &Case<'_>) -> Result<(), Fail> {
    for room in ROOMS {
        let at_once = stops_there(rt, case, (100_000, WhenFull::Fails), *room)?;
        let in_pieces = stops_there(rt, case, (1_000, WhenFull::TakesNothing), *room)?;
        assert!(rt; at_once && in_pieces, "at {room}");
    }
    Ok(())
}

#[test]
fn writes_stop_in_each_block(rt: HostRuntime) -> Result<(), Fail> {
    let pattern = long_pattern(rt.alloc())?;
    let paths = repeated(rt.alloc(), b"a\n")?;
    let text = expected(rt.alloc(), &pattern)?;
    let words = ["a"; LINES];
    for form in [Form::CheckExplained, Form::Explain, Form::ExplainWords] {
        let case = Case {
            form,
            rules: &pattern,
            input: &paths,
            words: &words,
            text: &text,
        };
        compare_lengths(&rt, &case)?;
        compare_writes(&rt, &case)?;
    }
    Ok(())
}
