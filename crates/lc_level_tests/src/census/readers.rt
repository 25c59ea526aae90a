//! Tests of counting a reader: how many reads are made, and what a failed or an interrupted read changes.

use lc_census::{CensusFault, Count, Eol, MAX_TURNS, count, count_source, count_within};
use lc_io::{Source, StdSource};
use lc_tests::readers::{Bytewise, Counted, Endless, Failing};
use std::alloc::{AllocError, Global};
use std::io::ErrorKind::{Interrupted, Other, WouldBlock};
use std::io::{Error, ErrorKind, Read, Result as IoResult};
use std::test::Fail;

/// How a reader returns its bytes: one for each read, and then its end or a failure; as many as the buffer holds; or without an end.
#[derive(Clone, Copy)]
pub(super) enum Reader {
    ByByte,
    Fails,
    AtOnce,
    NoEnd,
}

/// The result of counting a reader.
type Outcome = Result<Count, CensusFault>;

/// The name of a case, a reader and its bytes, the greatest number of reads, the expected result, and the expected number of reads.
type Case = (&'static str, Reader, &'static [u8], u64, Outcome, u64);

const ENDLESS: Outcome = Err(CensusFault::Endless);

const FAILED: Outcome = Err(CensusFault::Read);

const AB: Outcome = Ok(Count {
    lines: 1,
    blank: 0,
    bytes: 2,
    eol: Eol::NoEnd,
});

const TWO_LINES: Outcome = Ok(Count {
    lines: 2,
    blank: 0,
    bytes: 5,
    eol: Eol::Mixed,
});

const CASES: &[Case] = &[
    ("more turns than reads", Reader::ByByte, b"ab", 4, AB, 3),
    ("as many", Reader::ByByte, b"ab", 3, AB, 3),
    ("one less", Reader::ByByte, b"ab", 2, ENDLESS, 2),
    ("none", Reader::ByByte, b"ab", 0, ENDLESS, 0),
    // The end of a slice is found by a further read.
    ("one turn", Reader::AtOnce, b"ab", 1, ENDLESS, 1),
    ("two turns", Reader::AtOnce, b"ab", 2, AB, 2),
    (
        "a slice",
        Reader::AtOnce,
        b"a\r\nb\n",
        MAX_TURNS,
        TWO_LINES,
        2,
    ),
    (
        "an endless reader",
        Reader::NoEnd,
        b"",
        1_000,
        ENDLESS,
        1_000,
    ),
    ("the first fails", Reader::Fails, b"", MAX_TURNS, FAILED, 1),
    ("the second", Reader::Fails, b"a", MAX_TURNS, FAILED, 2),
    (
        "in mid-stream",
        Reader::Fails,
        b"a\nb",
        MAX_TURNS,
        FAILED,
        4,
    ),
    ("after a CR", Reader::Fails, b"a\r", MAX_TURNS, FAILED, 3),
];

/// Returns whether a count of this reader, in reads of 65,536 bytes, has the case's result after the case's number of reads. The only error
/// is a failed allocation, before which no read was made.
fn is_counted_of<S: Source + Drop>(
    alloc: Global,
    source: S,
    case: &Case,
) -> Result<bool, AllocError> {
    let (_, _, _, turns, want, reads) = *case;
    let mut reader = Counted::new(source);
    let found = if turns < MAX_TURNS {
        count_within(alloc, &mut reader, turns)
    } else {
        count(alloc, &mut reader)
    };
    if reader.reads == 0 && found == Err(CensusFault::Memory) {
        return Err(AllocError);
    }
    let longest = if reads == 0 { 0 } else { 65_536 };
    Ok(found == want && reader.reads == reads && reader.longest == longest)
}

/// Like `is_counted_of`, for the reader that the case names.
fn is_counted(alloc: Global, case: &Case) -> Result<bool, AllocError> {
    let bytes = case.2;
    match case.1 {
        Reader::ByByte => is_counted_of(alloc, Bytewise(bytes), case),
        Reader::Fails => is_counted_of(alloc, Bytewise(Failing(bytes)), case),
        Reader::AtOnce => is_counted_of(alloc, bytes, case),
        Reader::NoEnd => is_counted_of(alloc, Bytewise(Endless), case),
    }
}

#[test]
fn reads_up_to_the_end_within_its_turns(rt: HostRuntime) -> Result<(), Fail> {
    for case in CASES {
        assert!(&rt; is_counted(rt.alloc(), case)?, "{}", case.0);
    }
    Ok(())
}

/// A reader of std whose reads fail with errors of `kind`, except each `period`-th read, which returns the next byte.
#[derive(Drop)]
struct Failings<'a> {
    left: &'a [u8],
    kind: ErrorKind,
    period: u64,
    reads: u64,
}

impl Read for Failings<'_> {
    fn read(&mut self, buffer: &mut [u8]) -> IoResult<usize> {
        self.reads = self.reads.saturating_add(1);
        if self.reads % self.period.max(1) != 0 {
            return Err(Error::from(self.kind));
        }
        let Some((first, others)) = self.left.split_first() else {
            return Ok(0);
        };
        let Some(place) = buffer.first_mut() else {
            return Ok(0);
        };
        *place = *first;
        self.left = others;
        Ok(1)
    }
}

const WHOLE: Outcome = Ok(Count {
    lines: 2,
    blank: 0,
    bytes: 4,
    eol: Eol::CrLf,
});

/// The name of a case, the `kind` and the `period` of its `Failings`, the expected result, and the expected number of reads.
const ERRORS: &[(&str, ErrorKind, u64, Outcome, u64)] = &[
    ("never interrupted", Interrupted, 1, WHOLE, 5),
    ("once a byte", Interrupted, 2, WHOLE, 10),
    ("999 times", Interrupted, 1_000, WHOLE, 5_000),
    ("65,535 times", Interrupted, 65_536, WHOLE, 327_680),
    ("65,536 times", Interrupted, 65_537, FAILED, 65_536),
    ("would block", WouldBlock, 2, FAILED, 1),
    ("another error", Other, 2, FAILED, 1),
];

#[test]
fn only_interrupted_reads_are_tried_again(rt: HostRuntime) {
    let mut buffer = [0u8; 16];
    for (name, kind, period, want, reads) in ERRORS {
        let mut reader = StdSource(Failings {
            left: b"a\r\nb",
            kind: *kind,
            period: *period,
            reads: 0,
        });
        let found = count_source(&mut buffer, &mut reader, 1_000);
        assert!(&rt; found == *want && reader.0.reads == *reads, "{name}");
    }
}
