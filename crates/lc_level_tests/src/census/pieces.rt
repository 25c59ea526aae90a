ghost use Rattle.std.specs.Prelude.{◌<◌, ◌≤◌, length};

use lc_census::{Census, CensusFault, Count, Eol, count_source};

fn counted_in_two(bytes: &[u8], place: usize) -> Count
    requires within { place ≤ length bytes.now }
    requires short { length bytes.now ≤ 1000 }
{
    let mut census = Census::new();
    census.feed(&bytes[..place]);
    census.feed(&bytes[place..]);
    census.finish()
}

/// Counts the bytes through a reader, with a buffer of this many bytes.
fn counted_by_reads(bytes: &[u8], room: usize) -> Result<Count, CensusFault>
    requires some { 0 < room }
    requires few { room ≤ 3 }
{
    let mut buffer = [0u8; 3];
    let mut rest = bytes;
    count_source(&mut buffer[..room], &mut rest, 1_000)
}

/// The name of a case, its bytes, how many lines they have, how many of these are blank, and how the lines end.
type Case = (&'static str, &'static [u8], u64, u64, Eol);

/// Returns whether a count of the case's bytes is as expected: cut at each place, read a byte at a time, and read in threes.
fn is_counted(case: &Case) -> bool {
    let (_, bytes, lines, blank, eol) = *case;
    if bytes.len() > 1_000 {
        return false;
    }
    let want = Count {
        lines,
        blank,
        bytes: bytes.len() as u64,
        eol,
    };
    for place in 0..bytes.len() + 1 {
        if counted_in_two(bytes, place) != want {
            return false;
        }
    }
    counted_by_reads(bytes, 1) == Ok(want) && counted_by_reads(bytes, 3) == Ok(want)
}

const EDGE: &[u8] =
    b"012345678901234567890123456789012345678901234567890123456789012\r\n \t\r\n\t x\r\n \n\r\n\
      0123456789012345678901234567890123456789012345678901234567890\r\n  ";

const SPACES: &[u8] = b"\n                                                                  \
      \x20                                                                 \n";

const NUL: &[u8] = b"0123456789012345678901234567890123456789012345678901234567890123456789\0\r";

const CASES: &[Case] = &[
    ("no byte", b"", 0, 0, Eol::NoEnd),
    ("a rest alone", b"x", 1, 0, Eol::NoEnd),
    ("a blank rest", b" \t", 1, 1, Eol::NoEnd),
    ("a NUL alone", b"\0", 1, 0, Eol::Nul),
    ("two line feeds", b"\n\n", 2, 2, Eol::Lf),
    ("a CR and a CR LF", b"\r\r\n", 2, 2, Eol::Mixed),
    ("each kind of end", b"a\r\nb\rc\n", 3, 0, Eol::Mixed),
    ("a last CR", b"x\r", 1, 0, Eol::Cr),
    ("CR LF alone", b"a\r\n\r\n", 2, 1, Eol::CrLf),
    ("LF and then CR", b"\n\r", 2, 2, Eol::Mixed),
    ("a NUL beside an end", b"\0\n", 1, 0, Eol::Nul),
    ("a rest after an end", b"a\nb", 2, 0, Eol::Lf),
    ("an empty line", b"one\n\ntwo", 3, 1, Eol::Lf),
    ("two lines", b"one\r\ntwo\r\n", 2, 0, Eol::CrLf),
    ("a form feed is no space", b"\x0c\n", 1, 0, Eol::Lf),
    ("a no-break space is no space", b"\xc2\xa0\n", 1, 0, Eol::Lf),
    ("ends at a vector's edge", EDGE, 7, 4, Eol::Mixed),
    ("a blank line over two vectors", SPACES, 2, 2, Eol::Lf),
    ("a NUL past a vector", NUL, 1, 0, Eol::Nul),
];

#[test]
fn counts_however_the_bytes_are_cut(rt: HostRuntime) {
    for case in CASES {
        assert!(&rt; is_counted(case), "{}", case.0);
    }
}
