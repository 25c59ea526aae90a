ghost use Rattle.std.specs.Prelude.{◌≡◌, ◌<◌, length};

use crate::census::readers::Reader;
use Reader::{AtOnce, ByByte, Fails, NoEnd};
use lc_io::{Source, WholeFault, read_whole};
use lc_tests::readers::{Bytewise, Endless, Failing};
use std::alloc::AllocError;
use std::test::Fail;

/// The name of a case, a reader and its bytes, the limit, the expected result, and the bytes that the vector then has.
type Case = (
    &'static str,
    Reader,
    &'static [u8],
    u16,
    Result<(), WholeFault>,
    &'static [u8],
);

const TOO_LONG: Result<(), WholeFault> = Err(WholeFault::TooLong);

const FAILED: Result<(), WholeFault> = Err(WholeFault::Read);

const CASES: &[Case] = &[
    ("no byte", ByByte, b"", 3, Ok(()), b""),
    ("some bytes", ByByte, b"ab", 3, Ok(()), b"ab"),
    ("at the limit", ByByte, b"abc", 3, Ok(()), b"abc"),
    ("one byte past it", ByByte, b"abcd", 3, TOO_LONG, b"abcd"),
    ("far past it", ByByte, b"abcdefg", 3, TOO_LONG, b"abcd"),
    ("none allowed, none there", ByByte, b"", 0, Ok(()), b""),
    ("none allowed", ByByte, b"ab", 0, TOO_LONG, b"a"),
    ("a first read that fails", Fails, b"", 3, FAILED, b""),
    ("a second", Fails, b"a", 3, FAILED, b"a"),
    ("a failure at the limit", Fails, b"abc", 3, FAILED, b"abc"),
    ("a failure past it", Fails, b"abcd", 3, TOO_LONG, b"abcd"),
    ("without an end", NoEnd, b"", 3, TOO_LONG, b"xxxx"),
    ("at the end", AtOnce, b"*.o\n!a.o", 8, Ok(()), b"*.o\n!a.o"),
    ("past it", AtOnce, b"*.o\n!a.o", 7, TOO_LONG, b"*.o\n!a.o"),
    ("after a line", AtOnce, b"*.o\n!a.o", 4, TOO_LONG, b"*.o\n!"),
];

/// Returns whether `read_whole` has the case's result for this reader, and leaves the case's bytes. The buffer and the vector may have been
/// used before.
fn is_read_of<S: Source + Drop>(
    buffer: &mut [u8],
    bytes: &mut Vec<u8>,
    source: S,
    case: &Case,
) -> Result<bool, AllocError>
    requires { 0 < length buffer.old }
    ensures { length buffer.new ≡ length buffer.old }
{
    let (_, _, _, limit, want, left) = *case;
    let mut reader = source;
    let found = read_whole(buffer, bytes, &mut reader, usize::from(limit));
    if found == Err(WholeFault::Memory) {
        return Err(AllocError);
    }
    Ok(found == want && bytes.as_slice() == left)
}

/// Like `is_read_of`, for the reader that the case names.
fn is_read(buffer: &mut [u8], bytes: &mut Vec<u8>, case: &Case) -> Result<bool, AllocError>
    requires { 0 < length buffer.old }
    ensures { length buffer.new ≡ length buffer.old }
{
    let given = case.2;
    match case.1 {
        ByByte => is_read_of(buffer, bytes, Bytewise(given), case),
        Fails => is_read_of(buffer, bytes, Bytewise(Failing(given)), case),
        AtOnce => is_read_of(buffer, bytes, given, case),
        NoEnd => is_read_of(buffer, bytes, Bytewise(Endless), case),
    }
}

#[test]
fn reads_whole_up_to_the_limit(rt: HostRuntime) -> Result<(), Fail> {
    let mut buffer = [0u8; 3];
    let mut bytes = Vec::new(rt.alloc());
    for case in CASES {
        assert!(&rt; is_read(&mut buffer, &mut bytes, case)?, "{}", case.0);
    }
    Ok(())
}
