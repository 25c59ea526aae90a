ghost use Rattle.std.specs.Prelude.{◌<◌};

use lc_census::{Scan, scan_scalar, scan_simd};

/// The bytes that a scan distinguishes, and `x` for all others.
const LETTERS: [u8; 6] = [b'\n', b'\r', 0, b' ', b'\t', b'x'];

/// The number of words of six bytes of `LETTERS`.
const WORDS: u32 = 46_656;

/// Returns the word with this number, of six bytes of `LETTERS`, between two `x`.
fn parted_word(number: u32) -> [u8; 8] {
    let mut parted = [b'x'; 8];
    let mut left = number;
    for at in 1..7usize {
        parted[at] = LETTERS[(left % 6) as usize];
        left /= 6;
    }
    parted
}

/// Returns the scan by vectors of this word at a place of a vector, with `x` in all other places.
fn scan_at(place: usize, parted: &[u8; 8]) -> Scan
    requires { place < 64 }
{
    let mut bytes = [b'x'; 128];
    bytes[place..place + 6].copy_from_slice(&parted[1..7]);
    let end = if place < 58 { 64 } else { 128 };
    scan_simd(Scan::new(), &bytes[..end])
}

/// Returns whether both scans agree on a word at each place of a vector. The scan by bytes is made once for all places after the first,
/// since a further `x` changes nothing. A shorter word is one of six bytes that ends in `x`.
fn bodies_agree(parted: &[u8; 8]) -> bool {
    if scan_at(0, parted) != scan_scalar(Scan::new(), &parted[1..]) {
        return false;
    }
    let inside = scan_scalar(Scan::new(), parted);
    for place in 1..64usize {
        if scan_at(place, parted) != inside {
            return false;
        }
    }
    true
}

#[test]
fn both_bodies_agree_at_every_place_of_a_vector(rt: HostRuntime) {
    for number in 0..WORDS {
        assert!(&rt; bodies_agree(&parted_word(number)), "word {number}");
    }
}
