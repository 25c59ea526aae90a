//! The census of bytes that come piece by piece: the counts of lines, blank lines and bytes, and the kind of the line ends.
ghost use Rattle.std.specs.Prelude.{◌≡◌, ℕ, ◌+◌, ◌≤◌, ◌^◌, List, [], ◌++◌, length};
ghost use Rattle.lc_census.specs.Bytes.{is_end};
ghost use Rattle.lc_census.specs.Census.{IsCensus, class_of};
ghost use Rattle.lc_census.specs.Fed.{LeadTo};

use crate::line_count::{Count, Eol};
use crate::scan::Scan;
use crate::simd::scan_simd;
use std::marker::Model;

/// The census of the bytes that were fed so far.
///
/// The bytes may be cut into pieces anywhere, also between a CR and its LF, and a piece may be empty. Nothing is allocated.
///
/// ```
/// let mut census = Census::new();
/// census.feed(b"one\r");
/// census.feed(b"\ntwo\r\n");
/// let count = census.finish(); // 2 lines, 0 blank, 10 bytes, `Eol::CrLf`
/// ```
#[derive(Drop)]
pub struct Census {
    scan: Scan,
    bytes: u64,
    has_rest: bool,
}

impl Model for Census {
    ghost use Rattle.lc_census.specs.Fed.{CensusModel, IsSmall};

    ghost Value = { CensusModel };

    ghost view = { λ c. record { scan = c.scan; bytes = c.bytes; has_rest = c.has_rest } };

    ghost invariant = { λ c. IsSmall c.scan c.bytes };
}

impl Census {
    /// Returns the census of no bytes.
    pub fn new() -> Self
        ensures none { LeadTo [] result }
        ensures bytes { result.bytes ≡ 0 }
    {
        Census {
            scan: Scan::new(),
            bytes: 0,
            has_rest: false,
        }
    }

    /// Adds the next piece of the bytes. All pieces together may have at most 2^48 bytes.
    pub fn feed(&mut self, piece: &[u8])
        requires { self.old.bytes + length piece.now ≤ 2 ^ 48 }
        ensures bytes { self.new.bytes ≡ self.old.bytes + length piece.now }
        ensures goes_on { (before : List ℕ) → LeadTo before self.old → LeadTo (before ++ piece.now) self.new }
    {
        self.scan = scan_simd(self.scan, piece);
        self.bytes += piece.len() as u64;
        if let [.., last] = piece {
            self.has_rest = !ends_line(*last);
        }
    }

    /// Returns the counts of all the bytes that were fed.
    pub fn finish(self) -> Count
        ensures { (bytes : List ℕ) → LeadTo bytes self → IsCensus bytes result }
    {
        let Scan {
            lf,
            cr,
            crlf,
            blank,
            nul,
            is_blank,
            ..
        } = self.scan;
        Count {
            lines: lf + (cr - crlf) + u64::from(self.has_rest),
            blank: blank + u64::from(self.has_rest & is_blank),
            bytes: self.bytes,
            eol: class(nul != 0, lf - crlf != 0, crlf != 0, cr - crlf != 0),
        }
    }
}

fn ends_line(byte: u8) -> bool
    ensures { result ≡ is_end byte }
{
    byte == b'\n' || byte == b'\r'
}

// The class, by whether there is a NUL, an end LF, an end CR LF and an end CR.
fn class(has_nul: bool, has_lf: bool, has_crlf: bool, has_cr: bool) -> Eol
    ensures { result ≡ class_of has_nul has_lf has_crlf has_cr }
{
    if has_nul {
        return Eol::Nul;
    }
    match (has_lf, has_crlf, has_cr) {
        (false, false, false) => Eol::NoEnd,
        (true, false, false) => Eol::Lf,
        (false, true, false) => Eol::CrLf,
        (false, false, true) => Eol::Cr,
        _ => Eol::Mixed,
    }
}
