//! The state of a scan, which counts line ends and blank lines.
ghost use Rattle.std.specs.Prelude.{◌≡◌};

/// The state of a scan: the counts so far, and what the scan must know of earlier bytes when it reads the next byte.
///
/// A line is counted at its LF or its CR. An LF right after a CR belongs to that CR's line end, and adds to `lf` and `crlf` but to no other
/// count. So the scan counts each byte without knowing the byte after it, and a piece may end anywhere.
#[derive(Clone, Copy, Debug, Drop, PartialEq, Eq)]
pub struct Scan {
    /// The number of line feeds, including line feeds after a CR.
    pub lf: u64,
    /// The number of carriage returns, including carriage returns before an LF.
    pub cr: u64,
    /// The number of line feeds right after a CR.
    pub crlf: u64,
    /// The number of lines that ended and hold only spaces and tabs, or nothing.
    pub blank: u64,
    /// The number of NUL bytes.
    pub nul: u64,
    /// Whether the last byte so far is a CR.
    pub after_cr: bool,
    /// Whether the line so far holds only spaces and tabs, or nothing.
    pub is_blank: bool,
}

impl Scan {
    ghost use Rattle.lc_census.specs.Scan.{start};

    /// Returns the state of a scan before the first byte.
    pub fn new() -> Self
        ensures { result ≡ start }
    {
        Scan {
            lf: 0,
            cr: 0,
            crlf: 0,
            blank: 0,
            nul: 0,
            after_cr: false,
            is_blank: true,
        }
    }
}
