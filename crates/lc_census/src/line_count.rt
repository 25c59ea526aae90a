//! The counts of a census. This module is not named `count`, since the crate's root already has a function of that name.

ghost use Rattle.std.specs.Prelude.{◌≡◌};
ghost use Rattle.lc_census.specs.EolWords.{eol_word};

/// The kind of the line ends in the bytes that were counted.
#[derive(Clone, Copy, Debug, Drop, PartialEq, Eq)]
pub enum Eol {
    /// There is no line end.
    NoEnd,
    /// There are line ends, and each is LF.
    Lf,
    /// There are line ends, and each is CR LF.
    CrLf,
    /// There are line ends, and each is a CR that no LF follows.
    Cr,
    /// There are line ends of different kinds.
    Mixed,
    /// A NUL byte occurs, whatever the line ends are.
    Nul,
}

impl Eol {
    /// Returns the word for this kind of line ends in reports, such as `crlf`.
    pub fn as_str(self) -> &'static str
        ensures { result.now ≡ eol_word self }
    {
        match self {
            Eol::NoEnd => "none",
            Eol::Lf => "lf",
            Eol::CrLf => "crlf",
            Eol::Cr => "cr",
            Eol::Mixed => "mixed",
            Eol::Nul => "nul",
        }
    }
}

/// The result of a census: the numbers of lines, blank lines and bytes, and how the lines end.
///
/// A line ends at LF, at CR LF, or at a CR that no LF follows. Bytes after the last line end are one more line.
#[derive(Clone, Copy, Debug, Drop, PartialEq, Eq)]
pub struct Count {
    /// The number of lines.
    pub lines: u64,
    /// The number of lines that hold only spaces and tabs, or nothing.
    pub blank: u64,
    /// The number of bytes, line ends included.
    pub bytes: u64,
    /// The kind of the line ends.
    pub eol: Eol,
}
