//! The names of the members of a report in JSON.

ghost use Rattle.std.specs.Prelude.{◌≡◌};
ghost use Rattle.lc_reading.specs.MemberNames.{member_name};

/// The name of a member of a report that is printed as JSON.
#[derive(Clone, Copy, Debug, Drop, PartialEq, Eq)]
pub enum MemberName {
    Rows,
    Others,
    Total,
    Text,
    Binary,
    Directories,
    Entries,
    Files,
    Left,
    Faults,
    Path,
    PathBytes,
    Ext,
    ExtBytes,
    Eol,
    Lines,
    Blank,
    Bytes,
    Kind,
    Reason,
    File,
    FileBytes,
    Line,
    Attribute,
    AttributeBytes,
    Word,
}

impl MemberName {
    /// Returns the name as it is printed, such as `rows`.
    pub fn as_str(self) -> &'static str
        ensures { result.now ≡ member_name self }
    {
        match self {
            MemberName::Rows => "rows",
            MemberName::Others => "others",
            MemberName::Total => "total",
            MemberName::Text => "text",
            MemberName::Binary => "binary",
            MemberName::Directories => "directories",
            MemberName::Entries => "entries",
            MemberName::Files => "files",
            MemberName::Left => "left",
            MemberName::Faults => "faults",
            MemberName::Path => "path",
            MemberName::PathBytes => "path_bytes",
            MemberName::Ext => "ext",
            MemberName::ExtBytes => "ext_bytes",
            MemberName::Eol => "eol",
            MemberName::Lines => "lines",
            MemberName::Blank => "blank",
            MemberName::Bytes => "bytes",
            MemberName::Kind => "kind",
            MemberName::Reason => "reason",
            MemberName::File => "file",
            MemberName::FileBytes => "file_bytes",
            MemberName::Line => "line",
            MemberName::Attribute => "attribute",
            MemberName::AttributeBytes => "attribute_bytes",
            MemberName::Word => "word",
        }
    }
}
