//! Why a directory or a file could not be read.

ghost use Rattle.std.specs.Prelude.{◌≡◌};
ghost use Rattle.lc_program.specs.Reasons.{is_no_directory, reason_text};

/// Why a directory or a file could not be read.
#[derive(Clone, Copy)]
pub enum UnreadReason {
    /// There is nothing at the path of the directory or file.
    Missing,
    /// The system does not permit the program to read the directory or the file.
    Denied,
    /// There is a directory at the path, but a file is expected.
    IsDirectory,
    /// There is a file at the path, but a directory is expected.
    IsFile,
    /// The path leads to something other than a directory or a file, such as a pipe, or leads through something that is no directory.
    NotDirectory,
    /// A reason that the other variants do not describe. The program prints no text for this reason.
    Other,
}

impl UnreadReason {
    /// Returns whether there is no directory at the path.
    pub(crate) fn is_no_directory(self) -> bool
        ensures { result ≡ is_no_directory self }
    {
        matches!(
            self,
            UnreadReason::Missing | UnreadReason::IsFile | UnreadReason::NotDirectory
        )
    }

    /// Returns the text of the reason, which follows the name in a line on standard error.
    pub(crate) fn text(self) -> &'static str
        ensures { result.now ≡ reason_text self }
    {
        match self {
            UnreadReason::Missing => ": no such file or directory",
            UnreadReason::Denied => ": permission denied",
            UnreadReason::IsDirectory => ": is a directory",
            UnreadReason::IsFile | UnreadReason::NotDirectory => ": not a directory",
            UnreadReason::Other => "",
        }
    }
}
