//! Laws: theorems about the definitions that the contracts cite. Each law is the contract of a function that does nothing.

ghost use Rattle.lc_text.specs.DotsBefore.{KeptLaw, UndottedLaw};
ghost use Rattle.lc_text.specs.ShellWords.{QuotedLaw};

/// The law that [`undotted`](crate::undotted) drops each `./` at the beginning of a line, with all slashes after it. The result is the rest
/// of the line, or `.` if nothing follows a `./`. The path of an entry of a tree does not begin with `./`, and stays as it is.
pub fn dots_before_a_path_are_dropped()
    ensures dropped { UndottedLaw }
    ensures kept { KeptLaw }
{}

/// The law that [`push_quoted`](crate::push_quoted) writes each text as one argument of a shell, and that the shell reads this argument as
/// the text.
pub fn a_shell_reads_what_was_quoted()
    ensures { QuotedLaw }
{}
