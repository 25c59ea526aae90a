//! The texts of help and of the version.

// The version, followed by more text.
macro_rules! version {
    ($more:literal) => {
        concat!("0.1.0", $more)
    };
}

pub(crate) const VERSION: &str = version!("");

/// The version of the program, and the version of Rattle's logic for which its contracts are written, as `rt version` prints it.
pub(crate) const LONG_VERSION: &str = version!("\nwritten for Rattle's logic dac8208d650f15bf");

/// The texts that the help of a command shows, besides its options.
#[derive(Clone, Copy)]
pub(crate) struct CommandHelp {
    /// The command as it is typed, such as `lc count`.
    pub(crate) full_name: &'static str,
    /// The lines that show how the command is used.
    pub(crate) usage: &'static str,
    pub(crate) about: &'static str,
    /// The text after the options in the help of `-h`.
    pub(crate) after: &'static str,
    /// The text after the options in the help of `--help`.
    pub(crate) after_long: &'static str,
}

pub(crate) const LC: CommandHelp = CommandHelp {
    full_name: "lc",
    usage: "lc [OPTIONS] <DIR>...\n       lc <OPTIONS>\n       lc <COMMAND> [OPTIONS] [ARGUMENTS]",
    about: "Count files, lines and bytes in a source tree, skipping what .gitignore skips",
    after: "Example: lc .",
    after_long: "\
The word count may be omitted: lc counts if its first argument is an option of
lc count, is . or .., has a slash, or is a directory and no command.

  lc .
  lc src
  lc --by ext /usr/include

Without arguments, lc reads the lines of an ignore file, a line --, and paths
from standard input, and answers each path as lc check does.

Exit status:
  0  success
  1  count, sum, diff, explain: the answer was written, but something could not
     be read or printed
  2  usage error
  3  stopped with an error; standard error shows it in one line
  4  count, sum --fail-if-any: a file was counted; diff --fail-if-any: a row
     or a file differs

Example: lc .

See also: lc count --help, lc sum --help, lc diff --help, lc explain --help,
lc check --help, lc languages --help, man lc",
};

pub(crate) const COUNT: CommandHelp = CommandHelp {
    full_name: "lc count",
    usage: "lc count [OPTIONS] [DIR]...",
    about: "Count files, lines and bytes, skipping what Git would ignore",
    after: "Example: lc count --by ext .",
    after_long: "\
lc counts each file under DIR, unless a rule skips it: a rule in a .gitignore of
DIR or below, in .git/info/exclude, in the file of --exclude-from, or of
--exclude. --include, --archive, --without, --only, --only-from and -x skip
files, too. A file with several hard links is counted under each of its names.
Entries named .git, symbolic links and special files are always skipped. lc
reads no rules above DIR, no configuration of Git and not its index: an ignored
file is skipped even if Git tracks it.

Several DIRs are counted one after another, each under its own rules, and their
sums are added. Paths then begin with DIR as you typed it.

Each row is for the files of one kind:
  dir    the directory, relative to DIR; only with --by dir
  lang   the language, such as C++; - for none; only with --by lang
  attr:NAME
         the state of a Git attribute: set, unset, its value, or - for none;
         only with --by attr:NAME
  ext    the extension of the name, with its dot; - for none
  text   the attribute text in .gitattributes: set, unset, auto, other, or -
  eol    how lines end: lf, crlf, cr, mixed or none; nul for a file with a NUL
  files  the number of files
  lines, blank, bytes
         the sums over these files. A line ends with LF, CR LF or CR; the last
         one needs no end. A blank line holds only spaces and tabs.

In table, markdown and json, text and binary are the sums over the files without
and with a NUL byte. A file without one counts as text, whatever its bytes.

In tsv, the lines below the rows begin with others (the sums of the rows that
--top cuts off), total, directories, entries, file, left (a skipped entry, and
why) or fault (what could not be read). man lc and docs/OUTPUT.md describe each.

Exit status:
  0  everything was counted
  1  the table was written, but something could not be read or printed
  2  usage error
  3  no table, or a part of it; standard error shows why
  4  --fail-if-any: the table was written, and a file was counted

The word count may be omitted before an option, a path with a slash, or a
directory whose name is no command: lc src, lc --by ext src.

Examples:
  lc .
  lc count --by ext .
  lc count --left-out .
  lc count --files --top 10 .
  lc count --files --where 'lines>1000' --where ext=.c,.h .
  lc count --files --where 'lines>1000' --fail-if-any .
  lc count --by dir --depth 2 --share .
  lc count src ../lib
  lc count --format csv --files .
  lc count --format paths -0 --where ext=.c . | xargs -0 wc
  lc count -j 8 src
  lc count --exclude '*.min.js' --include '*.js' .
  lc count --only src --only doc .
  git ls-files -z | lc count --no-ignore --only-from - -0 .
  lc count --archive --exclude-from rules .
  lc count --without linguist-vendored --without linguist-generated .",
};

pub(crate) const SUM: CommandHelp = CommandHelp {
    full_name: "lc sum",
    usage: "lc sum [OPTIONS] [[NAME=]REPORT]...",
    about: "Add reports that lc count or lc sum printed as JSON",
    after: "Example: lc sum --by dir v1=v1.json v2=v2.json",
    after_long: "\
A REPORT is a file with the output of lc count --format json or of lc sum
--format json, once or several times; - is standard input. Its numbers are added
to those of the others, as if one count had read all files.

NAME= puts the paths of a REPORT below NAME, so that two reports with equal
paths can be added. It is what is before the first = if no slash is before that:
./a=b is a file without a NAME.

Without --by, rows are by those of ext, text and eol that every REPORT has.
--files, --by dir, --format html, tree or paths and a condition on a number need
reports that were counted with --files, --by attr:NAME and a condition on
attr:NAME those counted with --files --by attr:NAME, lang those counted with
--files --by lang, and --left-out those counted with --left-out.

Exit status:
  0  everything was added, and no REPORT lists what could not be read
  1  the table was written, but a REPORT lists errors, or a path was not printed
  2  usage error
  3  no table, or a part of it; standard error shows why
  4  --fail-if-any: the table was written, and it has a file

Examples:
  lc count --format json src | lc sum
  lc sum --by ext --sort lines a.json b.json
  lc sum --by dir v1=v1.json v2=v2.json",
};

pub(crate) const DIFF: CommandHelp = CommandHelp {
    full_name: "lc diff",
    usage: "lc diff [OPTIONS] <OLD> <NEW>",
    about: "Compare the sums of two directories or reports",
    after: "Example: lc diff --by dir v1.json .",
    after_long: "\
OLD and NEW are each a directory, which is counted as lc count does, or a report
that lc sum reads; - is a report on standard input. Options that choose files
hold for directories; --where and --no-binary hold for both sides.

Each row has the old and the new number of files, lines, blank lines and bytes.
In table and markdown it has each new number and its change. The change of the
number that rows are sorted by, or of lines with --sort name, is also shown in
per cent. A row in which no number changed is not printed, except with --all.
Paths are compared as they are. Lines that were added and lines that were
removed within a file are not told apart.

Exit status:
  0  both sides were read, whether or not they differ
  1  the table was written, but something could not be read
  2  usage error
  3  no table, or a part of it; standard error shows why
  4  --fail-if-any: the table was written, and a row or a file differs

Examples:
  lc diff v1 v2
  lc diff --files v1.json .
  lc diff --where 'lines>1000' --where change=added --fail-if-any v1 v2
  lc count --format json --files . | lc diff --by dir v1.json -",
};

pub(crate) const EXPLAINING: CommandHelp = CommandHelp {
    full_name: "lc explain",
    usage: "lc explain [OPTIONS] <DIR> [PATH]...",
    about: "Show which rule skips or keeps a path, whether or not it exists",
    after: "Example: lc explain . build/main.o",
    after_long: "\
Each line of output has four fields, separated by tabs: a word, the rule that
decides, its pattern, and the path.

  ignored   the last rule that matches ignores the path
  included  the last rule that matches begins with ! and keeps the path
  none      no rule matches
  below     a directory above the path is ignored, by the rule shown
  left      lc count skips the path, or a directory above it, for a reason that
            is no rule: git (.git), other (neither file nor directory),
            attribute:ATTR, or include (no --include matches the file or a
            directory above it)
  bad       no file or directory can have this path, or it is over 4,096 bytes
  fault     a directory or rule file above the path could not be read: the
            word of the fault, and as the path that of the directory or file

A path is relative to DIR, wherever lc is started, and need not exist. It may
begin with ./, as find prints it. A slash at its end means a directory. If there
is no slash, the path is a directory where one exists, and else a file. The rule
files are those that lc count DIR reads.

Exit status:
  0  each path was answered
  1  each path was answered, but something could not be read
  2  usage error
  3  stopped with an error; standard error shows it in one line

Examples:
  lc explain . a.log build/main.o
  git ls-files -o | lc explain .
  find . | lc explain .",
};

pub(crate) const CHECK: CommandHelp = CommandHelp {
    full_name: "lc check",
    usage: "lc check [OPTIONS] <FILE>",
    about: "Match paths on standard input against the rules of one file",
    after: "Example: git ls-files | lc check .gitignore",
    after_long: "\
Paths come one a line. Each line of output is a word, a tab and the path.

  ignored   the last rule that matches ignores the path
  included  the last rule that matches begins with ! and keeps the path
  none      no rule matches
  below     a directory above the path is ignored
  bad       no file or directory can have this path, or it is over 4,096 bytes

Paths are relative to the directory of FILE and need not exist. A slash at the
end of a path means a directory. Plain find prints paths that begin with ./ and
are bad; these print them as lc wants them:

  git ls-files | lc check .gitignore
  find . -type f -printf '%P\\n' | lc check .gitignore

Exit status:
  0  each path was answered
  2  usage error
  3  stopped with an error; standard error shows it in one line

Examples:
  printf '%s\\n' main.c main.o build/ | lc check .gitignore
  git ls-files | lc check --explain .gitignore",
};

pub(crate) const LANGUAGES: CommandHelp = CommandHelp {
    full_name: "lc languages",
    usage: "lc languages",
    about: "Print the list of languages",
    after: "Example: lc languages",
    after_long: "\
For each name and each end of names that the list has, lc prints a line of a
.gitattributes, such as

  *.c linguist-language=C

lc count --by lang reads the language of a file from its attribute
linguist-language, or else from this list. Put the lines that you change into
.gitattributes, for --by lang and for GitHub.

Exit status:
  0  the list was printed
  2  usage error
  3  stopped with an error; standard error shows it in one line

Examples:
  lc languages
  lc languages | grep Perl",
};
