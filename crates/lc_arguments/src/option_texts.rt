//! The texts about options and positional arguments that help, completions and suggestions show.
//!
//! These texts are not in the table of options, because the prover evaluates the whole table in proofs about it.

use crate::option_row::{Commands, OptionRow};

/// A text for each row of the table of options. The first line has the first command with the argument, the argument's name, and, for an
/// option, the heading. Lines with labels follow. The text of `--help` comes after an empty line, if it differs from the line `help`.
const TEXTS: &[&str] = &[
    "count exclude: Which files
help: Skip what PATTERN matches
example: lc count --exclude '*.min.js' .

Skip what PATTERN matches. PATTERN is a line of a .gitignore, relative
to DIR, and overrides every rule file. !PATTERN keeps what they
ignore. May be repeated; the last one that matches decides",
    "count exclude-from: Which files
help: Skip what the patterns in FILE match
example: lc count .

Skip what the patterns in FILE match. FILE has the syntax of a
.gitignore and its patterns are relative to DIR; .git/info/exclude and
every .gitignore override it",
    "count include: Which files
help: Skip files that no PATTERN of --include matches
brief: Count only files that PATTERN matches
example: lc count --include '*.c' .

Skip files unless PATTERN matches them or a directory above them.
PATTERN is a line of a .gitignore without !, relative to DIR. Rules
and attributes still skip files. May be repeated; one that matches is
enough",
    "count no-ignore: Which files
help: Read no .gitignore and no .git/info/exclude
brief: Read no .gitignore
example: lc count --no-ignore .

Read no .gitignore and no .git/info/exclude. --exclude, --exclude-from
and .gitattributes still apply, and .git is still skipped",
    "count archive: Which files
help: Skip what has the attribute export-ignore
example: lc count --archive .

Skip files and directories whose attribute export-ignore is set, as
git archive does",
    "count without: Which files
help: Skip what has the attribute ATTR, or has this value of it
brief: Skip what has this attribute
example: lc count --without linguist-vendored .

Skip files and directories whose attribute ATTR is set, such as
linguist-vendored. A line `* ATTR` of .gitattributes sets it; `*
ATTR=true` gives it a value instead. ATTR=VALUE skips those with
exactly this value. May be repeated",
    "count attributes-from: Which files
help: Read attributes in FILE, too; .gitattributes override it
brief: Read attributes in FILE, too
example: lc count .

Read attributes in FILE, too, for --without, --archive and the columns
lang, text and attr:NAME. FILE has the syntax of a .gitattributes and
its patterns are relative to DIR; every .gitattributes overrides it,
as git reads core.attributesFile. It may define macros",
    "count only: Which files
help: Count only PATH, under the rules of all of DIR
brief: Count only what is at or under PATH
example: lc count .

Count only what is at or under PATH, under the rules of all of DIR.
PATH is relative to DIR, such as src/lib; . is all of DIR. May be
repeated. lc count takes only one DIR then. lc diff counts PATH in OLD
and in NEW; where PATH does not exist, it could not be read",
    "count only-from: Which files
help: Count only the paths in FILE, one a line
brief: Count only the paths that FILE lists
example: find . | lc count --only-from - .

Count only what is at or under the paths in FILE, as --only counts
them. They come one a line; FILE - is standard input. Paths may begin
with ./, as find prints them. If FILE has none, and there is no
--only, no file is counted",
    "count null: Which files
help: Paths of --only-from and --format paths end with NUL
brief: Paths that are read or printed end with NUL
example: find . -print0 | lc count --only-from - -0 .

The paths of --only-from and of --format paths end with NUL, as
git ls-files -z prints paths and xargs -0 reads them. Without --null,
--format paths does not print a path with a line feed",
    "diff null: Which files
help: Paths of --only-from end with NUL
brief: Paths that are read end with NUL

The paths of --only-from end with NUL, as git ls-files -z prints them",
    "count one-file-system: Which files
help: Skip directories on other file systems
example: lc count --one-file-system .

Skip directories on another file system than DIR, such as /proc
below /",
    "count files: What is printed
help: Also print a line for each counted file
example: lc count --files .",
    "count left-out: What is printed
help: Also print a line for each skipped entry, and why
brief: Also print each skipped entry, and why
example: lc count --left-out .

Also print the number of entries, and a line for each skipped entry
with the rule or the reason",
    "count where: What is printed
help: Show only files that meet CONDITION, such as 'lines>1000'
brief: Show only files that meet a condition
example: lc count --where 'lines>1000' .

Show and sum only files that meet CONDITION: a column, an operator and
values, such as ext=.c,.h or eol!=lf or 'lines>1000', in quotes. The
columns are lang, ext, text, eol, attr:NAME, lines, blank and bytes;
the operators = and !=, and for numbers also <, <=, > and >=. For
lang, ext, text and attr:NAME the value - means that there is none, as
in ext=-. May be repeated; all must hold. Skipped entries and errors
stay",
    "count no-binary: What is printed
help: Show only files without a NUL byte
example: lc count --no-binary .

Show and sum only files without a NUL byte, as --where eol!=nul does.
A file without one counts as text, whatever its bytes",
    "count format: What is printed
help: tsv, table, json, csv, markdown, html, tree or paths
brief: How to print
example: lc count --format table .

How to print: table aligns columns for reading and is the default on a
terminal; tsv separates fields by tabs and is the default elsewhere;
json is one object for programs; csv is for databases and
spreadsheets, without totals: it has only rows, with --files only
counted files, or with --left-out only skipped entries; markdown is
for a page on GitHub; html is a page for a browser, with boxes for the
directories and files that have a thousandth of the lines or more;
tree draws those that have a hundredth as lines for a terminal; paths
prints the path of each counted file, relative to DIR, for other
programs, or with --left-out that of each skipped entry",
    "count by: What is printed
help: Sum rows by some of dir,lang,ext,text,eol,attr:NAME
brief: Sum rows by these columns
example: lc count --by ext .

Sum rows by some of dir, lang, ext, text, eol and attr:NAME, separated
by commas. dir is the directory of a file: . for DIR itself, or a
directory right under DIR with all below it; --depth goes deeper. With
several DIRs it begins with DIR as you typed it, and --depth counts
DIR's names too. lang is the language of the file: the value of its
attribute linguist-language, or else its language in the list that lc
languages prints. ext is the extension. text is the attribute text.
eol is how the lines end. attr:team is the state of the Git attribute
team; at most 16 attributes. Without --by, lc count sums by
ext,text,eol, and lc sum by those of them that every REPORT has",
    "count depth: What is printed
help: Depth of --by dir [default: 1], of --format tree [2]
brief: Cut the directories of rows, or of a tree, at this depth
example: lc count --by dir --depth 2 .

Cut the directories of --by dir after their first N names, 1 to 256; .
and .. are no names [default: 1]. A row with N names has all files
below that directory, and one with fewer names has the files right in
it. lc count and lc sum, which have --format tree, show N levels of it
below the top [default: 2]",
    "count sort: What is printed
help: Sort by files, lines, blank, bytes or name
brief: Sort rows and files, largest first, or by name
example: lc count --sort bytes .

Sort rows and the lines of --files: by files, lines, blank or bytes,
largest first, or by name. html and tree draw this number, so it
cannot be name. The default is lines in table, markdown, html and tree
and with --top, and else name",
    "count top: What is printed
help: Print only the first N rows and files
brief: Print only the first rows and files
example: lc count --top 10 .

Print only the first N rows and the first N lines of --files. A row
`others` has the sums of the rows that are cut off, except in csv.
Without --sort, those with the most lines are printed, and in lc diff
those whose lines changed most",
    "count share: What is printed
help: Show each row's share, in table and markdown
brief: Also print the share of each row in the total
example: lc count --share .

Show each row's share of the total in per cent: of the column of
--sort, or of lines. Only table, which is then the default, and
markdown have shares. table also has bars, which are shorter or
dropped where a row would be over 80 columns",
    "sum null: What is printed
help: Paths of --format paths end with NUL

The paths of --format paths end with NUL, as xargs -0 reads them.
Without --null, --format paths does not print a path with a line feed",
    "count fail-if-any: What is printed
help: Exit with status 4 if a file is counted
example: lc count --where 'lines>1000' --fail-if-any .

Exit with status 4 if a file is counted, as a check in CI does. With
--where only files that meet all conditions are counted. Paths that
could not be read do not change this status",
    "count threads: Limits
help: Number of threads, 1 to 16
example: lc count --threads 8 .",
    "count max-dirs: Limits
help: Limit of directories, 1 to 1048576
example: lc count --max-dirs 1000000 .

Limit of directories under each DIR, DIR included, 1 to 1048576. Past
it there is no table",
    "count DIR:
help: Directories to count; each may be a symbolic link",
    "sum REPORT:
help: Output of lc count --format json, or NAME=REPORT",
    "diff all: What is printed
help: Also print rows in which nothing changed",
    "diff files: What is printed
help: Also print a line for each file that differs

Also print a line for each file that was added, removed or changed.
A file that moved is removed and added. A file is changed if its
attribute text, its line ends, its numbers, or its value in a column
lang or attr:NAME of --by differs",
    "diff where: What is printed
help: Compare only files that meet CONDITION, such as change=added
brief: Compare only files that meet a condition

Compare only files that meet CONDITION: a column, an operator and
values, such as ext=.c,.h or eol!=lf or 'lines>1000', in quotes. The
columns are lang, ext, text, eol, attr:NAME, lines, blank and bytes;
the operators = and !=, and for numbers also <, <=, > and >=. May be
repeated; all must hold, on each side. Then change=added,changed
chooses files by what became of them: added, changed, removed or same.
For change and for numbers, reports must list files",
    "diff format: What is printed
help: tsv, table, json, csv or markdown
brief: How to print

How to print: table aligns columns for reading and is the default on a
terminal; tsv separates fields by tabs and is the default elsewhere;
json is one object for programs; csv is for databases and
spreadsheets, without totals: it has only rows, or with --files only
files; markdown is for a page on GitHub",
    "diff by: What is printed
help: Sum rows by dir,lang,ext,text,eol,attr:NAME [default: ext]
brief: Sum rows by these columns

Sum rows by some of dir, lang, ext, text, eol and attr:NAME, separated
by commas. The default is ext",
    "diff sort: What is printed
help: Sort by the change of a column, or by name
brief: Sort rows and files, largest change first, or by name

Sort rows and files: by files, lines, blank or bytes, with the
largest change first, whether up or down, or by name. The default is
lines in table and markdown, and else name",
    "diff fail-if-any: What is printed
help: Exit with status 4 if a row or a file differs

Exit with status 4 if a row or a file that --files lists differs, as a
check in CI does. Paths that could not be read do not change this
status",
    "diff OLD:
help: Directory or report to compare with; - is standard input",
    "diff NEW:
help: Directory or report to compare; - is standard input",
    "check explain: What is printed
help: Also print the rule that decides, and its line
brief: Also print the rule that decides

Also print the rule that decides: FILE with the number of its line,
and its pattern; - and - if no rule decides",
    "explain null: Input
help: Paths on standard input end with NUL
brief: Paths that are read end with NUL

The paths on standard input end with NUL, as git ls-files -z prints
them, so that a path may contain a line feed",
    "explain DIR:
help: Directory whose rules decide",
    "explain PATH:
help: Path relative to DIR; without any, lc reads them from standard input",
    "check FILE:
help: Ignore file, such as .gitignore",
];

/// What help, completions and suggestions show about an option or a positional argument.
#[derive(Clone, Copy)]
pub struct OptionTexts {
    /// The heading above the option in help. A positional argument has an empty heading.
    pub heading: &'static str,
    /// The line that `-h` shows.
    pub help: &'static str,
    /// The text that `--help` shows, without a full stop at its end.
    pub long_help: &'static str,
    /// The text that completions show next to the option. If this text is empty, completions show the text in the field `help`.
    pub brief: &'static str,
    /// The command that `lc count` suggests if the name of an unknown option is close to the name of this option.
    pub example: &'static str,
}

/// Returns the name of the first command in a set, of count, sum, diff, explain and check.
fn first_of(of: Commands) -> &'static str {
    match of {
        Commands { count: true, .. } => "count",
        Commands { sum: true, .. } => "sum",
        Commands { diff: true, .. } => "diff",
        Commands { explain: true, .. } => "explain",
        _ => "check",
    }
}

/// Returns what follows the colon in the first line of a text, if a command and the name of its argument come before the colon.
fn about<'t>(text: &'t str, command: &str, name: &str) -> Option<&'t str> {
    text.strip_prefix(command)?
        .strip_prefix(' ')?
        .strip_prefix(name)?
        .strip_prefix(':')
}

/// Returns the rest of the line after this label. If the label is not in the text, the result is empty.
fn line_of<'t>(lines: &'t str, label: &str) -> &'t str {
    let Some((_, rest)) = lines.split_once(label) else {
        return "";
    };
    match rest.split_once('\n') {
        Some((line, _)) => line,
        None => rest,
    }
}

impl OptionRow {
    /// Returns the texts about the argument. If there are none, all of them are empty.
    pub fn texts(&self) -> OptionTexts {
        let command = first_of(self.of);
        let mut found = "";
        for text in TEXTS {
            found = about(text, command, self.name).unwrap_or(found);
        }
        let (lines, long_help) = found.split_once("\n\n").unwrap_or((found, ""));
        let (heading, _) = lines.split_once('\n').unwrap_or((lines, ""));
        let help = line_of(lines, "\nhelp: ");
        OptionTexts {
            heading: heading.trim_start(),
            help,
            long_help: if long_help.is_empty() {
                help
            } else {
                long_help
            },
            brief: line_of(lines, "\nbrief: "),
            example: line_of(lines, "\nexample: "),
        }
    }
}
