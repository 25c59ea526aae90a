//! Options and words of other tools, such as `tokei`, `cloc`, `scc`, `rg`, `fd` and `wc`, and what they are called here.

use crate::option_row::Completes;
use crate::options_table::options;
use lc_text::{push_quoted, push_visible};
use std::alloc::{AllocError, Global};
use std::convert::AsStr;

/// How to show the version.
pub(crate) const VERSION: &str = "lc --version";

/// Words that name no command and no option, and a command that each may have meant.
const WORDS: &[(&str, &str)] = &[
    ("-v", VERSION),
    ("-V", VERSION),
    ("--version", VERSION),
    ("version", VERSION),
    ("--json", "lc count --format json ."),
    ("json", "lc count --format json ."),
    ("--csv", "lc count --format csv ."),
    ("csv", "lc count --format csv ."),
    ("--markdown", "lc count --format markdown ."),
    ("--md", "lc count --format markdown ."),
    ("markdown", "lc count --format markdown ."),
    ("--html", "lc count --format html ."),
    ("html", "lc count --format html ."),
    ("--tree", "lc count --format tree ."),
    ("tree", "lc count --format tree ."),
    ("--table", "lc count --format table ."),
    ("table", "lc count --format table ."),
    ("--tsv", "lc count --format tsv ."),
    ("tsv", "lc count --format tsv ."),
    ("--paths", "lc count --format paths ."),
    ("--files-with-matches", "lc count --format paths ."),
    ("ls", "lc count --format paths ."),
    ("--print0", "lc count --format paths -0 ."),
    ("-a", "lc count --no-ignore ."),
    ("-u", "lc count --no-ignore ."),
    ("--all", "lc count --no-ignore ."),
    ("--unrestricted", "lc count --no-ignore ."),
    ("--no-gitignore", "lc count --no-ignore ."),
    ("--no-vcs-ignore", "lc count --no-ignore ."),
    ("--no-ignore-vcs", "lc count --no-ignore ."),
    ("--xdev", "lc count --one-file-system ."),
    ("--same-file-system", "lc count --one-file-system ."),
    ("--dir", "lc count --by dir ."),
    ("--dirs", "lc count --by dir ."),
    ("--by-dir", "lc count --by dir ."),
    ("--by-ext", "lc count --by ext ."),
    ("--by-lang", "lc count --by lang ."),
    ("--lang", "lc count --by lang ."),
    ("--language", "lc count --by lang ."),
    ("--languages", "lc languages"),
    ("langs", "lc languages"),
    ("--text", "lc count --by ext,text ."),
    ("--by-file", "lc count --files ."),
    ("-f", "lc count --files ."),
    ("--skipped", "lc count --left-out ."),
    ("--ignored", "lc count --left-out ."),
    ("--why", "lc explain . README.md"),
    ("--percent", "lc count --share ."),
    ("--no-generated", "lc count --without linguist-generated ."),
    ("--no-gen", "lc count --without linguist-generated ."),
    ("--no-vendored", "lc count --without linguist-vendored ."),
    (
        "--exit-code",
        "lc count --where 'lines>1000' --fail-if-any .",
    ),
    ("--fail", "lc count --where 'lines>1000' --fail-if-any ."),
];

/// Options that ask for what the program does without an option, or never does, and a tip for each.
const NEEDLESS: &[(&str, &str)] = &[
    (
        "--hidden",
        "names that begin with a dot are counted without an option",
    ),
    ("--recursive", UNDER),
    ("-r", UNDER),
    ("-R", UNDER),
    ("--color", "nothing is printed in color"),
    ("--no-color", "nothing is printed in color"),
    ("--colour", "nothing is printed in color"),
    ("--no-colour", "nothing is printed in color"),
    ("--lines", COUNTED),
    ("--bytes", COUNTED),
    ("--size", COUNTED),
    ("-l", COUNTED),
    ("-c", COUNTED),
    ("--words", "words and characters are not counted"),
    ("--chars", "words and characters are not counted"),
    ("-w", "words and characters are not counted"),
    ("-m", "words and characters are not counted"),
    ("--follow", "symbolic links are always skipped"),
    ("-L", "symbolic links are always skipped"),
    ("--git", GIT),
    ("--vcs", GIT),
    ("--gitignore", GIT),
    ("--exclude-standard", GIT),
    ("--total", "the line total is printed without an option"),
    ("--summary", "the line total is printed without an option"),
];

const UNDER: &str = "all directories under DIR are counted without an option";

const COUNTED: &str = "files, lines and bytes are counted without an option";

const GIT: &str = "what .gitignore skips is skipped without an option";

/// Which values of an option of another tool fit an option of `lc`.
#[derive(Clone, Copy)]
enum Takes {
    /// An extension without its dot.
    Extension,
    /// An extension with its dot.
    DottedExtension,
    /// One of the words that complete the option of `lc`.
    Listed,
    /// A number from 1 to this one.
    Number(u32),
    /// Any word that is no option, and that a terminal shows unchanged.
    Word,
}

/// An option of another tool that takes a value, and how `lc` is told the same.
#[derive(Clone, Copy)]
struct ValueOption {
    /// The options of other tools.
    names: &'static [&'static str],
    /// What the value must be.
    takes: Takes,
    /// The option of `lc`, without the hyphens at its beginning.
    option: &'static str,
    /// What the value of the option of `lc` has before the value.
    front: &'static str,
    /// The command that is suggested if the value does not fit, or is missing.
    example: &'static str,
}

const EXTENSIONS: &[&str] = &[
    "-e",
    "--ext",
    "--extension",
    "-t",
    "--type",
    "--include-ext",
];

const VALUES: &[ValueOption] = &[
    ValueOption {
        names: EXTENSIONS,
        takes: Takes::Extension,
        option: "include",
        front: "*.",
        example: "lc count --include '*.c' .",
    },
    ValueOption {
        names: EXTENSIONS,
        takes: Takes::DottedExtension,
        option: "where",
        front: "ext=",
        example: "",
    },
    ValueOption {
        names: &["-T", "--type-not", "--exclude-ext"],
        takes: Takes::Extension,
        option: "where",
        front: "ext!=.",
        example: "lc count --where 'ext!=.c' .",
    },
    ValueOption {
        names: &["--include-lang"],
        takes: Takes::Word,
        option: "where",
        front: "lang=",
        example: "lc count --where lang=C .",
    },
    ValueOption {
        names: &["--exclude-lang"],
        takes: Takes::Word,
        option: "where",
        front: "lang!=",
        example: "lc count --where 'lang!=C' .",
    },
    ValueOption {
        names: &[
            "-E",
            "--exclude-dir",
            "--ignore-dir",
            "--not-match",
            "--not-match-d",
            "-M",
        ],
        takes: Takes::Word,
        option: "exclude",
        front: "",
        example: "lc count --exclude '*.min.js' .",
    },
    ValueOption {
        names: &["-g", "--glob", "--iglob", "--match-f"],
        takes: Takes::Word,
        option: "include",
        front: "",
        example: "lc count --include '*.c' .",
    },
    ValueOption {
        names: &["--ignore-file"],
        takes: Takes::Word,
        option: "exclude-from",
        front: "",
        example: "lc count .",
    },
    ValueOption {
        names: &["--list-file", "--files-from"],
        takes: Takes::Word,
        option: "only-from",
        front: "",
        example: "lc count .",
    },
    ValueOption {
        names: &["--files0-from"],
        takes: Takes::Word,
        option: "null --only-from",
        front: "",
        example: "lc count .",
    },
    ValueOption {
        names: &["-d", "--max-depth"],
        takes: Takes::Number(256),
        option: "by dir --depth",
        front: "",
        example: "lc count --by dir --depth 2 .",
    },
    ValueOption {
        names: &["-n", "--limit", "--head"],
        takes: Takes::Number(1000),
        option: "top",
        front: "",
        example: "lc count --top 10 .",
    },
    ValueOption {
        names: &["-p", "-t", "--jobs", "--processes"],
        takes: Takes::Number(16),
        option: "threads",
        front: "",
        example: "lc count --threads 8 .",
    },
    ValueOption {
        names: &["-f", "-o", "--output"],
        takes: Takes::Listed,
        option: "format",
        front: "",
        example: "lc count --format json . > report.json",
    },
    ValueOption {
        names: &["-s"],
        takes: Takes::Listed,
        option: "sort",
        front: "",
        example: "lc count --sort lines .",
    },
];

/// Returns the second part of the pair whose first part is this word.
fn second_of(pairs: &[(&str, &'static str)], word: &str) -> Option<&'static str> {
    for (first, second) in pairs {
        if *first == word {
            return Some(*second);
        }
    }
    None
}

/// Finds the command that a word may have meant.
pub(crate) fn word_meant(word: &str) -> Option<&'static str> {
    second_of(WORDS, word)
}

/// Returns a tip for an unknown option that asks for what the program does anyway, or never does.
pub(crate) fn needless(option: &str) -> Option<&'static str> {
    second_of(NEEDLESS, option)
}

/// Returns whether a word is one of those that complete an option of `lc count`.
fn is_listed(option: &str, word: &str) -> bool {
    for row in options() {
        if let Completes::Meanings(words) = row.completes {
            if row.name == option {
                return second_of(words, word).is_some();
            }
        }
    }
    false
}

/// Returns whether a word is an extension without its dot: letters and digits, of which the first is a letter.
fn is_extension(word: &str) -> bool {
    for byte in word.as_bytes() {
        if !byte.is_ascii_alphanumeric() {
            return false;
        }
    }
    matches!(word.as_bytes(), [first, ..] if first.is_ascii_alphabetic())
}

/// Returns whether a terminal shows an argument unchanged, so that it can be typed again.
pub(crate) fn is_shown_as_typed(alloc: Global, word: &str) -> Result<bool, AllocError> {
    let mut shown = String::new(alloc);
    push_visible(&mut shown, word.as_bytes())?;
    Ok(shown.as_str() == word)
}

impl ValueOption {
    /// Returns whether `lc` can have this value.
    fn fits(&self, alloc: Global, value: &str) -> Result<bool, AllocError> {
        match self.takes {
            Takes::Extension => Ok(is_extension(value)),
            Takes::DottedExtension => Ok(is_extension(value.strip_prefix(".").unwrap_or(""))),
            Takes::Listed => Ok(is_listed(self.option, value)),
            Takes::Number(most) => match value.parse::<u32>() {
                Ok(number) => Ok(number >= 1 && number <= most),
                Err(_) => Ok(false),
            },
            Takes::Word if matches!(value.as_bytes(), [] | [b'-', ..] | [b'!', ..]) => Ok(false),
            Takes::Word => is_shown_as_typed(alloc, value),
        }
    }
}

/// Finds the count that an option of another tool with this value may have meant.
fn value_meant(alloc: Global, option: &str, value: &str) -> Result<Option<String>, AllocError> {
    for row in VALUES {
        if row.names.contains(&option) && row.fits(alloc, value)? {
            let (name, front) = (row.option, row.front);
            let mut command = format!(in alloc; "lc count --{name} ")?;
            let word = format!(in alloc; "{front}{value}")?;
            push_quoted(&mut command, &word)?;
            command.push_str(" .")?;
            return Ok(Some(command));
        }
    }
    Ok(None)
}

/// Finds the count that an option of another tool and its value may have meant, such as `-e py`, `--ext .c` or `--exclude-dir=build`.
pub(crate) fn pair_meant<W: AsStr>(
    alloc: Global,
    words: &[W],
) -> Result<Option<String>, AllocError> {
    let mut left = words;
    'words: while let Some((first, others)) = left.split_first() {
        let next = match others {
            [next, ..] => next.as_str(),
            [] => "",
        };
        let (option, value) = first
            .as_str()
            .split_once('=')
            .unwrap_or((first.as_str(), next));
        if let Some(meant) = value_meant(alloc, option, value)? {
            return Ok(Some(meant));
        }
        left = others;
    }
    Ok(None)
}

/// Finds the example for an option of another tool whose value is missing or does not fit.
pub(crate) fn example_meant(option: &str) -> Option<&'static str> {
    for row in VALUES {
        if row.names.contains(&option) {
            return Some(row.example);
        }
    }
    None
}
