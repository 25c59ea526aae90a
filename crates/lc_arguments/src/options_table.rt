//! The table of options: a row for each argument of the commands, in the order of help.
//!
//! An argument whose help or kind differs between commands has several rows. The texts about them are in `option_texts`.

ghost use Rattle.std.specs.Prelude.{◌≡◌, map};
ghost use Rattle.lc_arguments.specs.Options.{option_model, options};

use crate::limits::{MAX_DEPTH, MAX_DIRS, MAX_THREADS, MAX_TOP};
use crate::option_row::{
    CHECK, Completes, DIFF, EXPLAIN, FILTERS, FLAG, INPUT, Kind, OptionRow, PRINTED, SUM, TABLES,
    WALKS,
};

const ATTRIBUTES: Completes = Completes::Words(&[
    "linguist-vendored",
    "linguist-generated",
    "linguist-documentation",
]);

const FORMATS: Completes = Completes::Meanings(&[
    ("tsv", "Fields between tabs"),
    ("table", "Columns for reading"),
    ("json", "One object"),
    ("csv", "Records of one kind"),
    ("markdown", "Tables for a page"),
    ("html", "A picture for a browser"),
    ("tree", "Directories as a tree"),
    ("paths", "Paths for xargs"),
]);

const KEYS: Completes = Completes::List(&["dir", "lang", "ext", "text", "eol"]);

const DEPTHS: Completes = Completes::Words(&["1", "2", "3"]);

const ORDERS: Completes = Completes::Meanings(&[
    ("name", "By name"),
    ("files", "Most files first"),
    ("lines", "Most lines first"),
    ("blank", "Most blank lines first"),
    ("bytes", "Most bytes first"),
]);

const TOPS: Completes = Completes::Words(&["10", "20", "50"]);

const THREADS: Completes = Completes::Words(&["1", "2", "4", "8", "16"]);

const DIRS: Completes = Completes::Words(&["65536", "1048576"]);

const DIFF_FORMATS: Completes = Completes::Meanings(&[
    ("tsv", "Fields between tabs"),
    ("table", "Columns for reading"),
    ("json", "One object"),
    ("csv", "Records of one kind"),
    ("markdown", "Tables for a page"),
]);

const DIFF_ORDERS: Completes = Completes::Meanings(&[
    ("name", "By name"),
    ("files", "Largest change of files first"),
    ("lines", "Largest change of lines first"),
    ("blank", "Largest change of blank lines first"),
    ("bytes", "Largest change of bytes first"),
]);

// Each row is on one line, as long as it fits.
#[rattlefmt::skip]
const OPTIONS: &[OptionRow] = &[
    OptionRow { name: "exclude", value: "PATTERN", kind: Kind::Texts, of: FILTERS, ..FLAG },
    OptionRow { name: "exclude-from", value: "FILE", kind: Kind::Text, of: FILTERS, completes: Completes::Files, ..FLAG },
    OptionRow { name: "include", value: "PATTERN", kind: Kind::Texts, of: FILTERS, ..FLAG },
    OptionRow { name: "no-ignore", of: FILTERS, ..FLAG },
    OptionRow { name: "archive", of: FILTERS, ..FLAG },
    OptionRow { name: "without", value: "ATTR[=VALUE]", kind: Kind::Texts, of: FILTERS, completes: ATTRIBUTES, ..FLAG },
    OptionRow { name: "attributes-from", value: "FILE", kind: Kind::Text, of: FILTERS, completes: Completes::Files, ..FLAG },
    OptionRow { name: "only", value: "PATH", kind: Kind::Texts, of: WALKS, completes: Completes::Files, ..FLAG },
    OptionRow { name: "only-from", value: "FILE", kind: Kind::Text, of: WALKS, completes: Completes::Files, ..FLAG },
    OptionRow { name: "null", short: Some('0'), ..FLAG },
    OptionRow { name: "null", short: Some('0'), of: DIFF, ..FLAG },
    OptionRow { name: "one-file-system", short: Some('x'), of: WALKS, ..FLAG },
    OptionRow { name: "files", of: PRINTED, ..FLAG },
    OptionRow { name: "left-out", of: PRINTED, ..FLAG },
    OptionRow { name: "where", value: "CONDITION", kind: Kind::Texts, of: PRINTED, ..FLAG },
    OptionRow { name: "no-binary", of: TABLES, ..FLAG },
    OptionRow { name: "format", value: "FORMAT", kind: Kind::Text, of: PRINTED, completes: FORMATS, ..FLAG },
    OptionRow { name: "by", value: "COLUMNS", kind: Kind::Text, of: PRINTED, completes: KEYS, ..FLAG },
    OptionRow { name: "depth", value: "N", kind: Kind::Number(MAX_DEPTH), of: TABLES, completes: DEPTHS, ..FLAG },
    OptionRow { name: "sort", value: "COLUMN", kind: Kind::Text, of: PRINTED, completes: ORDERS, ..FLAG },
    OptionRow { name: "top", value: "N", kind: Kind::Number(MAX_TOP), of: TABLES, completes: TOPS, ..FLAG },
    OptionRow { name: "share", of: PRINTED, ..FLAG },
    OptionRow { name: "null", short: Some('0'), of: SUM, ..FLAG },
    OptionRow { name: "fail-if-any", of: PRINTED, ..FLAG },
    OptionRow { name: "threads", short: Some('j'), value: "N", kind: Kind::Range(MAX_THREADS), default: Some("4"), of: WALKS,
        completes: THREADS, ..FLAG },
    OptionRow { name: "max-dirs", value: "N", kind: Kind::Range(MAX_DIRS), default: Some("65536"), of: WALKS, completes: DIRS, ..FLAG },
    OptionRow { name: "DIR", kind: Kind::Words, default: Some("."), ..FLAG },
    OptionRow { name: "REPORT", kind: Kind::Words, default: Some("-"), of: SUM, ..FLAG },
    OptionRow { name: "all", of: DIFF, ..FLAG },
    OptionRow { name: "files", of: DIFF, ..FLAG },
    OptionRow { name: "where", value: "CONDITION", kind: Kind::Texts, of: DIFF, ..FLAG },
    OptionRow { name: "format", value: "FORMAT", kind: Kind::Text, of: DIFF, completes: DIFF_FORMATS, ..FLAG },
    OptionRow { name: "by", value: "COLUMNS", kind: Kind::Text, of: DIFF, completes: KEYS, ..FLAG },
    OptionRow { name: "sort", value: "COLUMN", kind: Kind::Text, of: DIFF, completes: DIFF_ORDERS, ..FLAG },
    OptionRow { name: "fail-if-any", of: DIFF, ..FLAG },
    OptionRow { name: "OLD", kind: Kind::Word, of: DIFF, ..FLAG },
    OptionRow { name: "NEW", kind: Kind::Word, of: DIFF, ..FLAG },
    OptionRow { name: "explain", of: CHECK, ..FLAG },
    OptionRow { name: "null", short: Some('0'), of: INPUT, ..FLAG },
    OptionRow { name: "DIR", kind: Kind::Word, of: EXPLAIN, ..FLAG },
    OptionRow { name: "PATH", kind: Kind::Words, of: EXPLAIN, ..FLAG },
    OptionRow { name: "FILE", kind: Kind::Word, of: CHECK, ..FLAG },
];

/// Returns the table of options: a row for each option or argument that a command accepts.
pub fn options() -> &'static [OptionRow]
    ensures { map option_model result.now ≡ options }
{
    OPTIONS
}
