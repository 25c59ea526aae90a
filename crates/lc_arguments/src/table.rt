//! The options of the table that a command prints, such as `--format`, `--by` and `--sort`.

ghost use Rattle.std.specs.Prelude.{◌≡◌, ◌≢◌, [], true, false, MatchOption, option_map};
ghost use Rattle.lc_glob.specs.Pieces.{pieces_left, pieces_of};
ghost use Rattle.clap.specs.Matches.{found_of};
ghost use Rattle.clap.specs.Walk.{rows_of};
ghost use Rattle.lc_sheet.specs.declared.table_options.Columns.{Columns as ColumnsModel};
ghost use Rattle.lc_sheet.specs.declared.table_options.Order.{Order as OrderModel};
ghost use Rattle.lc_sheet.specs.declared.table_options.Output.{Output as OutputModel};
ghost use Rattle.lc_sheet.specs.Keys.{key_name};
ghost use Rattle.lc_arguments.specs.Combinations.{draws_boxes, is_paths};
ghost use Rattle.lc_arguments.specs.Explained.{AnswersColumns, AnswersFormat, AnswersSort, AnswersTable, AnswersTableIn};
ghost use Rattle.lc_arguments.specs.TableWords.{IsColumnsText, IsKeyAfter, IsNoKeyAfter, is_fixed};
ghost use Rattle.lc_arguments.specs.TableWords.{is_key_name, max_columns, number_of};
ghost use Rattle.lc_arguments.specs.Texts.{comma};
ghost use Rattle.lc_arguments.specs.TableWords.{columns_in, lists_files, names_tree, options_in, order_in, order_word, output_in};
ghost use Rattle.lc_arguments.specs.TableWords.{output_word};

use crate::attributes::{is_named, names_column};
use crate::limits::{MAX_DEPTH, MAX_TOP};
use crate::numbers::number_of;
use crate::request::{ParseExit, refused, unfit};
use clap::ArgMatches;
use lc_glob::cut_at_first;
use lc_sheet::{Columns, Format, KEYS, Key, Number, Order, Output, TableOptions};
use std::alloc::Global;

/// The greatest number of attributes that rows may be grouped by.
const MAX_ATTRIBUTES: u8 = 16;

/// Why `--depth` is refused without `--by dir` and without `--format tree`.
const UNDIRECTED: &str =
    "'--depth <N>' needs '--by dir', or in lc count and lc sum '--format tree'";

/// The table that a command prints, as in `--format table --by ext --sort lines`.
#[derive(Clone, Copy)]
pub struct TableRequest {
    /// What `--format` names, if the option is used. Without `--format`, `--share` selects the format `Table`.
    pub format: Option<Output>,
    /// The columns that `--by` names, if the option is used.
    pub by: Option<Columns>,
    /// The order of rows and files, if one is named.
    pub sort: Option<Order>,
    /// The greatest number of rows, and of files, if a limit is named.
    pub top: Option<u32>,
    /// List each counted file, or in a comparison each file that differs.
    pub files: bool,
    /// Show each row's share of the total.
    pub share: bool,
    /// The number of levels of directories in a tree: the value of `--depth`, or 2.
    pub levels: u32,
}

impl TableRequest {
    /// Returns what `--format` names. Without `--format`, it is a text in the format `Table` if shares are shown, and otherwise in `other`.
    pub fn output(self, other: Format) -> Output
        ensures { result ≡ output_in other self }
    {
        let default = if self.share { Format::Table } else { other };
        self.format.unwrap_or(Output::Text(default))
    }

    /// Returns whether `--format` names a picture or a tree, which draw boxes of directories and files.
    pub fn draws_boxes(self) -> bool
        ensures { result ≡ draws_boxes self.format }
    {
        matches!(self.format, Some(Output::Picture | Output::Tree))
    }

    /// Returns whether `--format` names paths.
    pub fn is_paths(self) -> bool
        ensures { result ≡ is_paths self.format }
    {
        matches!(self.format, Some(Output::Paths))
    }

    /// Returns whether files are listed: `--files` is used, or the format is that of paths.
    pub fn lists_files(self) -> bool
        ensures { result ≡ lists_files self }
    {
        self.files || self.is_paths()
    }

    /// Returns the number by which the rows and files of an output are sorted, or `None` if they are sorted by name. If `--sort` names no
    /// order, they are sorted by lines if the table shows only the first rows or is human-readable, and otherwise by name.
    fn number_in(self, output: Output) -> Option<Number>
        ensures { result ≡ number_of (order_in output self) }
    {
        match self.sort {
            Some(Order::Name) => None,
            Some(Order::Largest(number)) => Some(number),
            None if self.top.is_some() || output.is_for_reading() => Some(Number::Lines),
            None => None,
        }
    }

    /// Returns the columns of an output: those of the request, or `columns` if it names none. A tree has the directories of its levels.
    fn columns_in(self, output: Output, columns: Columns) -> Columns
        ensures { result ≡ columns_in output columns self }
    {
        match output {
            Output::Tree => Columns {
                dir: Some(self.levels),
                ..Columns::NONE
            },
            _ => self.by.unwrap_or(columns),
        }
    }

    /// Returns the options of the table. If the request names no format, the format is `Table` if shares are shown, and `other` if not. If
    /// the request names no columns, the columns are `columns`; a tree is grouped by directories. If the request names no order, rows and
    /// files are sorted by lines if `--top` is used or the format is `Table` or `Markdown`, and otherwise by name.
    pub fn options(self, other: Format, columns: Columns) -> TableOptions
        ensures { result ≡ options_in other columns self }
    {
        let output = self.output(other);
        TableOptions {
            output,
            by: self.columns_in(output, columns),
            sort: self.number_in(output),
            top: self.top,
            files: self.lists_files(),
            share: self.share,
        }
    }
}

/// Returns the output that a value of `--format` names.
fn output_named(name: &str) -> Option<Output>
    ensures { MatchOption result ((o : OutputModel) → output_word o ≢ name.entry.now) (λ o. output_word o ≡ name.entry.now) }
{
    match name {
        "tsv" => Some(Output::Text(Format::Tsv)),
        "table" => Some(Output::Text(Format::Table)),
        "json" => Some(Output::Text(Format::Json)),
        "csv" => Some(Output::Text(Format::Csv)),
        "markdown" => Some(Output::Text(Format::Markdown)),
        "html" => Some(Output::Picture),
        "tree" => Some(Output::Tree),
        "paths" => Some(Output::Paths),
        _ => None,
    }
}

/// Returns the order that a value of `--sort` names.
fn order_named(name: &str) -> Option<Order>
    ensures { MatchOption result ((o : OrderModel) → order_word o ≢ name.entry.now) (λ o. order_word o ≡ name.entry.now) }
{
    match name {
        "name" => Some(Order::Name),
        "files" => Some(Order::Largest(Number::Files)),
        "lines" => Some(Order::Largest(Number::Lines)),
        "blank" => Some(Order::Largest(Number::Blank)),
        "bytes" => Some(Order::Largest(Number::Bytes)),
        _ => None,
    }
}

/// Returns the key that has this name.
fn key_named(name: &[u8]) -> Option<Key>
    ensures { MatchOption result (is_key_name name.now ≡ false)
        (λ key. (key_name [] key ≡ name.now) × (is_fixed key ≡ true)) }
{
    for key in &KEYS {
        if key.name(&[]).as_bytes() == name {
            return Some(*key);
        }
    }
    None
}

/// Returns how many columns of attributes and of languages these names may have: `lang` is one besides the attributes.
fn max_columns(names: &str) -> u8
    ensures { result ≡ max_columns (pieces_of comma names.now) }
{
    if is_named(b"lang", Some(names.as_bytes())) {
        MAX_ATTRIBUTES + 1
    } else {
        MAX_ATTRIBUTES
    }
}

/// Returns the key of the next column that a name names, if these columns lack the key. The `others` are the names that follow, separated
/// by commas: an attribute may not be among them, nor `lang` twice. There may be at most `most` attributes, with `lang`.
fn key_added(columns: Columns, name: &[u8], others: Option<&[u8]>, most: u8) -> Option<Key>
    ensures { MatchOption result (IsNoKeyAfter most columns name.now (pieces_left comma others.entry))
        (IsKeyAfter most columns name.now (pieces_left comma others.entry)) }
{
    if names_column(name) {
        return if columns.attributes >= most || is_named(name, others) {
            None
        } else {
            Some(Key::Attribute(columns.attributes))
        };
    }
    let key = key_named(name)?;
    if columns.has(key) { None } else { Some(key) }
}

/// Reads the names of columns, separated by commas, each at most once. Directories are cut after `depth` names.
fn columns_named(names: &str, depth: u32) -> Option<Columns>
    ensures { MatchOption result ((c : ColumnsModel) → ¬ IsColumnsText names.entry.now depth c)
        (λ c. IsColumnsText names.entry.now depth c) }
{
    let most = max_columns(names);
    let mut columns = Columns::NONE;
    let mut left = Some(names.as_bytes());
    'names: while let Some(rest) = left {
        let (name, others) = cut_at_first(b',', rest);
        let Some(key) = key_added(columns, name, others, most) else {
            return None;
        };
        columns = columns.with(key, depth);
        left = others;
    }
    Some(columns)
}

/// Reads the value of `--format`.
fn format_of(alloc: Global, name: Option<&str>) -> Result<Option<Output>, ParseExit>
    ensures { AnswersFormat (option_map (λ s. s.now) name.entry) result }
{
    let Some(name) = name else {
        return Ok(None);
    };
    match output_named(name) {
        None => Err(refused(alloc, "format", name, "")),
        format => Ok(format),
    }
}

/// Returns whether a value of `--format` names a tree.
fn names_tree(format: Option<&str>) -> bool
    ensures { result ≡ names_tree (option_map (λ s. s.now) format.entry) }
{
    match format {
        None => false,
        Some(word) => word == "tree",
    }
}

/// Reads the values of `--by` and `--depth`. Without `--by`, only the levels of a tree have a depth.
fn columns_of(
    alloc: Global,
    is_tree: bool,
    names: Option<&str>,
    depth: Option<u32>,
) -> Result<Option<Columns>, ParseExit>
    ensures { AnswersColumns is_tree (option_map (λ s. s.now) names.entry) depth result }
{
    let Some(names) = names else {
        return match depth {
            Some(_) if !is_tree => Err(unfit(alloc, UNDIRECTED)),
            _ => Ok(None),
        };
    };
    let Some(columns) = columns_named(names, depth.unwrap_or(1)) else {
        return Err(refused(
            alloc,
            "by",
            names,
            ": choose from dir, lang, ext, text, eol and attr:NAME, each once, separated by commas; at most 16 attributes",
        ));
    };
    if depth.is_some() && columns.dir.is_none() {
        return Err(unfit(alloc, UNDIRECTED));
    }
    Ok(Some(columns))
}

/// Reads the value of `--sort`.
fn sort_of(alloc: Global, name: Option<&str>) -> Result<Option<Order>, ParseExit>
    ensures { AnswersSort (option_map (λ s. s.now) name.entry) result }
{
    let Some(name) = name else {
        return Ok(None);
    };
    match order_named(name) {
        None => Err(refused(alloc, "sort", name, "")),
        sort => Ok(sort),
    }
}

/// Reads the values of `--format`, `--by`, `--depth` and `--sort`. The request has no other options.
fn table_of(
    alloc: Global,
    format: Option<&str>,
    by: Option<&str>,
    depth: Option<u32>,
    sort: Option<&str>,
) -> Result<TableRequest, ParseExit>
    ensures { AnswersTable (option_map (λ s. s.now) format.entry) (option_map (λ s. s.now) by.entry) depth
        (option_map (λ s. s.now) sort.entry) result }
{
    let is_tree = names_tree(format);
    let format = match format_of(alloc, format) {
        Ok(format) => format,
        Err(no) => return Err(no),
    };
    let by = match columns_of(alloc, is_tree, by, depth) {
        Ok(by) => by,
        Err(no) => return Err(no),
    };
    let sort = match sort_of(alloc, sort) {
        Ok(sort) => sort,
        Err(no) => return Err(no),
    };
    Ok(TableRequest {
        format,
        by,
        sort,
        top: None,
        files: false,
        share: false,
        levels: depth.unwrap_or(2),
    })
}

/// Reads the options of the table from clap's values.
pub(crate) fn table_in(alloc: Global, matches: &ArgMatches<'_>) -> Result<TableRequest, ParseExit>
    ensures { AnswersTableIn (rows_of (found_of matches.now)) result }
{
    let depth = match number_of(alloc, matches, "depth", MAX_DEPTH) {
        Ok(depth) => depth,
        Err(no) => return Err(no),
    };
    let top = match number_of(alloc, matches, "top", MAX_TOP) {
        Ok(top) => top,
        Err(no) => return Err(no),
    };
    let format = matches.get_str("format");
    let by = matches.get_str("by");
    let sort = matches.get_str("sort");
    match table_of(alloc, format, by, depth, sort) {
        Ok(table) => Ok(TableRequest {
            top,
            files: matches.get_flag("files"),
            share: matches.get_flag("share"),
            ..table
        }),
        Err(no) => Err(no),
    }
}
