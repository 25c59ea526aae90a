//! What a user requests, read from options as on a command line.

use crate::sketch::content;
use lc_level::{Filters, OnlyPaths, RuleText, read_rule_text};
use lc_rules::AttrFile;
use std::alloc::{AllocError, Global};
use std::sync::Arc;

/// A request for a walk, or for opening one directory, read from options as on a command line.
#[derive(Drop)]
pub struct Asked<'a> {
    pub files: bool,
    pub left_out: bool,
    pub max_dirs: u32,
    /// Whether each word of the request is a known option or a path of `--only`.
    pub is_known: bool,
    /// The contents of the files of `--exclude-from` and `--attributes-from`, or nothing if there is no file.
    exclude_from: Vec<u8>,
    attributes_from: Vec<u8>,
    /// The patterns of `--exclude`, each followed by a line feed. `include` has the patterns of `--include` in this form.
    exclude: Vec<u8>,
    include: Vec<u8>,
    no_ignore: bool,
    without: Vec<Vec<u8>>,
    only: Vec<&'a [u8]>,
    no_path: bool,
    asked: Vec<Vec<u8>>,
}

impl<'a> Asked<'a> {
    /// Reads a request from words. A word is an option of `lc count`, with `=` before its value, or a path of `--only`; `--asks=ATTR` asks
    /// for an attribute, and `--no-path` for no path, as an empty list does. The value of `--exclude-from` or `--attributes-from` is the
    /// contents of the file, written as in a sketch (see `tree`). If there is no `--max-dirs`, a walk may visit 100 directories.
    pub fn read(alloc: Global, words: &'a str) -> Result<Asked<'a>, AllocError> {
        let mut asked = Asked {
            files: false,
            left_out: false,
            max_dirs: 100,
            is_known: true,
            exclude_from: Vec::new(alloc),
            attributes_from: Vec::new(alloc),
            exclude: Vec::new(alloc),
            include: Vec::new(alloc),
            no_ignore: false,
            without: Vec::new(alloc),
            only: Vec::new(alloc),
            no_path: false,
            asked: Vec::new(alloc),
        };
        for word in words.split_ascii_whitespace() {
            asked.put(alloc, word)?;
        }
        Ok(asked)
    }

    fn put(&mut self, alloc: Global, word: &'a str) -> Result<(), AllocError> {
        let (option, value) = word.split_once('=').unwrap_or((word, ""));
        match option {
            "--files" => self.files = true,
            "--left-out" => self.left_out = true,
            "--max-dirs" => self.max_dirs = value.parse::<u32>().unwrap_or(0),
            "--without" => self.without.push(value.as_bytes().to_vec(alloc)?)?,
            "--exclude-from" => self.exclude_from = content(alloc, value)?,
            "--attributes-from" => self.attributes_from = content(alloc, value)?,
            "--asks" => self.asked.push(value.as_bytes().to_vec(alloc)?)?,
            "--exclude" => push_line(&mut self.exclude, value)?,
            "--include" => push_line(&mut self.include, value)?,
            "--no-ignore" => self.no_ignore = true,
            "--no-path" => self.no_path = true,
            _ if option.starts_with('-') => self.is_known = false,
            _ => self.only.push(word.as_bytes())?,
        }
        Ok(())
    }

    /// Returns the filters of the request.
    pub fn filters(&self, alloc: Global) -> Result<Filters<'_>, AllocError> {
        Ok(Filters {
            exclude_from: some_rules(alloc, &self.exclude_from)?,
            attributes_from: some_attributes(alloc, &self.attributes_from)?,
            exclude: some_rules(alloc, &self.exclude)?,
            include: some_rules(alloc, &self.include)?,
            no_ignore: self.no_ignore,
            without: self.without.clone()?,
            only: if self.only.is_empty() && !self.no_path {
                OnlyPaths::none(alloc)
            } else {
                OnlyPaths::new(alloc, &self.only)?
            },
            asked: self.asked.clone()?,
        })
    }
}

fn push_line(text: &mut Vec<u8>, line: &str) -> Result<(), AllocError> {
    text.extend_from_slice(line.as_bytes())?;
    text.extend_from_slice(b"\n")
}

/// Returns the attributes of a file, or none if the file is empty.
fn some_attributes(
    alloc: Global,
    lines: &[u8],
) -> Result<Option<Arc<AttrFile, Global>>, AllocError> {
    if lines.is_empty() {
        return Ok(None);
    }
    match AttrFile::read(alloc, lines, true) {
        Ok(file) => Ok(Some(Arc::new(alloc, file)?)),
        Err(_) => Err(AllocError),
    }
}

/// Returns the rules of a text, or none if the text is empty.
fn some_rules(alloc: Global, mut rules: &[u8]) -> Result<Option<RuleText>, AllocError> {
    if rules.is_empty() {
        return Ok(None);
    }
    match read_rule_text(alloc, &mut rules) {
        Ok(text) => Ok(Some(text)),
        Err(_) => Err(AllocError),
    }
}
