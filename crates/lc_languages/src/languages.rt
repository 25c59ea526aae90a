//! A list of languages, in which names are looked up.

ghost use Rattle.std.specs.Prelude.{◌≡◌, map, option_map, IfOk, MatchOption, OnOk};
ghost use Rattle.lc_languages.specs.Languages.{Adds, ending, ends_of, entries_of, entry_of, first_listed, language_of};
ghost use Rattle.lc_languages.specs.Languages.{listed, pattern_of, whole};

use lc_glob::cut_at_first;
use std::alloc::{AllocError, Global};
use std::collections::BTreeMap;
use std::marker::Model;

/// The languages of a list of lines `NAME linguist-language=LANGUAGE` and `*END linguist-language=LANGUAGE`. Of two lines with the same
/// name or the same end the later one counts, as in an attribute file: gitattributes(5), DESCRIPTION.
///
/// ```
/// let languages = Languages::new(alloc, b"*.ts linguist-language=TypeScript\n")?;
/// assert!(rt; languages.language_of(b"app.d.ts") == Some(b"TypeScript".as_slice()));
/// ```
#[derive(Drop)]
pub struct Languages<'l> {
    list: &'l [u8],
    // The language of each whole name of the list, and of each end.
    names: BTreeMap<&'l [u8], &'l [u8]>,
    ends: BTreeMap<&'l [u8], &'l [u8]>,
}

impl<'l> Model for Languages<'l> {
    ghost use Rattle.std.specs.Prelude.{ℕ, List};
    ghost use Rattle.lc_languages.specs.Languages.{HaveListed, entries_of};

    ghost Value = { List ℕ };

    ghost view = { λ l. l.list.now };

    ghost invariant = { λ l. HaveListed (entries_of l.list.now) l.names l.ends };
}

impl<'l> Languages<'l> {
    /// Reads a list.
    pub fn new(alloc: Global, list: &'l [u8]) -> Result<Languages<'l>, AllocError>
        ensures { IfOk result (λ languages. languages ≡ list.now) }
    {
        let mut names = BTreeMap::new(alloc);
        let mut ends = BTreeMap::new(alloc);
        let mut left = Some(list);
        'lines: while let Some(rest) = left {
            let (line, more) = cut_at_first(b'\n', rest);
            insert_line(&mut names, &mut ends, line)?;
            left = more;
        }
        Ok(Languages { list, names, ends })
    }

    /// Returns the language of a name, if the list has one for it: that of the whole name, or else of its longest end that begins with a
    /// dot and is listed.
    pub fn language_of(&self, name: &[u8]) -> Option<&'l [u8]>
        ensures { option_map (λ language. language.now) result ≡ language_of self.now name.now }
    {
        match self.names.get(name) {
            Some(language) => Some(*language),
            None => self.language_of_end(name),
        }
    }

    fn listed_end(&self, end: &[u8]) -> Option<&'l [u8]>
        ensures { option_map (λ language. language.now) result ≡ listed (entries_of self.now) (ending end.now) }
    {
        self.ends.get(end).copied()
    }

    /// Returns the language of the longest end of a name that is listed.
    fn language_of_end(&self, name: &[u8]) -> Option<&'l [u8]>
        ensures { option_map (λ language. language.now) result ≡ first_listed (entries_of self.now) (map ending (ends_of name.now)) }
    {
        let mut end = name;
        'ends: while let Some((byte, others)) = end.split_first() {
            if *byte == b'.' {
                if let Some(language) = self.listed_end(end) {
                    return Some(language);
                }
            }
            end = others;
        }
        None
    }
}

/// Returns the end that a pattern matches, if the pattern begins with an asterisk.
fn end_of(pattern: &[u8]) -> Option<&[u8]>
    ensures { MatchOption result (pattern_of pattern.now ≡ whole pattern.now) (λ end. pattern_of pattern.now ≡ ending end.now) }
{
    match pattern {
        [b'*', end @ ..] => Some(end),
        _ => None,
    }
}

/// Reads a line, and keeps its language for its name or end.
fn insert_line<'l>(
    names: &mut BTreeMap<&'l [u8], &'l [u8]>,
    ends: &mut BTreeMap<&'l [u8], &'l [u8]>,
    line: &'l [u8],
) -> Result<(), AllocError>
    ensures names { OnOk result (Adds whole (entry_of line.now) names.old names.new) }
    ensures ends { OnOk result (Adds ending (entry_of line.now) ends.old ends.new) }
{
    let (pattern, _) = cut_at_first(b' ', line);
    let (_, language) = cut_at_first(b'=', line);
    let language = language.unwrap_or(&[]);
    match end_of(pattern) {
        Some(end) => ends.insert(end, language)?,
        None => names.insert(pattern, language)?,
    };
    Ok(())
}
