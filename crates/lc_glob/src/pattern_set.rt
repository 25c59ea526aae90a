//! Sets of many patterns in order, which are stored side by side.

ghost use Rattle.std.specs.{Prelude.{◌≡◌, ◌↔◌, ◌<◌, ◌≤◌, ◌++◌, ◌∷◌, [], length, IfOk, IfSome, IsTrue, OnErr, OnOk}, List.list_any};
ghost use Rattle.lc_glob.specs.{Above.{names_of, TellMatches, has_nested_wildcards}, PatternSets.{last_match_below, pattern_at}};
ghost use Rattle.lc_glob.specs.Views.{form_model, token_pattern_model, pattern_ref_model};

use crate::candidate::Candidate;
use crate::path_segment::PathNames;
use crate::pattern::Pattern;
use crate::pattern_ref::PatternRef;
use crate::scope::Scope;
use crate::simple_pattern::{SimpleForm, SimplePattern};
use crate::token::Token;
use crate::token_pattern::TokenPattern;
use std::alloc::{AllocError, Global};
use std::marker::Model;

/// What is stored of a pattern besides its bytes or tokens.
#[derive(Clone, Copy)]
pub(crate) enum PatternForm {
    Simple(SimpleForm),
    Tokens(Scope),
}

/// The form of one pattern of a set, and where the set has the pattern's bytes or tokens. It takes 12 bytes.
#[derive(Clone, Copy)]
pub(crate) struct PatternSpan {
    form: PatternForm,
    /// The index in the set's bytes, or in the set's tokens, at which the pattern begins.
    start: u32,
    /// The number of the pattern's bytes or tokens.
    len: u32,
}

const _: () = prove!(size_of::<PatternSpan>() == 12);

impl PatternSpan {
    fn new(form: PatternForm, start: usize, len: usize) -> Result<Self, AllocError>
        ensures { IfOk result (λ span. span ≡ record { form = form; start = start; len = len }) }
    {
        let start = to_u32(start)?;
        let len = to_u32(len)?;
        Ok(PatternSpan { form, start, len })
    }
}

/// Patterns in order, such as those of an ignore file's rules. A path is matched with all of them in one call.
///
/// A pattern takes 12 bytes in addition to its own bytes or tokens. The bytes of all patterns are stored side by side, and so are the
/// tokens.
///
/// ```
/// let mut set = PatternSet::new(alloc);
/// set.push(&Pattern::read(alloc, b"*.o")?)?;
/// set.push(&Pattern::read(alloc, b"/build/")?)?;
/// assert!(rt; set.last_match(&Candidate::new(b"build/main.o"), false, set.len()) == Some(0));
/// ```
#[derive(Drop)]
pub struct PatternSet {
    spans: Vec<PatternSpan>,
    bytes: Vec<u8>,
    tokens: Vec<Token>,
}

impl Model for PatternSet {
    ghost use Rattle.std.specs.{Prelude.{List, map, length}, List.All};
    ghost use Rattle.lc_glob.specs.{Patterns.PatternModel, PatternSpans.{pattern_in, IsSpanOf}};

    ghost Value = { List PatternModel };

    ghost view = { λ s. map (pattern_in s.bytes.items s.tokens.items) s.spans.items };

    ghost invariant = { λ s. All (IsSpanOf (length s.bytes.items) (length s.tokens.items)) s.spans.items };
}

impl PatternSet {
    /// Makes a set without patterns. It allocates nothing.
    pub fn new(alloc: Global) -> PatternSet
        ensures { result ≡ [] }
    {
        PatternSet {
            spans: Vec::new(alloc),
            bytes: Vec::new(alloc),
            tokens: Vec::new(alloc),
        }
    }

    /// Adds a copy of a pattern at the end. After an error the set is as it was before. An error means that an allocation failed, that the
    /// copy would begin at an index above `u32::MAX`, or that the copy has more than `u32::MAX` bytes or tokens.
    pub fn push(&mut self, pattern: &Pattern) -> Result<(), AllocError>
        ensures ok { OnOk result (self.new ≡ self.old ++ pattern.now ∷ []) }
        ensures err { OnErr result (self.new ≡ self.old) }
    {
        match pattern.as_ref() {
            PatternRef::Simple(pattern) => self.push_simple(pattern),
            PatternRef::Tokens(pattern) => self.push_tokens(pattern),
        }
    }

    fn push_simple(&mut self, pattern: SimplePattern) -> Result<(), AllocError>
        ensures ok { OnOk result (self.new ≡ self.old ++ form_model pattern.entry.form pattern.entry.bytes.now ∷ []) }
        ensures err { OnErr result (self.new ≡ self.old) }
    {
        let form = PatternForm::Simple(pattern.form);
        let span = PatternSpan::new(form, self.bytes.len(), pattern.bytes.len())?;
        self.spans.reserve(1)?;
        self.bytes.extend_from_slice(pattern.bytes)?;
        self.spans.push_reserved(span);
        Ok(())
    }

    fn push_tokens(&mut self, pattern: TokenPattern) -> Result<(), AllocError>
        ensures ok { OnOk result (self.new ≡ self.old ++ token_pattern_model pattern.entry.scope pattern.entry.tokens.now ∷ []) }
        ensures err { OnErr result (self.new ≡ self.old) }
    {
        let form = PatternForm::Tokens(pattern.scope);
        let span = PatternSpan::new(form, self.tokens.len(), pattern.tokens.len())?;
        self.spans.reserve(1)?;
        self.tokens.extend_from_slice(pattern.tokens)?;
        self.spans.push_reserved(span);
        Ok(())
    }

    /// Frees the memory that was reserved for more patterns.
    pub fn shrink_to_fit(&mut self)
        ensures { self.new ≡ self.old }
    {
        self.spans.shrink_to_fit();
        self.bytes.shrink_to_fit();
        self.tokens.shrink_to_fit();
    }

    /// Returns the number of patterns. Dead patterns, which match nothing, are counted too.
    pub fn len(&self) -> usize
        ensures { result ≡ length self.now }
    {
        self.spans.len()
    }

    /// Returns whether the set has no pattern.
    pub fn is_empty(&self) -> bool
        ensures { IsTrue result ↔ (self.now ≡ []) }
    {
        self.spans.is_empty()
    }

    #[inline]
    fn pattern<'s>(&'s self, index: usize) -> PatternRef<'s>
        requires { index < length self.now }
        ensures { pattern_ref_model result ≡ pattern_at self.now index }
    {
        let span = self.spans[index];
        let start = span.start as usize;
        let end = start + span.len as usize;
        match span.form {
            PatternForm::Simple(form) => PatternRef::Simple(SimplePattern {
                form,
                bytes: &self.bytes[start..end],
            }),
            PatternForm::Tokens(scope) => PatternRef::Tokens(TokenPattern {
                scope,
                tokens: &self.tokens[start..end],
            }),
        }
    }

    /// Returns the index of the last pattern that matches a path, among the patterns with an index less than `below`. `Pattern::matches`
    /// says when a pattern matches.
    ///
    /// ```
    /// let mut below = set.len();
    /// while let Some(index) = set.last_match(&path, false, below) {
    ///     // the pattern at `index` matches
    ///     below = index;
    /// }
    /// ```
    pub fn last_match(&self, path: &Candidate, is_dir: bool, below: usize) -> Option<usize>
        requires { below ≤ length self.now }
        ensures found { result ≡ last_match_below self.now path.now is_dir below }
        ensures within { IfSome result (λ index. index < below) }
    {
        let mut rest = below;
        'patterns: while rest > 0 {
            rest -= 1;
            if self.pattern(rest).matches_candidate(path, is_dir) {
                return Some(rest);
            }
        }
        None
    }

    /// Returns whether the pattern at an index matches directories only, such as `build/`. For a dead pattern the result is false.
    pub fn is_dir_only(&self, index: usize) -> bool
        requires { index < length self.now }
        ensures { result ≡ (pattern_at self.now index).is_dir_only }
    {
        self.pattern(index).is_dir_only()
    }

    /// Matches the pattern at an index with several nested directories in one pass, as `Pattern::match_directories` does.
    pub fn match_directories(&self, index: usize, names: &[&[u8]], flags: &mut [bool])
        requires within { index < length self.now }
        requires len { length names.now ≡ length flags.old }
        ensures len { length flags.new ≡ length flags.old }
        ensures told { TellMatches (pattern_at self.now index) (names_of names.now) flags.new }
    {
        self.pattern(index)
            .match_directories(PathNames::new(names), flags);
    }

    /// Returns whether some pattern has nested wildcards, as `Pattern::has_nested_wildcards` says.
    pub fn has_nested_wildcards(&self) -> bool
        ensures { result ≡ list_any has_nested_wildcards self.now }
    {
        let mut rest = self.len();
        'nested: while rest > 0 {
            rest -= 1;
            if self.pattern(rest).has_nested_wildcards() {
                return true;
            }
        }
        false
    }
}

/// Returns a number of bytes or tokens as a `u32`, or an error if the number is too great.
fn to_u32(count: usize) -> Result<u32, AllocError>
    ensures { IfOk result (λ number. number ≡ count) }
{
    match u32::try_from(count) {
        Ok(number) => Ok(number),
        Err(_) => Err(AllocError),
    }
}
