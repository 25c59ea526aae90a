//! Patterns, and matching them with paths.

ghost use Rattle.std.specs.Prelude.{◌≡◌, ◌↔◌, ◌≤◌, ◌+◌, ◌*◌, IsTrue, length, List, ℕ, IfOk};
ghost use Rattle.lc_glob.specs.{Above.{names_of, TellMatches, has_nested_wildcards}, IsMatch.{is_match, IsMatchDecides}, Matches.Matches};
ghost use Rattle.lc_glob.specs.{Path.segments_of, Reading.pattern_of, Views.pattern_ref_model};

use crate::candidate::Candidate;
use crate::path_segment::{ByteTests, PathNames};
use crate::pattern_ref::PatternRef;
use crate::reading::read_pattern;
use crate::scope::Scope;
use crate::simple_pattern::{SimpleForm, SimplePattern};
use crate::token::Token;
use crate::token_pattern::TokenPattern;
use smallvec::SmallVec;
use std::alloc::{AllocError, Global};
use std::marker::Model;

/// A pattern of an ignore file or an attribute file: gitignore(5), PATTERN FORMAT.
///
/// ```
/// let pattern = Pattern::read(alloc, b"/build/**/*.o")?;
/// assert!(rt; pattern.matches(b"build/x86/main.o", false));
/// assert!(rt; !pattern.matches(b"src/build/main.o", false));
/// ```
#[derive(Drop)]
pub struct Pattern {
    pub(crate) kind: PatternKind,
}

/// The form in which a pattern is stored: bytes if it is simple or dead, or if its one segment is literals, perhaps after a star.
/// Otherwise, tokens. A short simple pattern allocates nothing.
#[derive(Drop)]
pub(crate) enum PatternKind {
    Simple(SimpleForm, SmallVec<u8, 16>),
    Tokens(Scope, Vec<Token>),
}

impl Model for Pattern {
    ghost use Rattle.lc_glob.specs.Patterns.{PatternModel};

    ghost Value = { PatternModel };

    ghost use Rattle.lc_glob.specs.Views.{pattern_kind_model};

    ghost view = { λ p. pattern_kind_model p.kind };
}

impl Pattern {
    /// Reads bytes as a pattern. Any bytes make a pattern. Bytes that are no valid pattern make a dead pattern, which matches nothing.
    ///
    /// The bytes are the pattern alone, without the `!` and the trailing spaces that its line may have. The only error is a failed
    /// allocation.
    ///
    /// ```
    /// let pattern = Pattern::read(alloc, b"*.[oa]")?;
    /// ```
    pub fn read(alloc: Global, bytes: &[u8]) -> Result<Pattern, AllocError>
        ensures { IfOk result (λ pattern. pattern ≡ pattern_of bytes.now) }
    {
        read_pattern(alloc, bytes)
    }

    /// Returns whether the pattern is dead: it matches nothing, since its bytes are no valid pattern, such as `[a` and `a//b`.
    pub fn is_dead(&self) -> bool
        ensures { result ≡ self.now.is_dead }
    {
        self.as_ref().is_dead()
    }

    /// Returns whether the pattern matches directories only, such as `build/`. For a dead pattern the result is false.
    pub fn is_dir_only(&self) -> bool
        ensures { result ≡ self.now.is_dir_only }
    {
        self.as_ref().is_dir_only()
    }

    /// Returns whether the pattern is matched with a whole path, such as `/a` and `a/b`, and not with a path's last segment alone, such as
    /// `a`. For a dead pattern the result is false.
    pub fn is_anchored(&self) -> bool
        ensures { result ≡ self.now.is_anchored }
    {
        self.as_ref().is_anchored()
    }

    /// Returns whether the pattern matches the path.
    ///
    /// The path is relative to the directory of the pattern's file. It has single slashes between its segments, and no slash at its ends.
    /// `is_dir` is true for a directory. A pattern that matches a directory need not match the paths inside it.
    ///
    /// ```
    /// assert!(rt; Pattern::read(alloc, b"frotz/")?.matches(b"a/frotz", true));
    /// ```
    pub fn matches(&self, path: &[u8], is_dir: bool) -> bool
        ensures meaning { IsTrue result ↔ Matches self.now path.now is_dir }
        ensures computed { result ≡ is_match self.now path.now is_dir }
    {
        self.matches_candidate(&Candidate::new(path), is_dir)
    }

    /// Like `matches`, for a path that is matched with several patterns.
    ///
    /// ```
    /// let path = Candidate::new(b"src/main.o");
    /// assert!(rt; Pattern::read(alloc, b"*.o")?.matches_candidate(&path, false));
    /// ```
    pub fn matches_candidate(&self, path: &Candidate, is_dir: bool) -> bool
        ensures meaning { IsTrue result ↔ Matches self.now path.now is_dir }
        ensures computed { result ≡ is_match self.now path.now is_dir }
    {
        self.as_ref().matches_candidate(path, is_dir)
    }

    /// Like `matches`, but also counts byte tests: how many times a literal, a `?` or a bracket was compared with one byte of
    /// the path. The number stops at the greatest `u64`.
    ///
    /// ```
    /// let (found, tests) = Pattern::read(alloc, b"*.o")?.matches_counted(b"main.c", false);
    /// assert!(rt; !found && tests == 2);
    /// ```
    pub fn matches_counted(&self, path: &[u8], is_dir: bool) -> (bool, u64)
        ensures meaning { IsTrue result.0 ↔ Matches self.now path.now is_dir }
        ensures computed { result.0 ≡ is_match self.now path.now is_dir }
        ensures bound { (bytes : List ℕ) → self.now ≡ pattern_of bytes → result.1 ≤ (length bytes + 1) * (length path.now + 1) }
    {
        let mut tests = ByteTests::none();
        let found = self
            .as_ref()
            .matched(&Candidate::measured(path), is_dir, &mut tests);
        (found, tests.made())
    }

    /// Matches the pattern with several nested directories in one pass. `names` has their names from the top down. Sets `flags[k]` to
    /// whether the pattern matches the directory whose path has the names up to `names[k]`. Allocates nothing.
    ///
    /// ```
    /// let mut flags = [false; 3];
    /// Pattern::read(alloc, b"a/**/c")?.match_directories(&[b"a", b"b", b"c"], &mut flags);
    /// assert!(rt; flags == [false, false, true]);
    /// ```
    pub fn match_directories(&self, names: &[&[u8]], flags: &mut [bool])
        requires { length names.now ≡ length flags.old }
        ensures len { length flags.new ≡ length flags.old }
        ensures told { TellMatches self.now (names_of names.now) flags.new }
    {
        self.as_ref()
            .match_directories(PathNames::new(names), flags);
    }

    /// Like `match_directories`, but also counts byte tests. For all directories together, the number is at most `(p + 1) * (q + 1)`, if
    /// the pattern has `p` bytes and the path with all these names has `q` bytes.
    ///
    /// ```
    /// let mut flags = [false; 2];
    /// let tests = Pattern::read(alloc, b"**/b/**")?.match_directories_counted(&[b"b", b"c"], &mut flags);
    /// assert!(rt; flags == [false, true] && tests == 2);
    /// ```
    pub fn match_directories_counted(&self, names: &[&[u8]], flags: &mut [bool]) -> u64
        requires { length names.now ≡ length flags.old }
        ensures len { length flags.new ≡ length flags.old }
        ensures told { TellMatches self.now (names_of names.now) flags.new }
        ensures bound { (bytes path : List ℕ) → self.now ≡ pattern_of bytes → names_of names.now ≡ segments_of path
            → result ≤ (length bytes + 1) * (length path + 1) }
    {
        let mut tests = ByteTests::none();
        self.as_ref()
            .flag_directories(PathNames::new(names), flags, &mut tests);
        tests.made()
    }

    /// Returns whether a double star of the pattern comes after another double star or after a segment with a star, as in `**/a/**`.
    /// Matching such a pattern with one directory after another repeats work. `match_directories` instead matches the pattern with nested
    /// directories in one pass.
    pub fn has_nested_wildcards(&self) -> bool
        ensures { result ≡ has_nested_wildcards self.now }
    {
        self.as_ref().has_nested_wildcards()
    }

    pub(crate) fn as_ref<'p>(&'p self) -> PatternRef<'p>
        ensures { pattern_ref_model result ≡ self.now }
    {
        match &self.kind {
            PatternKind::Simple(form, bytes) => PatternRef::Simple(SimplePattern {
                form: *form,
                bytes,
            }),
            PatternKind::Tokens(scope, tokens) => PatternRef::Tokens(TokenPattern {
                scope: *scope,
                tokens,
            }),
        }
    }
}

/// The law that the two definitions of a match agree: the function `is_match` of the definitions gives true exactly if the relation
/// `Matches` holds. `is_match_decides` does nothing when it runs.
pub fn is_match_decides()
    ensures { IsMatchDecides }
{}
