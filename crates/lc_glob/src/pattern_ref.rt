//! A borrowed pattern, and matching it.

ghost use Rattle.std.specs.Prelude.{◌≡◌, ◌↔◌, ◌≤◌, ◌+◌, IsTrue, length};
ghost use Rattle.lc_glob.specs.{Above.{names_of, TellMatches, has_nested_wildcards}, Costs.{full_cost, match_cost}, IsMatch.is_match};
ghost use Rattle.lc_glob.specs.{Matches.Matches, Views.pattern_ref_model};

use crate::candidate::Candidate;
use crate::path_segment::{ByteTests, PathNames};
use crate::pattern_view::PatternView;
use crate::simple_pattern::SimplePattern;
use crate::token_pattern::TokenPattern;

/// A pattern that is borrowed from a `Pattern` or a `PatternSet`, in the form in which it is stored.
#[derive(Clone, Copy)]
pub(crate) enum PatternRef<'p> {
    Simple(SimplePattern<'p>),
    Tokens(TokenPattern<'p>),
}

impl<'p> PatternRef<'p> {
    fn view(self) -> PatternView<'p>
        ensures { result ≡ pattern_ref_model self.entry }
    {
        match self {
            PatternRef::Simple(pattern) => pattern.view(),
            PatternRef::Tokens(pattern) => pattern.view(),
        }
    }

    pub(crate) fn is_dead(self) -> bool
        ensures { result ≡ (pattern_ref_model self.entry).is_dead }
    {
        self.view().is_dead()
    }

    pub(crate) fn is_dir_only(self) -> bool
        ensures { result ≡ (pattern_ref_model self.entry).is_dir_only }
    {
        self.view().is_dir_only
    }

    pub(crate) fn is_anchored(self) -> bool
        ensures { result ≡ (pattern_ref_model self.entry).is_anchored }
    {
        self.view().is_anchored()
    }

    pub(crate) fn has_nested_wildcards(self) -> bool
        ensures { result ≡ has_nested_wildcards (pattern_ref_model self.entry) }
    {
        self.view().has_nested_wildcards()
    }

    #[inline]
    pub(crate) fn matches_candidate(self, path: &Candidate, is_dir: bool) -> bool
        ensures meaning { IsTrue result ↔ Matches (pattern_ref_model self.entry) path.now is_dir }
        ensures computed { result ≡ is_match (pattern_ref_model self.entry) path.now is_dir }
    {
        self.matched(path, is_dir, &mut ByteTests::none())
    }

    /// Like `matches_candidate`, but also counts byte tests.
    #[inline]
    pub(crate) fn matched(self, path: &Candidate, is_dir: bool, tests: &mut ByteTests) -> bool
        ensures meaning { IsTrue result ↔ Matches (pattern_ref_model self.entry) path.now is_dir }
        ensures cost { tests.new.made ≤ tests.old.made + match_cost (pattern_ref_model self.entry) path.now }
    {
        match self {
            PatternRef::Simple(pattern) => pattern.matched(path, is_dir, tests),
            PatternRef::Tokens(pattern) => pattern.matched(path, is_dir, tests),
        }
    }

    pub(crate) fn match_directories(self, names: PathNames, flags: &mut [bool])
        requires { length names.names.now ≡ length flags.old }
        ensures len { length flags.new ≡ length flags.old }
        ensures told { TellMatches (pattern_ref_model self.entry) (names_of names.entry.names.now) flags.new }
    {
        self.flag_directories(names, flags, &mut ByteTests::none());
    }

    /// Like `match_directories`, but also counts byte tests.
    pub(crate) fn flag_directories(
        self,
        names: PathNames,
        flags: &mut [bool],
        tests: &mut ByteTests,
    )
        requires { length names.names.now ≡ length flags.old }
        ensures len { length flags.new ≡ length flags.old }
        ensures told { TellMatches (pattern_ref_model self.entry) (names_of names.entry.names.now) flags.new }
        ensures cost { tests.new.made
            ≤ tests.old.made + full_cost (pattern_ref_model self.entry).segments (names_of names.entry.names.now) }
    {
        self.view().flag_directories(names, flags, tests);
    }
}
