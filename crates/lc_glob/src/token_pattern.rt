//! Patterns that are not simple: a byte is quoted or opens a bracket. These patterns are stored and matched as tokens.

ghost use Rattle.std.specs.Prelude.{◌≡◌, ◌≤◌, ◌+◌, ◌↔◌, IsTrue};
ghost use Rattle.lc_glob.specs.{Costs.match_cost, Matches.Matches, Views.token_pattern_model};

use crate::candidate::Candidate;
use crate::end_look::agrees_at_end;
use crate::match_path::matches_path;
use crate::match_segment::fits_elements;
use crate::path_segment::ByteTests;
use crate::pattern_view::{KindRef, PatternView};
use crate::scope::Scope;
use crate::segment_ref::{SegmentsRef, TokensRef};
use crate::segments_left::SegmentsLeft;
use crate::token::Token;

/// A pattern that isn't simple, such as `[ab]*`: its scope, and its tokens without the separators at its ends.
#[derive(Clone, Copy)]
pub(crate) struct TokenPattern<'p> {
    pub(crate) scope: Scope,
    pub(crate) tokens: &'p [Token],
}

impl<'p> TokenPattern<'p> {
    pub(crate) fn view(self) -> PatternView<'p>
        ensures { result ≡ token_pattern_model self.entry.scope self.entry.tokens.now }
    {
        let kind = if self.scope.is_anchored {
            KindRef::WholePath(SegmentsRef::Tokens(SegmentsLeft::of(self.tokens)))
        } else {
            KindRef::LastSegment(TokensRef::Tokens(self.tokens))
        };
        PatternView {
            is_dir_only: self.scope.is_dir_only,
            kind,
        }
    }

    /// Returns whether the pattern matches the path. It is not inlined, so that the code that matches a simple pattern stays short.
    #[inline(never)]
    pub(crate) fn matched(self, path: &Candidate, is_dir: bool, tests: &mut ByteTests) -> bool
        ensures meaning { IsTrue result ↔ Matches (token_pattern_model self.entry.scope self.entry.tokens.now) path.now is_dir }
        ensures cost { tests.new.made ≤ tests.old.made + match_cost (token_pattern_model self.entry.scope self.entry.tokens.now) path.now }
    {
        if self.scope.is_dir_only && !is_dir {
            return false;
        }
        if self.scope.is_anchored {
            agrees_at_end(self.tokens, path.whole(), path.last, tests)
                && matches_path(
                    SegmentsRef::Tokens(SegmentsLeft::of(self.tokens)),
                    path,
                    tests,
                )
        } else {
            fits_elements(self.tokens, path.last, tests)
        }
    }
}
