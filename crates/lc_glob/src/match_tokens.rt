//! Matching the tokens of a pattern's segment with a segment of a path, whether the pattern is stored as bytes or as tokens.
//!
//! First, the tokens after the last star are compared once with the last bytes of the segment, from the end. Second, the rest of the tokens
//! is matched from the front. If a token does not match there, the search goes back to the last star that it passed, but no further. A
//! shortest match of the tokens before a star leaves the most bytes for the rest of the tokens.

ghost use Rattle.std.specs.Prelude.{◌≡◌, ◌↔◌, ◌≤◌, ◌+◌, IsTrue, length};
ghost use Rattle.lc_glob.specs.Steps.{FitsAt, cost_at, cost_after, FrontStepIs, EndStepIs};

use crate::cursor::{Cursor, EndStep, FrontStep};
use crate::element::{Element, has_no_token};
use crate::path_segment::ByteTests;

impl<'p, 'n, E: Element> Cursor<'p, 'n, E> {
    /// Compares the last token with the last byte of the segment, by one byte test at most.
    fn step_end(self, tests: &mut ByteTests) -> EndStep<'p, 'n, E>
        ensures is { EndStepIs E.tokens_in result (E.tokens_in self.entry.tokens.now) self.entry.segment.bytes.now }
        ensures cost { tests.new.made + cost_after E.tokens_in result (cost_at E.tokens_in self.entry)
            ≤ tests.old.made + cost_at E.tokens_in self.entry }
    {
        let Some((token, tokens)) = E::split_last_token(self.tokens) else {
            return if self.segment.is_empty() {
                EndStep::Fitted
            } else {
                EndStep::Stuck
            };
        };
        if token.is_star() {
            return if has_no_token(tokens) {
                EndStep::Fitted
            } else {
                EndStep::Star
            };
        }
        match self.segment.strip_last(token, tests) {
            Some(segment) => EndStep::Taken(Cursor { tokens, segment }),
            None => EndStep::Stuck,
        }
    }

    /// Compares the first token with the first byte of the segment, by one byte test at most.
    fn step_front(self, tests: &mut ByteTests) -> FrontStep<'p, 'n, E>
        ensures is { FrontStepIs E.tokens_in result (E.tokens_in self.entry.tokens.now) self.entry.segment.bytes.now }
        ensures cost { tests.new.made ≤ tests.old.made + 1 }
        ensures free { length (E.tokens_in self.entry.tokens.now) ≡ 0 → tests.new.made ≡ tests.old.made }
    {
        let Some((token, tokens)) = E::split_first_token(self.tokens) else {
            return if self.segment.is_empty() {
                FrontStep::Fitted
            } else {
                FrontStep::Stuck
            };
        };
        if token.is_star() {
            return if has_no_token(tokens) {
                FrontStep::Fitted
            } else {
                FrontStep::Star(tokens)
            };
        }
        match self.segment.strip_first(token, tests) {
            Some(segment) => FrontStep::Taken(Cursor { tokens, segment }),
            None => FrontStep::Stuck,
        }
    }

    /// Returns whether the tokens fit the segment. It compares from the end.
    pub(crate) fn fits(self, tests: &mut ByteTests) -> bool
        ensures fits { IsTrue result ↔ FitsAt E.tokens_in self.entry }
        ensures cost { tests.new.made ≤ tests.old.made + cost_at E.tokens_in self.entry }
    {
        let mut here = self;
        'ends: loop {
            match here.step_end(tests) {
                EndStep::Star => return here.fits_from_front(tests),
                EndStep::Taken(before) => here = before,
                EndStep::Fitted => return true,
                EndStep::Stuck => return false,
            }
        }
    }

    /// Returns whether the tokens fit the segment. It compares from the front.
    #[inline(never)]
    fn fits_from_front(self, tests: &mut ByteTests) -> bool
        ensures fits { IsTrue result ↔ FitsAt E.tokens_in self.entry }
        ensures cost { tests.new.made ≤ tests.old.made + cost_at E.tokens_in self.entry }
    {
        let mut here = self;
        let mut star: Option<Cursor<E>> = None;
        'steps: loop {
            match here.step_front(tests) {
                FrontStep::Star(tokens) => {
                    here = Cursor {
                        tokens,
                        segment: here.segment,
                    };
                    star = Some(here);
                }
                FrontStep::Taken(after) => here = after,
                FrontStep::Fitted => return true,
                FrontStep::Stuck => {
                    let Some(back) = star else { return false };
                    let Some(next) = back.retry() else {
                        return false
                    };
                    here = next;
                    star = Some(next);
                }
            }
        }
    }
}
