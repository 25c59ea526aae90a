//! The set of bytes that a bracket matches.

ghost use Rattle.std.specs.Prelude.{◌≡◌};
ghost use Rattle.lc_glob.specs.{TokenLists.ranges_first, Tokens.{class, in_ranges, takes}, Views.set_model};

use crate::token::Token;

/// A set of bytes other than the slash: the bytes in some ranges or, if the set is negated, all others.
#[derive(Clone, Copy)]
pub(crate) struct ByteSet<'p> {
    pub(crate) negated: bool,
    /// The tokens after the token that opens the bracket. The ranges at their beginning are the bracket's.
    pub(crate) tokens: &'p [Token],
}

impl<'p> ByteSet<'p> {
    pub(crate) fn new(negated: bool, tokens: &'p [Token]) -> Self
        ensures { set_model result ≡ class negated (ranges_first tokens.now) }
    {
        ByteSet { negated, tokens }
    }

    pub(crate) fn takes(self, b: u8) -> bool
        ensures { result ≡ takes (set_model self.entry) b }
    {
        b != b'/' && self.negated != self.has(b)
    }

    /// Returns whether the byte is in one of the bracket's ranges.
    fn has(self, b: u8) -> bool
        ensures { result ≡ in_ranges (ranges_first self.entry.tokens.now) b }
    {
        let mut rest = self.tokens;
        'tokens: while let Some((Token::Range(first, last), others)) = rest.split_first() {
            if *first <= b && b <= *last {
                return true;
            }
            rest = others;
        }
        false
    }
}
