//! The tokens of a pattern: as they are stored, and as they are matched.

ghost use Rattle.std.specs.Prelude.{◌≡◌, ◌∷◌, MatchOption};
ghost use Rattle.lc_glob.specs.{TokenLists.{is_for_byte, is_separator, tokens_model}, Simple.byte_token, Tokens.{takes, is_star}};
ghost use Rattle.lc_glob.specs.Views.{token_ref_model};

use crate::byte_set::ByteSet;

/// A token of a pattern that isn't simple, as it is stored. It takes three bytes.
#[derive(Clone, Copy)]
pub(crate) enum Token {
    /// This byte.
    Literal(u8),
    /// `?`: one byte, but no slash.
    AnyByte,
    /// `*`: any bytes, but no slash.
    Star,
    /// The beginning of a bracket, and whether the bracket is negated. The ranges of its bytes follow as tokens.
    Open(bool),
    /// The first and the last byte of a bracket's range.
    Range(u8, u8),
    /// A slash between two segments.
    Separator,
}

const _: () = prove!(size_of::<Token>() == 3);

impl Token {
    pub(crate) fn is_separator(self) -> bool
        ensures { result ≡ is_separator self }
    {
        matches!(self, Token::Separator)
    }

    /// Returns whether the token matches one byte.
    pub(crate) fn is_for_byte(self) -> bool
        ensures { result ≡ is_for_byte self }
    {
        matches!(self, Token::Literal(_) | Token::AnyByte | Token::Open(_))
    }
}

/// A token, as it is matched. A bracket is the set of its bytes.
#[derive(Clone, Copy)]
pub(crate) enum TokenRef<'p> {
    Literal(u8),
    AnyByte,
    Star,
    Class(ByteSet<'p>),
}

impl<'p> TokenRef<'p> {
    /// Returns the token of a byte of a simple pattern.
    pub(crate) fn of_byte(b: u8) -> Self
        ensures { token_ref_model result ≡ byte_token b }
    {
        match b {
            b'*' => TokenRef::Star,
            b'?' => TokenRef::AnyByte,
            _ => TokenRef::Literal(b),
        }
    }

    /// Returns a stored token, as it is matched. A bracket takes its ranges from the tokens in `after`. The result is `None` for a range
    /// and for a separator.
    pub(crate) fn of_token(token: Token, after: &'p [Token]) -> Option<Self>
        ensures { MatchOption result (tokens_model (token ∷ after.now) ≡ tokens_model after.now)
            (λ found. tokens_model (token ∷ after.now) ≡ token_ref_model found ∷ tokens_model after.now) }
    {
        match token {
            Token::Literal(b) => Some(TokenRef::Literal(b)),
            Token::AnyByte => Some(TokenRef::AnyByte),
            Token::Star => Some(TokenRef::Star),
            Token::Open(negated) => Some(TokenRef::Class(ByteSet::new(negated, after))),
            Token::Range(_, _) | Token::Separator => None,
        }
    }

    pub(crate) fn is_star(self) -> bool
        ensures { result ≡ is_star (token_ref_model self.entry) }
    {
        matches!(self, TokenRef::Star)
    }

    /// Returns whether the token is not a star and matches this byte.
    pub(crate) fn takes(self, b: u8) -> bool
        ensures { result ≡ takes (token_ref_model self.entry) b }
    {
        match self {
            TokenRef::Literal(c) => c == b,
            TokenRef::AnyByte => b != b'/',
            TokenRef::Star => false,
            TokenRef::Class(set) => set.takes(b),
        }
    }
}
