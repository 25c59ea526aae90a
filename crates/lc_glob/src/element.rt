//! The elements of a pattern: its bytes if it is stored as bytes, and otherwise its tokens.

ghost use Rattle.std.specs.Prelude.{◌≡◌, ◌∷◌, ◌++◌, [], not, ◌==◌, Bool, List, map, count_by, MatchOption, IfSome, IsTrue};
ghost use Rattle.std.specs.List.{list_any, slice_split};
ghost use Rattle.lc_glob.specs.{Bytes.slash, Elements.{BeginsWithLiteral, EndsWithLiteral}, Lengths.least_bytes, Lists.is_empty};
ghost use Rattle.lc_glob.specs.{TokenLists.{is_for_byte, is_separator, tokens_model}, Pieces.cuts_left, Reading.is_double_star};
ghost use Rattle.lc_glob.specs.{Simple.{byte_token, is_segment_literal}, Tokens.{TokenModel, is_star}, Views.token_ref_model};

use crate::cut::cut_at_first;
use crate::token::{Token, TokenRef};
use memchr::memrchr;

/// An element of a pattern: a byte of a simple pattern, or a token that was read.
pub(crate) trait Element: Copy {
    /// The tokens that elements between two separators mean.
    ghost tokens_in: { List Self → List TokenModel };

    /// Whether an element separates segments.
    ghost separates: { Self → Bool };

    /// Returns the first token of the elements, and the elements of the other tokens.
    fn split_first_token<'p>(elements: &'p [Self]) -> Option<(TokenRef<'p>, &'p [Self])>
        ensures { MatchOption result (tokens_in elements.now ≡ [])
            (λ p. tokens_in elements.now ≡ token_ref_model p.0 ∷ tokens_in p.1.now) };

    /// Returns the last token of the elements, and the elements of the other tokens.
    fn split_last_token<'p>(elements: &'p [Self]) -> Option<(TokenRef<'p>, &'p [Self])>
        ensures { MatchOption result (tokens_in elements.now ≡ [])
            (λ p. tokens_in elements.now ≡ tokens_in p.1.now ++ token_ref_model p.0 ∷ []) };

    /// Returns the byte of the last element, if this element is a literal, whatever precedes it.
    fn last_literal(elements: &[Self]) -> Option<u8>
        ensures { IfSome result (λ b. EndsWithLiteral tokens_in separates elements.now b) };

    /// Returns the byte of the first element, if this element is a literal, whatever follows it.
    fn first_literal(elements: &[Self]) -> Option<u8>
        ensures { IfSome result (λ b. BeginsWithLiteral tokens_in separates elements.now b) };

    /// Returns the least number of bytes of a name that the tokens fit: one for each token that is no star.
    fn least_bytes(elements: &[Self]) -> usize
        ensures { result ≡ least_bytes (tokens_in elements.now) };

    /// Splits elements at the first separator, into the elements before and the elements after the separator. If there is no separator, it
    /// returns all elements and `None`.
    fn cut_at_first_separator<'p>(elements: &'p [Self]) -> (&'p [Self], Option<&'p [Self]>)
        ensures { slice_split separates elements.now ≡ result.0.now ∷ cuts_left separates result.1 };

    /// Splits elements at the last separator, into the elements before and the elements after the separator. If there is no separator, it
    /// returns `None` and all elements.
    fn cut_at_last_separator<'p>(elements: &'p [Self]) -> (Option<&'p [Self]>, &'p [Self])
        ensures { slice_split separates elements.now ≡ cuts_left separates result.0 ++ result.1.now ∷ [] };
}

impl Element for u8 {
    ghost tokens_in = { map byte_token };

    ghost separates = { λ b. b == slash };

    fn split_first_token<'p>(bytes: &'p [u8]) -> Option<(TokenRef<'p>, &'p [u8])> {
        let (b, others) = bytes.split_first()?;
        Some((TokenRef::of_byte(*b), others))
    }

    fn split_last_token<'p>(bytes: &'p [u8]) -> Option<(TokenRef<'p>, &'p [u8])> {
        let (b, others) = bytes.split_last()?;
        Some((TokenRef::of_byte(*b), others))
    }

    fn last_literal(bytes: &[u8]) -> Option<u8> {
        let (b, _) = bytes.split_last()?;
        segment_literal(*b)
    }

    fn first_literal(bytes: &[u8]) -> Option<u8> {
        let (b, _) = bytes.split_first()?;
        segment_literal(*b)
    }

    fn least_bytes(bytes: &[u8]) -> usize {
        count_bytes(bytes)
    }

    fn cut_at_first_separator<'p>(bytes: &'p [u8]) -> (&'p [u8], Option<&'p [u8]>) {
        cut_at_first(b'/', bytes)
    }

    fn cut_at_last_separator<'p>(bytes: &'p [u8]) -> (Option<&'p [u8]>, &'p [u8]) {
        match memrchr(b'/', bytes) {
            None => (None, bytes),
            Some(place) => (Some(&bytes[..place]), &bytes[place + 1..]),
        }
    }
}

impl Element for Token {
    ghost tokens_in = { tokens_model };

    ghost separates = { is_separator };

    fn split_first_token<'p>(tokens: &'p [Token]) -> Option<(TokenRef<'p>, &'p [Token])> {
        let mut rest = tokens;
        'tokens: while let Some((token, others)) = rest.split_first() {
            if let Some(found) = TokenRef::of_token(*token, others) {
                return Some((found, others));
            }
            rest = others;
        }
        None
    }

    fn split_last_token<'p>(tokens: &'p [Token]) -> Option<(TokenRef<'p>, &'p [Token])> {
        let mut rest = tokens;
        'tokens: while let Some((token, others)) = rest.split_last() {
            if let Some(found) = TokenRef::of_token(*token, &tokens[rest.len()..]) {
                return Some((found, others));
            }
            rest = others;
        }
        None
    }

    fn last_literal(tokens: &[Token]) -> Option<u8> {
        match tokens.split_last() {
            Some((Token::Literal(b), _)) => Some(*b),
            _ => None,
        }
    }

    fn first_literal(tokens: &[Token]) -> Option<u8> {
        match tokens.split_first() {
            Some((Token::Literal(b), _)) => Some(*b),
            _ => None,
        }
    }

    fn least_bytes(tokens: &[Token]) -> usize {
        count_tokens(tokens)
    }

    fn cut_at_first_separator<'p>(tokens: &'p [Token]) -> (&'p [Token], Option<&'p [Token]>) {
        let mut rest = tokens;
        'tokens: while let Some((token, others)) = rest.split_first() {
            if token.is_separator() {
                return (&tokens[..tokens.len() - rest.len()], Some(others));
            }
            rest = others;
        }
        (tokens, None)
    }

    fn cut_at_last_separator<'p>(tokens: &'p [Token]) -> (Option<&'p [Token]>, &'p [Token]) {
        let mut rest = tokens;
        'tokens: while let Some((token, others)) = rest.split_last() {
            if token.is_separator() {
                return (Some(others), &tokens[rest.len()..]);
            }
            rest = others;
        }
        (None, tokens)
    }
}

/// Returns the byte of a simple pattern, if this byte is a literal and separates no segments.
fn segment_literal(b: u8) -> Option<u8>
    ensures { IfSome result (λ c. (c ≡ b) × IsTrue (is_segment_literal b)) }
{
    if b == b'*' || b == b'?' || b == b'/' {
        None
    } else {
        Some(b)
    }
}

/// Returns how many bytes of a simple pattern are not stars.
fn count_bytes(bytes: &[u8]) -> usize
    ensures { result ≡ count_by (λ b. not (is_star (byte_token b))) bytes.now }
{
    bytes
        .iter()
        .filter(|b| !TokenRef::of_byte(**b).is_star())
        .count()
}

/// Returns how many of the tokens match one byte each.
fn count_tokens(tokens: &[Token]) -> usize
    ensures { result ≡ count_by is_for_byte tokens.now }
{
    tokens.iter().filter(|token| token.is_for_byte()).count()
}

/// Returns whether the elements are no token.
pub(crate) fn has_no_token<E: Element>(elements: &[E]) -> bool
    ensures { result ≡ is_empty (E.tokens_in elements.now) }
{
    E::split_first_token(elements).is_none()
}

/// Returns whether the elements are two stars and nothing else.
pub(crate) fn are_two_stars<E: Element>(elements: &[E]) -> bool
    ensures { result ≡ is_double_star (E.tokens_in elements.now) }
{
    let Some((first, others)) = E::split_first_token(elements) else {
        return false;
    };
    if !first.is_star() {
        return false;
    }
    let Some((second, rest)) = E::split_first_token(others) else {
        return false;
    };
    second.is_star() && has_no_token(rest)
}

/// Returns whether a star is among the tokens of the elements.
pub(crate) fn has_star<E: Element>(elements: &[E]) -> bool
    ensures { result ≡ list_any is_star (E.tokens_in elements.now) }
{
    let mut rest = elements;
    'tokens: while let Some((token, others)) = E::split_first_token(rest) {
        if token.is_star() {
            return true;
        }
        rest = others;
    }
    false
}
