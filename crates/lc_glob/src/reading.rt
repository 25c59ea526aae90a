//! Reading bytes as a pattern: finding its tokens, and choosing the form in which it is stored.

ghost use Rattle.std.specs.Prelude.{◌≡◌, ◌≤◌, ◌∷◌, [], length, false, MatchOption, IfOk, IfSome, Some, None};
ghost use Rattle.lc_glob.specs.{Elements.parts_in, TokenLists.{is_separator, literal_tokens, tokens_model}, Patterns.{dead, plain}};
ghost use Rattle.lc_glob.specs.{Pushes.{Pushes, lexeme_tokens}, Reading.{byte_lexeme, lexeme, literal_lexeme, parts, pattern_of, quoted}};
ghost use Rattle.lc_glob.specs.Views.{form_model, live_model, token_pattern_model, simple_model};

use crate::bracket::push_bracket;
use crate::pattern::{Pattern, PatternKind};
use crate::scope::{Scope, trim};
use crate::simple_pattern::{RareKind, SimpleForm, SimpleKind, SimplePattern};
use crate::token::Token;
use smallvec::SmallVec;
use std::alloc::{AllocError, Global};

/// Returns the token of a byte that has no special meaning, or that a backslash quotes. A slash separates segments, also after a backslash.
fn own_token(b: u8) -> Token
    ensures { lexeme_tokens (literal_lexeme b) ≡ result ∷ [] }
{
    if b == b'/' {
        Token::Separator
    } else {
        Token::Literal(b)
    }
}

/// Returns the token of a byte that is neither a backslash nor a `[`.
fn byte_token(b: u8) -> Token
    ensures { lexeme_tokens (byte_lexeme b) ≡ result ∷ [] }
{
    match b {
        b'*' => Token::Star,
        b'?' => Token::AnyByte,
        _ => own_token(b),
    }
}

/// Pushes the token of the byte after a backslash, and returns how many bytes it read. It returns `None` if no byte follows, which makes
/// the pattern dead.
fn push_quoted(rest: &[u8], tokens: &mut Vec<Token>) -> Result<Option<usize>, AllocError>
    ensures is { IfOk result (λ r. Pushes lexeme_tokens (quoted rest.now) tokens.old.items tokens.new.items r) }
    ensures within { IfOk result (λ r. IfSome r (λ k. k ≤ length rest.now)) }
{
    let Some((b, _)) = rest.split_first() else {
        return Ok(None);
    };
    tokens.push(own_token(*b))?;
    Ok(Some(1))
}

/// Pushes the token that begins with the byte `b`, or the tokens of a bracket, and returns how many bytes of `rest` it read. It returns
/// `None` if these bytes make the pattern dead.
fn push_lexeme(b: u8, rest: &[u8], tokens: &mut Vec<Token>) -> Result<Option<usize>, AllocError>
    ensures is { IfOk result (λ r. Pushes lexeme_tokens (lexeme b rest.now) tokens.old.items tokens.new.items r) }
    ensures within { IfOk result (λ r. IfSome r (λ k. k ≤ length rest.now)) }
{
    if b == b'\\' {
        return push_quoted(rest, tokens);
    }
    if b == b'[' {
        return push_bracket(rest, tokens);
    }
    tokens.push(byte_token(b))?;
    Ok(Some(0))
}

/// Reads the bytes of a pattern as tokens. It returns `None` if a backslash or a bracket in them makes the pattern dead.
fn read_tokens(alloc: Global, bytes: &[u8]) -> Result<Option<Vec<Token>>, AllocError>
    ensures { IfOk result (λ r. MatchOption r (parts 0 bytes.now ≡ None)
        (λ tokens. parts 0 bytes.now ≡ Some (parts_in tokens_model is_separator tokens.items))) }
{
    let mut tokens = Vec::new(alloc);
    let mut rest = bytes;
    'tokens: while let Some((b, others)) = rest.split_first() {
        let Some(taken) = push_lexeme(*b, others, &mut tokens)? else {
            return Ok(None);
        };
        rest = &others[taken..];
    }
    Ok(Some(tokens))
}

/// Reads bytes as a pattern. Any bytes are a pattern, perhaps a dead one, which matches nothing.
pub(crate) fn read_pattern(alloc: Global, bytes: &[u8]) -> Result<Pattern, AllocError>
    ensures { IfOk result (λ p. p ≡ pattern_of bytes.now) }
{
    if let Some(simple) = SimplePattern::read(bytes) {
        return keep_simple(alloc, simple);
    }
    let Some(tokens) = read_tokens(alloc, bytes)? else {
        return Ok(dead_pattern(alloc));
    };
    let Some((scope, tokens)) = trim(&tokens) else {
        return Ok(dead_pattern(alloc));
    };
    if scope.is_anchored {
        return keep_tokens(alloc, scope, tokens);
    }
    keep_last(alloc, scope.is_dir_only, tokens)
}

/// Returns a pattern with its own copy of a simple pattern's bytes.
fn keep_simple(alloc: Global, simple: SimplePattern) -> Result<Pattern, AllocError>
    ensures { IfOk result (λ p. p ≡ form_model simple.entry.form simple.entry.bytes.now) }
{
    let bytes = SmallVec::from_slice(alloc, simple.bytes)?;
    Ok(Pattern {
        kind: PatternKind::Simple(simple.form, bytes),
    })
}

/// Returns a pattern with its own copy of the tokens.
fn keep_tokens(alloc: Global, scope: Scope, tokens: &[Token]) -> Result<Pattern, AllocError>
    ensures { IfOk result (λ p. p ≡ token_pattern_model scope tokens.now) }
{
    Ok(Pattern {
        kind: PatternKind::Tokens(scope, tokens.to_vec(alloc)?),
    })
}

/// Returns the pattern that has these tokens as its one segment. It stores literals alone, such as `\\#a`, and literals after a star, such
/// as `*\\ `, as their bytes.
fn keep_last(alloc: Global, is_dir_only: bool, tokens: &[Token]) -> Result<Pattern, AllocError>
    ensures { IfOk result (λ p. p ≡ live_model is_dir_only false (plain (tokens_model tokens.now) ∷ [])) }
{
    if let Some(literals) = literals_of(alloc, tokens)? {
        return Ok(of_literals(is_dir_only, SimpleKind::Suffix { is_whole: true }, literals));
    }
    if let Some((Token::Star, rest)) = tokens.split_first() {
        if let Some(literals) = literals_of(alloc, rest)? {
            return Ok(of_literals(
                is_dir_only,
                SimpleKind::Suffix { is_whole: false },
                literals,
            ));
        }
    }
    let scope = Scope {
        is_dir_only,
        is_anchored: false,
    };
    keep_tokens(alloc, scope, tokens)
}

fn of_literals(is_dir_only: bool, kind: SimpleKind, literals: SmallVec<u8, 16>) -> Pattern
    ensures { result ≡ simple_model is_dir_only kind literals.items }
{
    let form = SimpleForm { is_dir_only, kind };
    Pattern {
        kind: PatternKind::Simple(form, literals),
    }
}

/// Returns the bytes of the tokens, if all tokens are literals.
fn literals_of(alloc: Global, tokens: &[Token]) -> Result<Option<SmallVec<u8, 16>>, AllocError>
    ensures { IfOk result (λ r. IfSome r (λ literals. tokens.now ≡ literal_tokens literals.items)) }
{
    let mut literals = SmallVec::new(alloc);
    for token in tokens {
        let Token::Literal(b) = token else {
            return Ok(None);
        };
        literals.push(*b)?;
    }
    Ok(Some(literals))
}

fn dead_pattern(alloc: Global) -> Pattern
    ensures { result ≡ dead }
{
    of_literals(
        false,
        SimpleKind::Other(RareKind::Dead),
        SmallVec::new(alloc),
    )
}
