//! Reads a text from left to right: a gap, then the longest piece, until nothing is left.
ghost use Rattle.std.specs.Prelude.{◌≡◌, ◌+◌, ◌≤◌, [], length, chars, IfOk, IfErr, MatchOption, MatchResult};
ghost use Rattle.vt_lex.specs.Lexing.{most_bytes, byte_count, IsGap, Lexes, Misses, AreTokensOf, IsMissUnless, IsFaultOf};
ghost use Rattle.vt_lex.specs.Reading.{SkipsGap, IsNext};
ghost use Rattle.vt_lex.specs.Spans.{AreSpansIn, AreNotEmpty, BeginWithAt, LiesIn};

use crate::pieces::{Front, front_of, gap_length};
use crate::{LexFault, Span, Token};
use std::alloc::Global;

/// The tokens of a text, or the first place at which none stands. A fault of memory says nothing of
/// the text.
pub fn lex(alloc: Global, text: &str) -> Result<Vec<Token>, LexFault>
    requires { length text.now ≤ most_bytes }
    ensures tokens { IfOk result (λ tokens. AreTokensOf text.now tokens.items) }
    ensures spans { IfOk result (λ tokens. AreSpansIn text.now tokens.items) }
    ensures nonempty { IfOk result (λ tokens. AreNotEmpty tokens.items) }
    ensures dimensions { IfOk result (λ tokens. BeginWithAt text.now tokens.items) }
    ensures count { IfOk result (λ tokens. length tokens.items ≤ length text.now) }
    ensures fault { IfErr result (IsFaultOf text.now) }
    ensures place { IfErr result (LiesIn text.now) }
{
    let characters = characters(alloc, text)?;
    tokens_of(alloc, &characters)
}

fn characters(alloc: Global, text: &str) -> Result<Vec<char>, LexFault>
    ensures { MatchResult result (λ characters. characters.items ≡ chars text.now) (λ fault. fault ≡ LexFault.Memory) }
{
    text.chars().collect(alloc).map_err(|_| LexFault::Memory)
}

fn tokens_of(alloc: Global, text: &[char]) -> Result<Vec<Token>, LexFault>
    requires { byte_count text.now ≤ most_bytes }
    ensures tokens { IfOk result (λ tokens. Lexes 0 text.now tokens.items) }
    ensures fault { IfErr result (IsMissUnless 0 text.now) }
{
    let mut tokens = Vec::new(alloc);
    let mut rest = text;
    let mut at = 0;
    while let Some((token, others)) = next_token(rest, at)? {
        tokens.push(token).map_err(|_| LexFault::Memory)?;
        at = token.span.end;
        rest = others;
    }
    Ok(tokens)
}

// The next token of characters that begin at this byte, with the characters after it.
fn next_token(text: &[char], at: u32) -> Result<Option<(Token, &[char])>, LexFault>
    requires { at + byte_count text.now ≤ most_bytes }
    ensures { MatchResult result (λ next. MatchOption next (IsGap text.now []) (λ found. IsNext at text.now found.0 found.1.now)) (Misses at text.now) }
{
    let (rest, start) = skip_gap(text, at);
    match front_of(rest) {
        Front::Nothing => Ok(None),
        Front::Token(kind, count) => {
            let (piece, others) = rest.split_at(count);
            let span = span_from(start, piece);
            Ok(Some((Token { kind, span }, others)))
        }
        Front::BigNumber(count) => {
            let span = span_from(start, &rest[..count]);
            Err(LexFault::BigNumber { span })
        }
        Front::OpenString => Err(LexFault::OpenString { at: start }),
        Front::BadCharacter => Err(LexFault::BadCharacter { at: start }),
    }
}

// What stands after the gap, and the byte at which it begins.
fn skip_gap(text: &[char], at: u32) -> (&[char], u32)
    requires { at + byte_count text.now ≤ most_bytes }
    ensures skips { SkipsGap at text.now result.0.now result.1 }
    ensures places { result.1 + byte_count result.0.now ≡ at + byte_count text.now }
{
    let (gap, rest) = text.split_at(gap_length(text));
    (rest, at + byte_count(gap))
}

fn span_from(start: u32, piece: &[char]) -> Span
    requires { start + byte_count piece.now ≤ most_bytes }
    ensures { result ≡ record { start = start; end = start + byte_count piece.now } }
{
    let end = start + byte_count(piece);
    Span { start, end }
}

// How many bytes the characters take in UTF-8.
fn byte_count(text: &[char]) -> u32
    requires { byte_count text.now ≤ most_bytes }
    ensures { result ≡ byte_count text.now }
{
    let mut count = 0;
    for c in text {
        count += c.len_utf8() as u32;
    }
    count
}
