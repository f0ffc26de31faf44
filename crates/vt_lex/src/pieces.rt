//! What stands at the front of some characters: a gap, and after it a piece or nothing that is one.
ghost use Rattle.std.specs.Prelude.{◌≡◌, ◌+◌, ◌-◌, ◌*◌, ◌^◌, ◌<◌, ◌≤◌, false, length, take_while, IfSome, MatchOption, SomeIff};
ghost use Rattle.std.specs.Char.{is_ascii_digit};
ghost use Rattle.std.specs.List.{prefix_len};
ghost use Rattle.unicode_ident.specs.Ident.{is_xid_continue};
ghost use Rattle.vt_lex.specs.Tokens.{number_after, AreDigits, IsDigit};
ghost use Rattle.vt_lex.specs.Reading.{is_blank, gap_length, is_name_start, word_length, string_length, key_at, word_kind, sign_at, number_of, string_front, dimension_front, number_front, word_front, sign_front, front_of};

use crate::TokenKind;
use crate::spelling::{key_at, sign_at, sign_text};
use unicode_ident::{is_xid_continue, is_xid_start};

/// The largest number that may be written.
const LARGEST_NUMBER: u64 = 9223372036854775807;

/// What stands at the front of characters: a piece with the number of its characters, or why none does.
pub enum Front {
    Nothing,
    Token(TokenKind, usize),
    BigNumber(usize),
    OpenString,
    BadCharacter,
}

/// What stands at the front of characters that no gap begins.
pub fn front_of(text: &[char]) -> Front
    ensures { result ≡ front_of text.now }
{
    match text {
        [] => Front::Nothing,
        ['"', rest @ ..] => string_front(rest),
        ['@', rest @ ..] => dimension_front(rest),
        [first, ..] if first.is_ascii_digit() => number_front(text),
        [first, ..] if is_name_start(*first) => word_front(text),
        _ => sign_front(text),
    }
}

// What an opening quote begins, by the characters after it.
fn string_front(rest: &[char]) -> Front
    ensures { result ≡ string_front (string_length false rest.now) }
{
    match string_length(rest) {
        None => Front::OpenString,
        Some(count) => Front::Token(TokenKind::Quoted, count + 1),
    }
}

// What an at sign begins, by the characters after it.
fn dimension_front(rest: &[char]) -> Front
    ensures { result ≡ dimension_front (word_length rest.now) }
{
    match word_length(rest) {
        0 => Front::BadCharacter,
        count => Front::Token(TokenKind::Dim, count + 1),
    }
}

fn number_front(text: &[char]) -> Front
    ensures { result ≡ number_front (number_of (take_while is_ascii_digit text.now)) (prefix_len is_ascii_digit text.now) }
{
    let count = digits_length(text);
    match number_of(&text[..count]) {
        Some(value) => Front::Token(TokenKind::Number(value), count),
        None => Front::BigNumber(count),
    }
}

fn word_front(text: &[char]) -> Front
    ensures { result ≡ word_front text.now (word_length text.now) }
{
    let count = word_length(text);
    let kind = key_at(&text[..count]).map_or(TokenKind::Name, TokenKind::Key);
    Front::Token(kind, count)
}

fn sign_front(text: &[char]) -> Front
    ensures { result ≡ sign_front (sign_at text.now) }
{
    match sign_at(text) {
        Some(sign) => Front::Token(TokenKind::Sign(sign), sign_text(sign).len()),
        None => Front::BadCharacter,
    }
}

/// How many characters the gap at the front has: blanks, and comments up to the ends of their lines.
pub fn gap_length(text: &[char]) -> usize
    ensures length { result ≡ gap_length false text.now }
    ensures within { result ≤ length text.now }
{
    let mut inside = false;
    for (i, c) in text.iter().enumerate() {
        if inside {
            inside = *c != '\n';
        } else if *c == '#' {
            inside = true;
        } else if !is_blank(*c) {
            return i;
        }
    }
    text.len()
}

fn is_blank(c: char) -> bool
    ensures { result ≡ is_blank c }
{
    c == ' ' || c == '\t' || c == '\n' || c == '\r'
}

// How many characters stand up to and with the quote that closes a string, if one does.
fn string_length(text: &[char]) -> Option<usize>
    ensures length { result ≡ string_length false text.now }
    ensures within { IfSome result (λ count. count ≤ length text.now) }
{
    let mut escaped = false;
    for (i, c) in text.iter().enumerate() {
        match *c {
            '\n' => return None,
            '"' if !escaped => return Some(i + 1),
            c => escaped = !escaped && c == '\\',
        }
    }
    None
}

fn word_length(text: &[char]) -> usize
    ensures length { result ≡ word_length text.now }
    ensures within { result ≤ length text.now }
{
    match text {
        [first, rest @ ..] if is_name_start(*first) => 1 + name_parts(rest),
        _ => 0,
    }
}

fn is_name_start(c: char) -> bool
    ensures { result ≡ is_name_start c }
{
    c == '_' || is_xid_start(c)
}

fn name_parts(text: &[char]) -> usize
    ensures length { result ≡ prefix_len is_xid_continue text.now }
    ensures within { result ≤ length text.now }
{
    text.iter().take_while(|c| is_xid_continue(**c)).count()
}

fn digits_length(text: &[char]) -> usize
    ensures length { result ≡ prefix_len is_ascii_digit text.now }
    ensures within { result ≤ length text.now }
{
    text.iter().take_while(|c| c.is_ascii_digit()).count()
}

// The number that digits spell, if it is not too large.
fn number_of(digits: &[char]) -> Option<u64>
    requires { AreDigits digits.now }
    ensures { result ≡ number_of digits.now }
{
    value_of(digits).filter(|value| *value <= LARGEST_NUMBER)
}

// The number that digits spell, if it fits.
fn value_of(digits: &[char]) -> Option<u64>
    requires { AreDigits digits.now }
    ensures { MatchOption result (2 ^ 64 ≤ number_after 0 digits.now) (λ value. value ≡ number_after 0 digits.now) }
{
    let mut value: u64 = 0;
    for digit in digits {
        value = next_value(value, *digit)?;
    }
    Some(value)
}

fn next_value(value: u64, digit: char) -> Option<u64>
    requires { IsDigit digit }
    ensures { SomeIff result (10 * value + (digit - 48) < 2 ^ 64) (10 * value + (digit - 48)) }
{
    let digit = u32::from(digit) - u32::from('0');
    value.checked_mul(10)?.checked_add(u64::from(digit))
}
