//! Reserved words and signs by their spellings.
ghost use Rattle.std.specs.Prelude.{◌≡◌};
ghost use Rattle.vt_lex.specs.Tokens.{key_text, sign_text};
ghost use Rattle.vt_lex.specs.Reading.{key_at, sign_at};

use crate::{Key, Sign};

const KEYS: [Key; 14] = [
    Key::DefKey,
    Key::RecKey,
    Key::LetKey,
    Key::InKey,
    Key::FunKey,
    Key::IfKey,
    Key::ThenKey,
    Key::ElseKey,
    Key::MatchKey,
    Key::WithKey,
    Key::TrueKey,
    Key::FalseKey,
    Key::AndKey,
    Key::OrKey,
];

// Each sign after the longer ones that begin with it.
const SIGNS: [Sign; 18] = [
    Sign::Arrow,
    Sign::Colons,
    Sign::ParenOpen,
    Sign::ParenClose,
    Sign::SquareOpen,
    Sign::SquareClose,
    Sign::BraceOpen,
    Sign::BraceClose,
    Sign::Comma,
    Sign::Semicolon,
    Sign::Bar,
    Sign::Equals,
    Sign::Less,
    Sign::Plus,
    Sign::Minus,
    Sign::Star,
    Sign::Caret,
    Sign::Question,
];

/// The reserved word that these characters spell.
pub fn key_at(word: &[char]) -> Option<Key>
    ensures { result ≡ key_at word.now }
{
    KEYS.iter().copied().find(|key| word == key_text(*key))
}

fn key_text(key: Key) -> &'static [char]
    ensures { result.now ≡ key_text key }
{
    match key {
        Key::DefKey => &['d', 'e', 'f'],
        Key::RecKey => &['r', 'e', 'c'],
        Key::LetKey => &['l', 'e', 't'],
        Key::InKey => &['i', 'n'],
        Key::FunKey => &['f', 'u', 'n'],
        Key::IfKey => &['i', 'f'],
        Key::ThenKey => &['t', 'h', 'e', 'n'],
        Key::ElseKey => &['e', 'l', 's', 'e'],
        Key::MatchKey => &['m', 'a', 't', 'c', 'h'],
        Key::WithKey => &['w', 'i', 't', 'h'],
        Key::TrueKey => &['t', 'r', 'u', 'e'],
        Key::FalseKey => &['f', 'a', 'l', 's', 'e'],
        Key::AndKey => &['a', 'n', 'd'],
        Key::OrKey => &['o', 'r'],
    }
}

/// The first sign of the table that the characters begin with.
pub fn sign_at(text: &[char]) -> Option<Sign>
    ensures { result ≡ sign_at text.now }
{
    SIGNS
        .iter()
        .copied()
        .find(|sign| text.starts_with(sign_text(*sign)))
}

pub fn sign_text(sign: Sign) -> &'static [char]
    ensures { result.now ≡ sign_text sign }
{
    match sign {
        Sign::Arrow => &['-', '>'],
        Sign::Colons => &[':', ':'],
        Sign::ParenOpen => &['('],
        Sign::ParenClose => &[')'],
        Sign::SquareOpen => &['['],
        Sign::SquareClose => &[']'],
        Sign::BraceOpen => &['{'],
        Sign::BraceClose => &['}'],
        Sign::Comma => &[','],
        Sign::Semicolon => &[';'],
        Sign::Bar => &['|'],
        Sign::Equals => &['='],
        Sign::Less => &['<'],
        Sign::Plus => &['+'],
        Sign::Minus => &['-'],
        Sign::Star => &['*'],
        Sign::Caret => &['^'],
        Sign::Question => &['?'],
    }
}
