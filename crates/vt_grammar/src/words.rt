//! What each kind of token can be for the reader.
ghost use Rattle.std.specs.Prelude.{◌≡◌};
ghost use Rattle.vt_grammar.specs.Words.{start_of_key, start_of_sign, start_of, operator_of_key, operator_of_sign, operator_of, mark_of_key, mark_of_sign, mark_of, name_start_of};

use crate::mark::Mark;
use crate::start::{Leaf, NameStart, Opening, Start, Statement};
use vt_lex::{Key, Sign, TokenKind};
use vt_syntax::Op;

/// What a token begins where an expression is wanted.
pub fn start_of(kind: TokenKind) -> Start
    ensures { result ≡ start_of kind }
{
    match kind {
        TokenKind::Number(value) => Start::Leaf(Leaf::Number(value)),
        TokenKind::Quoted => Start::Leaf(Leaf::Quoted),
        TokenKind::Name => Start::Leaf(Leaf::Name),
        TokenKind::Dim => Start::Opens(Opening::Choice),
        TokenKind::Key(key) => start_of_key(key),
        TokenKind::Sign(sign) => start_of_sign(sign),
    }
}

fn start_of_key(key: Key) -> Start
    ensures { result ≡ start_of_key key }
{
    match key {
        Key::TrueKey => Start::Leaf(Leaf::Truth(true)),
        Key::FalseKey => Start::Leaf(Leaf::Truth(false)),
        Key::FunKey => Start::Form(Statement::Fun),
        Key::LetKey => Start::Form(Statement::Let),
        Key::IfKey => Start::Form(Statement::If),
        Key::MatchKey => Start::Form(Statement::Match),
        Key::DefKey => Start::Definition,
        Key::RecKey => Start::Nothing,
        Key::InKey => Start::Nothing,
        Key::ThenKey => Start::Nothing,
        Key::ElseKey => Start::Nothing,
        Key::WithKey => Start::Nothing,
        Key::AndKey => Start::Nothing,
        Key::OrKey => Start::Nothing,
    }
}

fn start_of_sign(sign: Sign) -> Start
    ensures { result ≡ start_of_sign sign }
{
    match sign {
        Sign::Question => Start::Leaf(Leaf::Hole),
        Sign::ParenOpen => Start::Opens(Opening::Paren),
        Sign::SquareOpen => Start::Opens(Opening::Square),
        Sign::SquareClose => Start::ListEnd,
        Sign::Arrow => Start::Nothing,
        Sign::Colons => Start::Nothing,
        Sign::ParenClose => Start::Nothing,
        Sign::BraceOpen => Start::Nothing,
        Sign::BraceClose => Start::Nothing,
        Sign::Comma => Start::Nothing,
        Sign::Semicolon => Start::Nothing,
        Sign::Bar => Start::Nothing,
        Sign::Equals => Start::Nothing,
        Sign::Less => Start::Nothing,
        Sign::Plus => Start::Nothing,
        Sign::Minus => Start::Nothing,
        Sign::Star => Start::Nothing,
        Sign::Caret => Start::Nothing,
    }
}

/// What a token is where a name is wanted.
pub fn name_start_of(kind: TokenKind) -> NameStart
    ensures { result ≡ name_start_of kind }
{
    match kind {
        TokenKind::Name => NameStart::Name,
        TokenKind::Key(Key::RecKey) => NameStart::Recursive,
        _ => NameStart::Nothing,
    }
}

/// The operator that a token is after an expression.
pub fn operator_of(kind: TokenKind) -> Option<Op>
    ensures { result ≡ operator_of kind }
{
    match kind {
        TokenKind::Key(key) => operator_of_key(key),
        TokenKind::Sign(sign) => operator_of_sign(sign),
        _ => None,
    }
}

fn operator_of_key(key: Key) -> Option<Op>
    ensures { result ≡ operator_of_key key }
{
    match key {
        Key::AndKey => Some(Op::And),
        Key::OrKey => Some(Op::Or),
        _ => None,
    }
}

fn operator_of_sign(sign: Sign) -> Option<Op>
    ensures { result ≡ operator_of_sign sign }
{
    match sign {
        Sign::Plus => Some(Op::Add),
        Sign::Minus => Some(Op::Sub),
        Sign::Star => Some(Op::Mul),
        Sign::Caret => Some(Op::Cat),
        Sign::Equals => Some(Op::Equal),
        Sign::Less => Some(Op::Less),
        Sign::Colons => Some(Op::Cons),
        _ => None,
    }
}

/// What a token is to a construct that waits for it.
pub fn mark_of(kind: TokenKind) -> Option<Mark>
    ensures { result ≡ mark_of kind }
{
    match kind {
        TokenKind::Key(key) => mark_of_key(key),
        TokenKind::Sign(sign) => mark_of_sign(sign),
        _ => None,
    }
}

fn mark_of_key(key: Key) -> Option<Mark>
    ensures { result ≡ mark_of_key key }
{
    match key {
        Key::InKey => Some(Mark::In),
        Key::ThenKey => Some(Mark::Then),
        Key::ElseKey => Some(Mark::Else),
        Key::WithKey => Some(Mark::With),
        _ => None,
    }
}

fn mark_of_sign(sign: Sign) -> Option<Mark>
    ensures { result ≡ mark_of_sign sign }
{
    match sign {
        Sign::Bar => Some(Mark::Bar),
        Sign::Semicolon => Some(Mark::Semicolon),
        Sign::Comma => Some(Mark::Comma),
        Sign::ParenClose => Some(Mark::ParenClose),
        Sign::BraceClose => Some(Mark::BraceClose),
        Sign::SquareClose => Some(Mark::SquareClose),
        Sign::SquareOpen => Some(Mark::SquareOpen),
        Sign::BraceOpen => Some(Mark::BraceOpen),
        Sign::Arrow => Some(Mark::Arrow),
        Sign::Equals => Some(Mark::Equals),
        Sign::Colons => Some(Mark::Colons),
        _ => None,
    }
}
