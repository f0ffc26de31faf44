use crate::Span;

/// A reserved word.
#[derive(Clone, Copy, Debug, PartialEq, Eq)]
pub enum Key {
    DefKey,
    RecKey,
    LetKey,
    InKey,
    FunKey,
    IfKey,
    ThenKey,
    ElseKey,
    MatchKey,
    WithKey,
    TrueKey,
    FalseKey,
    AndKey,
    OrKey,
}

/// A sign of one or two characters.
#[derive(Clone, Copy, Debug, PartialEq, Eq)]
pub enum Sign {
    Arrow,
    Colons,
    ParenOpen,
    ParenClose,
    SquareOpen,
    SquareClose,
    BraceOpen,
    BraceClose,
    Comma,
    Semicolon,
    Bar,
    Equals,
    Less,
    Plus,
    Minus,
    Star,
    Caret,
    Question,
}

/// What a token is. A number has its value; the text of the other kinds is in the token's span.
#[derive(Clone, Copy, Debug, PartialEq, Eq)]
pub enum TokenKind {
    Number(u64),
    Quoted,
    Name,
    /// A dimension: `@` and its name.
    Dim,
    Key(Key),
    Sign(Sign),
}

#[derive(Clone, Copy, Debug, PartialEq, Eq)]
pub struct Token {
    pub kind: TokenKind,
    pub span: Span,
}
