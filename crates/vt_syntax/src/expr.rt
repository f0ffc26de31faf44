use sqlite_items::Boxed;
use vt_lex::{Span, Word};

/// A binary operator.
#[derive(Clone, Copy, Debug, PartialEq, Eq)]
pub enum Op {
    Add,
    Sub,
    Mul,
    Cat,
    Equal,
    Less,
    Cons,
    And,
    Or,
}

/// An expression as it is written, with the bytes from its first token to its last. Parentheses round
/// an expression are no part of it.
#[cycle(expr)]
#[derive(Drop)]
pub struct Expr {
    pub span: Span,
    pub form: ExprForm,
}

#[cycle(expr)]
#[derive(Drop)]
pub enum ExprForm {
    Number(u64),
    Quoted,
    Truth(bool),
    Name(Word),
    Hole,
    /// The bound name with its span, and the body.
    Fun(Word, Span, Boxed<Expr>),
    Let {
        recursive: bool,
        name: Word,
        name_span: Span,
        bound: Boxed<Expr>,
        body: Boxed<Expr>,
    },
    If(Boxed<Expr>, Boxed<Expr>, Boxed<Expr>),
    Match {
        list: Boxed<Expr>,
        empty: Boxed<Expr>,
        first: Word,
        first_span: Span,
        rest: Word,
        rest_span: Span,
        cell: Boxed<Expr>,
    },
    /// The operator with its span, and its two operands.
    Op(Op, Span, Boxed<Expr>, Boxed<Expr>),
    Apply(Boxed<Expr>, Boxed<Expr>),
    Pair(Boxed<Expr>, Boxed<Expr>),
    List(Exprs),
    /// The name of the dimension, the span of its token, and the two alternatives.
    Choice(Word, Span, Boxed<Expr>, Boxed<Expr>),
}

/// Expressions in order, the first one first.
#[cycle(expr)]
#[derive(Drop)]
pub enum Exprs {
    Nil,
    More(Boxed<Expr>, Boxed<Exprs>),
}
