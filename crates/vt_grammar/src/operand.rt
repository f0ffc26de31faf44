use vt_lex::{Span, Word};
use vt_syntax::Expr;

/// An expression that has been read, with the bytes from its first token to its last, parentheses
/// included, and its depth.
#[derive(Drop)]
pub struct Operand {
    pub expr: Expr,
    pub span: Span,
    pub depth: usize,
}

/// A name that is bound, or the name of a dimension, with the span of its token.
#[derive(Drop)]
pub struct Binder {
    pub name: Word,
    pub span: Span,
}
