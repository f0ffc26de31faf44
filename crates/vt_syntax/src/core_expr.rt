use sqlite_items::Boxed;
use vt_dec::{Dim, NodeId};
use vt_lex::{Span, Word};
use vt_type::ConstId;

/// A literal. The text of a string is in its span.
#[derive(Clone, Copy, Debug, PartialEq, Eq)]
pub enum Lit {
    Number(u64),
    Quoted,
    Truth(bool),
}

/// An expression of the core.
#[cycle(core)]
#[derive(Drop)]
pub struct Core {
    pub node: NodeId,
    pub span: Span,
    pub form: Form,
}

#[cycle(core)]
#[derive(Drop)]
pub enum Form {
    Literal(Lit),
    /// How many binders stand between the name and its own binder.
    Name(u32),
    Const(ConstId),
    Hole,
    Fun(Boxed<Core>),
    App(Boxed<Core>, Boxed<Core>),
    Let(Boxed<Core>, Boxed<Core>),
    /// The bound name with its span, its expression, and the body.
    LetRec(Word, Span, Boxed<Core>, Boxed<Core>),
    Choice(Dim, Boxed<Core>, Boxed<Core>),
}
