use crate::mark::Mark;
use crate::operand::{Binder, Operand};
use vt_lex::Span;
use vt_syntax::Op;

/// A construct that is open. Each begins at its first span.
#[derive(Drop)]
pub enum Frame {
    /// A left side and what joins it to the right side, which is being read: an operator, or nothing,
    /// where it is applied.
    Joint(Option<Op>, Span, Operand),
    Tail(Tail),
    Middle(Middle),
    Right(Right),
    /// Parentheses round one expression or two, in the first of them.
    Paren(Span),
    /// A list in brackets, in its first element.
    Square(Span),
    /// An element of a list, before the one that is being read.
    Element(Operand),
    /// The body of a definition.
    Body { recursive: bool, name: Binder },
    Naming(Naming),
}

/// A last part, after which no sign follows.
#[derive(Drop)]
pub enum Tail {
    FunBody {
        from: Span,
        name: Binder,
    },
    LetBody {
        from: Span,
        recursive: bool,
        name: Binder,
        bound: Operand,
    },
    ElseBranch {
        from: Span,
        condition: Operand,
        then: Operand,
    },
    CellArm {
        from: Span,
        list: Operand,
        empty: Operand,
        first: Binder,
        rest: Binder,
    },
}

/// A part after which one sign or word follows, and then another part.
#[derive(Drop)]
pub enum Middle {
    LetBound {
        from: Span,
        recursive: bool,
        name: Binder,
    },
    Condition {
        from: Span,
    },
    ThenBranch {
        from: Span,
        condition: Operand,
    },
    Matched {
        from: Span,
    },
    EmptyArm {
        from: Span,
        list: Operand,
    },
    ChoiceLeft {
        dim: Binder,
    },
}

/// The second of two parts in brackets.
#[derive(Drop)]
pub enum Right {
    Pair { from: Span, left: Operand },
    Choice { dim: Binder, left: Operand },
}

/// A construct that waits for a name.
#[derive(Drop)]
pub enum Naming {
    FunName {
        from: Span,
    },
    LetName {
        from: Span,
        recursive: bool,
    },
    DefName {
        recursive: bool,
    },
    FirstName {
        from: Span,
        list: Operand,
        empty: Operand,
    },
    RestName {
        from: Span,
        list: Operand,
        empty: Operand,
        first: Binder,
    },
}

/// What comes next in the innermost open construct.
#[derive(Drop)]
pub enum Next {
    /// An expression, or a name.
    Wanted,
    /// This sign.
    Awaits(Mark),
    /// An expression has been read. It may be the left side of a larger one.
    Read(Operand),
}
