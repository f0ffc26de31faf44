/// What a token can begin where an expression is wanted.
#[derive(Clone, Copy)]
pub enum Start {
    Leaf(Leaf),
    Opens(Opening),
    Form(Statement),
    Definition,
    /// The end of a list without elements.
    ListEnd,
    Nothing,
}

/// An expression of one token.
#[derive(Clone, Copy)]
pub enum Leaf {
    Number(u64),
    Quoted,
    Truth(bool),
    Name,
    Hole,
}

/// The first token of an expression in brackets.
#[derive(Clone, Copy)]
pub enum Opening {
    Paren,
    Square,
    Choice,
}

/// The first word of a form that is no operand.
#[derive(Clone, Copy)]
pub enum Statement {
    Fun,
    Let,
    If,
    Match,
}

/// What a token is where a name is wanted.
#[derive(Clone, Copy)]
pub enum NameStart {
    Name,
    Recursive,
    Nothing,
}
