use crate::Expr;
use std::marker::Model;
use vt_lex::{Span, Word};

/// A file: its definitions in order, and its main expression.
#[derive(Drop)]
pub struct Program {
    pub defs: Defs,
    pub main: Expr,
}

/// `def name = body;`, or with `rec`.
#[derive(Drop)]
pub struct Def {
    pub name: Word,
    pub name_span: Span,
    pub recursive: bool,
    pub body: Expr,
}

/// Definitions in order.
#[derive(Drop)]
pub struct Defs {
    defs: Vec<Def>,
}

impl Model for Defs {
    ghost use Rattle.std.specs.Prelude.{List};
    ghost use Rattle.std.specs.Coded.{codes};
    ghost use Rattle.vt_syntax.specs.declared.program.Def.{Def};
    ghost use Rattle.vt_syntax.specs.contracts.expr.Expr as shape;

    ghost Value = { List Def };

    ghost coded = { Prim.hlevel (codes, shape.the_row.coded) };

    ghost view = { λ d. d.defs.items };
}

impl Defs {
    ghost use Rattle.std.specs.Prelude.{◌≡◌};

    pub fn new(defs: Vec<Def>) -> Defs
        ensures { result ≡ defs.items }
    {
        Defs { defs }
    }

    pub fn as_slice(&self) -> &[Def]
        ensures { result.now ≡ self.now }
    {
        self.defs.as_slice()
    }
}
