use crate::Core;
use std::marker::Model;
use vt_dec::NodeId;
use vt_lex::{Span, Word};

/// A file in the core: its definitions in order, and its main expression.
#[derive(Drop)]
pub struct CoreProgram {
    pub defs: CoreDefs,
    pub main: Core,
}

/// A definition, which stands for a `let` or `let rec` round all that follows. The number is that of
/// this node.
#[derive(Drop)]
pub struct CoreDef {
    pub name: Word,
    pub name_span: Span,
    pub node: NodeId,
    pub recursive: bool,
    pub body: Core,
}

/// Definitions in order.
#[derive(Drop)]
pub struct CoreDefs {
    defs: Vec<CoreDef>,
}

impl Model for CoreDefs {
    ghost use Rattle.std.specs.Prelude.{List};
    ghost use Rattle.std.specs.Coded.{codes};
    ghost use Rattle.vt_syntax.specs.declared.core_program.CoreDef.{CoreDef};
    ghost use Rattle.vt_syntax.specs.contracts.core_expr.Core as shape;

    ghost Value = { List CoreDef };

    ghost coded = { Prim.hlevel (codes, shape.the_row.coded) };

    ghost view = { λ d. d.defs.items };
}

impl CoreDefs {
    ghost use Rattle.std.specs.Prelude.{◌≡◌};

    pub fn new(defs: Vec<CoreDef>) -> CoreDefs
        ensures { result ≡ defs.items }
    {
        CoreDefs { defs }
    }

    pub fn as_slice(&self) -> &[CoreDef]
        ensures { result.now ≡ self.now }
    {
        self.defs.as_slice()
    }
}
