//! The leaves of a program: what a change may replace by a hole.
ghost use Rattle.std.specs.Prelude.{◌≡◌};
ghost use Rattle.vt_syntax.specs.Leaves.{class_number};

use std::marker::Model;
use vt_dec::NodeId;
use vt_lex::Span;

/// What a leaf is.
#[derive(Clone, Copy, Debug, PartialEq, Eq)]
pub enum Class {
    Literal,
    /// A name that `fun` or an arm of `match` binds.
    Parameter,
    /// A name that `def` or `let` binds.
    Defined,
    /// A constant's name or an operator.
    Constant,
}

impl Class {
    /// The number that a leaf has for its class.
    pub fn number(self) -> u8
        ensures { result ≡ class_number self }
    {
        match self {
            Class::Literal => 0,
            Class::Parameter => 1,
            Class::Defined => 2,
            Class::Constant => 3,
        }
    }
}

/// A written name in expression position, a written operator, or a literal.
#[derive(Clone, Copy, Debug, PartialEq, Eq)]
pub struct Leaf {
    pub span: Span,
    /// The number of its [`Class`].
    pub class: u8,
    pub node: NodeId,
}

/// Leaves by their place in the text.
#[derive(Debug, Drop)]
pub struct Leaves {
    leaves: Vec<Leaf>,
}

impl Model for Leaves {
    ghost use Rattle.std.specs.Prelude.{List};
    ghost use Rattle.vt_syntax.specs.declared.leaf.Leaf.{Leaf};

    ghost Value = { List Leaf };

    ghost view = { λ l. l.leaves.items };
}

impl Leaves {
    ghost use Rattle.std.specs.Prelude.{◌≡◌};

    pub fn new(leaves: Vec<Leaf>) -> Leaves
        ensures { result ≡ leaves.items }
    {
        Leaves { leaves }
    }

    pub fn as_slice(&self) -> &[Leaf]
        ensures { result.now ≡ self.now }
    {
        self.leaves.as_slice()
    }
}
