use std::marker::Model;

/// A dimension, numbered from 0 in the order of first occurrence in the text.
#[derive(Clone, Copy, Debug, PartialEq, Eq, PartialOrd, Ord, Hash)]
pub struct Dim(pub u32);

impl Model for Dim {
    ghost use Rattle.std.specs.Prelude.{ℕ};

    ghost Value = { ℕ };

    ghost view = { λ d. d.0 };

    ghost inverse = { λ number. record { 0 = number } };
}

/// A node of a core program, numbered from 1 in the order in which nodes are checked.
#[derive(Clone, Copy, Debug, PartialEq, Eq, PartialOrd, Ord, Hash)]
pub struct NodeId(pub u32);

impl Model for NodeId {
    ghost use Rattle.std.specs.Prelude.{ℕ};

    ghost Value = { ℕ };

    ghost view = { λ d. d.0 };

    ghost inverse = { λ number. record { 0 = number } };
}
