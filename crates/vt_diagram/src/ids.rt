use std::marker::Model;

/// A diagram of a table, by its number. Number 0 is the value 0, which takes no memory.
#[derive(Clone, Copy, Debug, PartialEq, Eq, PartialOrd, Ord, Hash)]
pub struct DiagramId(pub usize);

impl Model for DiagramId {
    ghost use Rattle.std.specs.Prelude.{ℕ};

    ghost Value = { ℕ };

    ghost view = { λ d. d.0 };

    ghost inverse = { λ number. record { 0 = number } };
}
