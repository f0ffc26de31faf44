use std::marker::Model;

/// A cell of a store, by its number in the order in which cells were made.
#[derive(Clone, Copy, Debug, PartialEq, Eq, PartialOrd, Ord, Hash)]
pub struct CellId(pub usize);

impl Model for CellId {
    ghost use Rattle.std.specs.Prelude.{ℕ};

    ghost Value = { ℕ };

    ghost view = { λ c. c.0 };

    ghost inverse = { λ number. record { 0 = number } };
}
