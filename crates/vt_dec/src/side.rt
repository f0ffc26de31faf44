/// One of the two alternatives of a dimension. `Left` is the one written first.
#[derive(Clone, Copy, Debug, PartialEq, Eq)]
pub enum Side {
    Left,
    Right,
}

impl Side {
    ghost use Rattle.std.specs.Prelude.{◌≡◌, [], ◌∷◌};
    ghost use Rattle.vt_dec.specs.Decisions.{rights};

    /// How much of a budget it takes.
    pub(crate) fn cost(self) -> u32
        ensures { result ≡ rights (self ∷ []) }
    {
        match self {
            Side::Left => 0,
            Side::Right => 1,
        }
    }
}

/// The decisions that are looked at: all of them, or those with at most so many dimensions `Right`.
#[derive(Clone, Copy, Debug, PartialEq, Eq)]
pub enum Space {
    All,
    AtMost(u32),
}

impl Space {
    ghost use Rattle.std.specs.Prelude.{◌≡◌};
    ghost use Rattle.vt_dec.specs.Contexts.{budget_of};

    /// How many dimensions may be `Right`, where there is a bound.
    pub(crate) fn budget(self) -> u32
        ensures { result ≡ budget_of self }
    {
        match self {
            Space::All => 0,
            Space::AtMost(budget) => budget,
        }
    }
}
