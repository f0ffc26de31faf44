ghost use Rattle.std.specs.Prelude.{◌≡◌};
ghost use Rattle.vt_diagram.specs.Operations.{made_of};

/// What is made of two values, at each decision.
#[derive(Clone, Copy, Debug, PartialEq, Eq, PartialOrd, Ord)]
pub(crate) enum Operation {
    /// The first where the second is not 0, and else 0.
    Both,
    /// The first where it is not 0, and else the second.
    Either,
    /// The first where the second is 0, and else 0.
    Without,
    /// 1 where the two are equal, and else 0.
    Same,
    /// This value where the first is not 0, and else the second.
    Write(u32),
}

impl Operation {
    pub(crate) fn of(self, one: u32, other: u32) -> u32
        ensures { result ≡ made_of self one other }
    {
        match self {
            Operation::Both => { if other == 0 { 0 } else { one } }
            Operation::Either => { if one == 0 { other } else { one } }
            Operation::Without => { if other == 0 { one } else { 0 } }
            Operation::Same => { if one == other { 1 } else { 0 } }
            Operation::Write(value) => { if one == 0 { other } else { value } }
        }
    }
}
