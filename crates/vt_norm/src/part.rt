//! A set of decisions, by the sides of some dimensions.
ghost use Rattle.std.specs.Prelude.{◌≡◌, ◌↔◌, List, Some, None, IfSome, IsTrue, length, slice_get, slice_set, replicate};
ghost use Rattle.vt_dec.specs.declared.side.Side.{Side};
ghost use Rattle.vt_dec.specs.declared.side.Space.TheVariants.{All};
ghost use Rattle.vt_dec.specs.Decisions.{Agrees};
ghost use Rattle.vt_norm.specs.Sides.{taken_side};

use std::marker::Model;
use vt_dec::laws::one_description;
use vt_dec::{Context, Decision, Dim, Side, Space};

/// The decisions over 64 dimensions that take certain sides. There is always one.
///
/// Contracts see the side of each dimension that is decided.
#[derive(Clone, Copy, Debug)]
pub(crate) struct Part {
    within: Context<1>,
}

impl Model for Part {
    ghost use Rattle.std.specs.Prelude.{List, Option};
    ghost use Rattle.vt_dec.specs.declared.side.Side.{Side};
    ghost use Rattle.vt_dec.specs.declared.side.Space.TheVariants.{All};
    ghost use Rattle.std.proofs.Common.{sym};
    ghost use Rattle.vt_norm.specs.Sides.{IsPart};

    ghost Value = { List (Option Side) };

    ghost view = { λ p. p.within.sides };

    ghost invariant = { λ p. IsPart p.within };

    ghost inverse = { λ sides. record { within = record { sides = sides; space = All } } };

    ghost inverse_ok = { λ p held. λ i. record { within = record { sides = p.within.sides; space = sym held.all_space i } } };
}

impl Part {
    /// All decisions.
    pub(crate) fn whole() -> Part
        ensures { result ≡ replicate 64 None }
    {
        let within = Context::whole(Space::All);
        let _space = within.space();
        Part { within }
    }

    /// The same decisions, as the layers below know them.
    pub(crate) fn context(&self) -> Context<1>
        ensures is { result ≡ record { sides = self.now; space = All } }
        ensures sized { length self.now ≡ 64 }
    {
        self.within
    }

    /// One of the decisions.
    pub(crate) fn least(&self) -> Decision<1>
        ensures { Agrees self.now result }
    {
        self.within.least()
    }

    /// The side that all decisions take, or nothing where they take either. A dimension that is none
    /// is taken as decided.
    pub(crate) fn side(&self, dim: Dim) -> Option<Side>
        ensures some { IfSome result (λ side. (d : List Side) → Agrees self.now d → taken_side d dim ≡ side) }
        ensures none { result ≡ None → slice_get self.now dim ≡ Some None }
        ensures sized { length self.now ≡ 64 }
    {
        if dim.0 < 64 {
            self.within.side(dim)
        } else {
            Some(Side::Left)
        }
    }

    /// Those that take a side of a dimension that is open.
    pub(crate) fn with(&self, dim: Dim, side: Side) -> Part
        requires { slice_get self.now dim ≡ Some None }
        ensures { result ≡ slice_set self.now dim (Some side) }
    {
        one_description();
        let _space = self.within.space();
        match self.within.with(dim, side) {
            Some(within) => Part { within },
            None => *self,
        }
    }

    /// Some decision is in both.
    pub(crate) fn meets(&self, other: &Part) -> bool
        ensures { IsTrue result ↔ (d : List Side) × Agrees self.now d × Agrees other.now d }
    {
        self.within.meets(&other.within)
    }
}
