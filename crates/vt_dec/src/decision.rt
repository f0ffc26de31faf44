ghost use Rattle.std.specs.Prelude.{◌≡◌, ◌*◌, ◌<◌, ◌↔◌, IsTrue, Some, slice_get, slice_set, replicate};
ghost use Rattle.vt_dec.specs.declared.side.Side.TheVariants.{Left};
ghost use Rattle.vt_dec.specs.Decisions.{IsIn};
ghost use Rattle.vt_dec.specs.Sides.{join_side};
ghost use lib.Lanes.{zip2};

use crate::dim_set::DimSet;
use crate::{Dim, Side, Space};
use std::marker::Model;

/// A side for each of `64 * N` dimensions, for N from 1 to 64.
#[derive(Clone, Copy, Debug)]
pub struct Decision<const N: usize> {
    /// Where the side is `Right`.
    pub(crate) rights: DimSet<N>,
}

impl<const N: usize> Model for Decision<N> {
    ghost use Rattle.std.specs.Prelude.{List, map};
    ghost use Rattle.vt_dec.specs.declared.side.Side.{Side};

    ghost Value = { List Side };

    ghost use Rattle.vt_dec.specs.Sides.{side_of, is_right};
    ghost use Rattle.vt_dec.specs.Inverse.{is_right-side_of};
    ghost use Rattle.std.proofs.Common.{ap};

    ghost view = { λ d. map side_of d.rights };

    ghost inverse = { λ sides. record { rights = map is_right sides } };

    ghost inverse_ok = { λ d held. ap (λ rights. record { rights = rights }) (is_right-side_of d.rights) };
}

impl<const N: usize> Decision<N> {
    /// Every dimension `Left`.
    pub fn all_left() -> Decision<N>
        ensures { result ≡ replicate (64 * N) Left }
    {
        Decision {
            rights: DimSet::empty(),
        }
    }

    /// The side of one dimension.
    pub fn side(&self, dim: Dim) -> Side
        requires { dim < 64 * N }
        ensures { slice_get self.now dim ≡ Some result }
    {
        if self.rights.contains(dim) {
            Side::Right
        } else {
            Side::Left
        }
    }

    /// Changes one dimension alone.
    pub fn set(&mut self, dim: Dim, side: Side)
        requires { dim < 64 * N }
        ensures { self.new ≡ slice_set self.old dim side }
    {
        match side {
            Side::Left => self.rights.remove(dim),
            Side::Right => self.rights.insert(dim),
        }
    }

    /// The space has the decision.
    pub fn in_space(&self, space: Space) -> bool
        ensures { IsTrue result ↔ IsIn space self.now }
    {
        match space {
            Space::All => true,
            Space::AtMost(budget) => self.rights.has_at_most(budget),
        }
    }

    /// `Right` where either of the two is.
    pub(crate) fn join(&self, other: &Decision<N>) -> Decision<N>
        ensures { result ≡ zip2 join_side self.now other.now }
    {
        Decision {
            rights: self.rights.union(&other.rights),
        }
    }
}
