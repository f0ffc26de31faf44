ghost use Rattle.std.specs.Prelude.{◌≡◌};
ghost use Rattle.vt_unify.specs.Turns.{IsLifeOf};

use vt_dec::{Context, Dim, Fate};
use vt_store::Pattern;

/// What became of the decisions of a context.
#[derive(Clone, Copy, Debug)]
pub(crate) enum Life {
    /// Of some that take a side of this dimension and of some that take the other, not the same.
    Split(Dim),
    Alive,
    Dead,
}

pub(crate) fn life_of<const N: usize>(pattern: &Pattern<N>, within: &Context<N>) -> Life
    requires { within.now.space ≡ pattern.now.space }
    ensures { IsLifeOf N pattern.now within.now result }
{
    let _sized = within.space();
    match pattern.splits(within) {
        Some(dim) => Life::Split(dim),
        None => match pattern.fate(&within.least()) {
            Fate::Alive => Life::Alive,
            Fate::Dead(_) => Life::Dead,
        },
    }
}
