//! What a walk down a diagram asks of a context.
ghost use Rattle.std.specs.Prelude.{◌≡◌, ◌+◌, ◌*◌, ◌<◌, length, IfOk};
ghost use Rattle.vt_dec.specs.Decisions.{IsSideOf};
ghost use Rattle.vt_store.specs.Writes.{IsNextBefore};

use std::alloc::AllocError;
use vt_dec::{Context, Dim, Side};

/// The next dimension. There is none after the last number that a dimension can have, which is far
/// above `64 * 64`: a diagram that asks for it would not fit memory either.
pub(crate) fn after(dim: Dim) -> Result<Dim, AllocError>
    ensures { IfOk result (λ next. next ≡ dim + 1) }
{
    match dim.0.checked_add(1) {
        Some(next) => Ok(Dim(next)),
        None => Err(AllocError),
    }
}

/// The first dimension from `from` on, and before `below` if that is one, that the context decides.
pub(crate) fn next_before<const N: usize>(
    within: &Context<N>,
    from: Dim,
    below: Option<Dim>,
) -> Option<(Dim, Side)>
    ensures { IsNextBefore within.now from below result }
{
    let (dim, side) = within.next_decided(from)?;
    match below {
        None => Some((dim, side)),
        Some(below) if dim < below => Some((dim, side)),
        Some(_) => None,
    }
}

/// `Context::side`, as a recursion over a diagram can ask it: the prover takes no condition of a
/// function that calls itself and has a number among its parameters.
pub(crate) fn side_in<const N: usize>(within: &Context<N>, dim: Dim) -> Option<Side>
    ensures { dim < 64 * N → IsSideOf within.now dim result }
{
    if (dim.0 as usize) / 64 < N {
        within.side(dim)
    } else {
        None
    }
}
