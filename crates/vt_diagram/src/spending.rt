//! How many dimensions may be `Right`, where there is a bound.
ghost use Rattle.std.specs.Prelude.{◌≡◌};
ghost use Rattle.vt_diagram.specs.Budgets.{budget_of, spent};

use vt_dec::Space;

/// In a space.
pub(crate) fn budget_of(space: Space) -> Option<u32>
    ensures { result ≡ budget_of space }
{
    match space {
        Space::All => None,
        Space::AtMost(budget) => Some(budget),
    }
}

/// After a `Right`.
pub(crate) fn spent(budget: Option<u32>) -> Option<u32>
    ensures { result ≡ spent budget }
{
    match budget {
        None => None,
        Some(budget) => Some(budget.saturating_sub(1)),
    }
}
