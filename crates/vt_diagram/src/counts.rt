//! How few dimensions a decision can take `Right`, where there is a decision that is asked for.
ghost use Rattle.std.specs.Prelude.{◌≡◌, IfOk};
ghost use Rattle.vt_diagram.specs.Rights.{none_at_zero, one_more, fewer};

use std::alloc::AllocError;

/// For the diagram of one value.
pub(crate) fn none_at_zero(value: u32) -> Option<u32>
    ensures { result ≡ none_at_zero value }
{
    if value == 0 { None } else { Some(0) }
}

/// One dimension more. A decision has far fewer than `2 ^ 32` of them: a diagram that asked for more
/// would not fit memory either.
pub(crate) fn one_more(count: Option<u32>) -> Result<Option<u32>, AllocError>
    ensures { IfOk result (λ more. more ≡ one_more count) }
{
    match count {
        None => Ok(None),
        Some(count) => match count.checked_add(1) {
            Some(more) => Ok(Some(more)),
            None => Err(AllocError),
        },
    }
}

/// The less of two.
pub(crate) fn fewer(one: Option<u32>, other: Option<u32>) -> Option<u32>
    ensures { result ≡ fewer one other }
{
    match one {
        None => other,
        Some(one) => match other {
            None => Some(one),
            Some(other) => Some(one.min(other)),
        },
    }
}
