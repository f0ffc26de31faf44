//! What the walks over cells answer.
use vt_dec::Dim;
use vt_store::CellId;

/// Where a cell's links lead in a context.
#[derive(Clone, Copy, Debug, PartialEq, Eq)]
pub(crate) enum Root {
    /// It depends on the side of this dimension.
    Split(Dim),
    /// To this cell, and from there no further.
    At(CellId),
}

/// Whether a cell is another one or contains it, at the decisions of a context.
#[derive(Clone, Copy, Debug, PartialEq, Eq)]
pub(crate) enum Reach {
    /// It may depend on the side of this dimension.
    Split(Dim),
    /// At each decision.
    Yes,
    /// At none.
    Never,
}
