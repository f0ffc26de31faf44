use crate::DiagramId;
use vt_dec::Dim;

/// The top of a diagram: a value, or a choice between two diagrams that stand earlier.
#[derive(Clone, Copy, Debug, PartialEq, Eq, PartialOrd, Ord)]
pub enum Entry {
    Leaf(u32),
    Choice(Dim, DiagramId, DiagramId),
}
