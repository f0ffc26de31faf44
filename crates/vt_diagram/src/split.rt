use crate::DiagramId;
use vt_dec::Dim;

/// Two diagrams of one table side by side: two values, or a pair for either side of the first
/// dimension of the two.
pub(crate) enum Split {
    Values(u32, u32),
    Parts(Dim, (DiagramId, DiagramId), (DiagramId, DiagramId)),
}
