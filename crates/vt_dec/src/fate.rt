use crate::NodeId;

/// What became of a decision: still alive, or dead since the node with this number was checked.
#[derive(Clone, Copy, Debug, PartialEq, Eq)]
pub enum Fate {
    Alive,
    Dead(NodeId),
}
