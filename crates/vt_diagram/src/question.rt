use crate::DiagramId;
use crate::operation::Operation;

/// What is asked of a table, and may be asked again.
#[derive(Clone, Copy, Debug, PartialEq, Eq, PartialOrd, Ord)]
pub(crate) struct Question {
    /// How many dimensions may be `Right`, where there is a bound.
    pub(crate) budget: Option<u32>,
    pub(crate) operation: Operation,
    pub(crate) one: DiagramId,
    pub(crate) other: DiagramId,
}
