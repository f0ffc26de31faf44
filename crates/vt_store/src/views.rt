//! What a store answers about a cell at one decision.
use crate::CellId;
use vt_type::Head;

/// What the cell itself is bound to.
#[derive(Clone, Copy, Debug)]
pub enum End<'a> {
    Open,
    Link(CellId),
    Con(Head, &'a [CellId]),
}

/// What a cell is bound to once links are followed: the open cell that they lead to, or a head over cells.
#[derive(Clone, Copy, Debug)]
pub enum Look<'a> {
    Open(CellId),
    Con(Head, &'a [CellId]),
}
