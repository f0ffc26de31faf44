//! Cells that are bound to types, to one at each decision.
//!
//! A [`Store`] is a list of cells. At each decision of its space a cell has an end: it is open, or the
//! same as another cell, or a head over cells; and no cell contains itself. A [`Pattern`] says which
//! decisions are still alive. Both are kept as diagrams, in which a decision finds its way by the
//! sides that it takes. The layers above speak of ends and fates at decisions, and never of diagrams:
//! read `specs/Ends.antt` and `specs/Solutions.antt` first, then `store.rt` and `pattern.rt`. Some cells,
//! with all to which they lead, can be taken out as a store of their own: `specs/Parts.antt`. Cells that
//! say the same can be made one: `specs/Sharing.antt` and `specs/Narrowing.antt`.
#![tactic(auto)]

mod cell_list;
mod diagram;
mod fates;
mod found;
mod ids;
pub mod laws;
mod narrowing;
mod pattern;
mod sharing;
mod store;
mod views;
mod walk;

pub use cell_list::CellList;
pub use ids::CellId;
pub use pattern::Pattern;
pub use store::{Part, Shared, Store};
pub use views::{End, Look};
