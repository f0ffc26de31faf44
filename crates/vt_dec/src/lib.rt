//! Decisions, and sets of decisions.
//!
//! A [`Decision`] takes a side for each of `64 * N` dimensions; contracts see it as the list of its
//! sides. A [`Space`] is the set of decisions that are looked at, and a [`Context`] has those of a
//! space that agree with the dimensions which it decides; it is never empty. The layers above speak of the
//! decisions that a context admits and of nothing else: read `specs/Decisions.antt` first, then
//! `decision.rt` and `context.rt`.
#![tactic(auto)]

mod context;
mod decision;
mod dim_set;
mod fate;
mod ids;
pub mod laws;
mod side;

pub use context::Context;
pub use decision::Decision;
pub use fate::Fate;
pub use ids::{Dim, NodeId};
pub use side::{Side, Space};
