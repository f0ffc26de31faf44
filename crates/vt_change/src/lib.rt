//! The changes that cure a program.
//!
//! [`changes`] lists them: the leaves of an ill-typed program of which each, were it a hole, would leave a
//! program with a type; read `specs/Curing.antt` first. One inference does for all leaves: [`vary_leaves`]
//! makes each leaf a choice between itself and a hole, [`candidates`] types that program at the decisions
//! that take at most one hole, [`change_of`] reads out the change of one leaf, and [`rank`] puts changes in
//! order (`specs/Ranking.antt`). What a varied program is says `vt_syntax`, and what a change is `vt_rules`.
#![tactic(auto)]

mod answering;
mod fault;
mod leaf_numbers;
mod listing;
mod ranking;
mod typing;
mod varying;

pub use answering::{MOST_NODES, change_of};
pub use fault::ChangeFault;
pub use listing::changes;
pub use ranking::rank;
pub use typing::{MOST_LEAVES, Varied, candidates};
pub use varying::vary_leaves;
