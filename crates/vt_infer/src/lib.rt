//! Which types a program has at each of its decisions.
//!
//! [`infer`] gives them: one pass over a program in the core, at every decision of a space at once. What it
//! finds out is in `specs/Inferred.antt`; read it first, and then `inference.rt`, `definitions.rt` and
//! `expression.rt`. An expression is looked at once, whatever the number of decisions; `specs/Inferring.antt`
//! says what that does to the cells at one decision. What holds of the typing rules alone is passed on from
//! `vt_rules`: laws about all programs in `laws`, and what the rules say of small programs in `witnesses`.
#![tactic(auto)]

mod constant;
mod definitions;
mod environment;
mod expression;
mod holes;
mod inference;
mod joining;
mod leaf_cells;
mod naming;
mod steps;
mod typed;
mod variables;
mod work;

pub use inference::infer;
pub use typed::{LeafCells, Marks, Schemes, Typed};
pub use vt_rules::{laws, witnesses};
