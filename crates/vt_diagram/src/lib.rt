//! Shared diagrams: what is given at each decision, kept once.
//!
//! A [`Table`] has diagrams under numbers. At each decision a diagram has a value: it is one value, or a
//! choice by a dimension between two diagrams. Dimensions rise on every way down, the two sides of a
//! choice differ, and no diagram stands twice, so two numbers are equal exactly where the two have one
//! value at every decision. A region, a set of decisions, is a diagram that is not 0 exactly in it. A
//! number keeps its meaning while the table grows.
//!
//! Contracts speak of what a number has at a decision: read `specs/Trees.antt` first, then
//! `specs/Tables.antt` and `specs/Regions.antt`, and `table.rt`. What is made of two diagrams is one
//! recursion, `Table::combined`, for every operation.
#![tactic(auto)]

mod combining;
mod counts;
mod entries;
mod entry;
mod ids;
mod operation;
mod parting;
mod question;
mod region;
mod renamed;
mod spending;
mod split;
mod table;

pub use entry::Entry;
pub use ids::DiagramId;
pub use parting::{Cut, Part};
pub use table::Table;
