//! The normal form of a variational type: the one type that selects the same at every decision and in
//! which each choice stands as deep as it can, and only where the variants differ. Two types are
//! equivalent exactly where they have one normal form.
//!
//! Begin at `normal_form`: it takes a type apart by its `diagram`, the root of the type as a tree of
//! decisions, and builds the result from `parts` of the type. `laws` has what follows from the
//! definition of a normal form alone.
//!
//! [`read_out`] gives the normal form of what a cell of a store reads as. It takes no type: `reading`
//! builds the result from the root down, place by place, where `front` is what stands at a place at
//! each decision, `resolving` follows links, and `names` keeps where each variable stood first. What it
//! promises is in `specs/ReadOut.antt`. [`read_pair`] reads two cells at one decision.
#![tactic(auto)]

mod compare;
mod diagram;
mod fault;
mod from_store;
mod front;
pub mod laws;
mod names;
mod normal_form;
mod pairing;
mod part;
mod parts;
mod places;
mod reading;
mod resolving;
mod root;
mod rooting;
mod sole;

pub use compare::equivalent;
pub use fault::OutFault;
pub use from_store::read_out;
pub use normal_form::{normal, normal_within};
pub use pairing::{PlainPair, read_pair};
