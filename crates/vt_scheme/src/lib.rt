//! Types that are kept apart from a store, to be copied into one again and again.
//!
//! A [`Scheme`] has cells of its own: those that some cells of a store and one more, its root, lead to.
//! [`freeze`] takes it out of a store, [`instance`] copies it into one. At each decision a scheme allows
//! exactly the types that the store gave to these cells, and a copy takes each of them with each old
//! solution. Read `specs/Schemes.antt` first, and then `scheme.rt`.
#![tactic(auto)]

mod scheme;

pub use scheme::{Copied, Scheme, freeze, instance};
