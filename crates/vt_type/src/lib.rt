//! Types with named choices: what they are, what they are at one decision, and their canonical form.
//!
//! A crate above has from here the two kinds of type (`Plain`, and `VType` with choices and the
//! error), each contract in terms of the definitions in `specs/`; the canonical form, by which two
//! types are compared up to the names of variables; the names of a program, each under a number; and
//! the constants of the language with their closed types. What a call takes as a type has to be well
//! formed wherever its contract says so, and what a call gives then is.
//!
//! Read `specs/Plain.antt` first, then `specs/Variational.antt`; `laws` states what holds of the
//! definitions alone.
#![tactic(auto)]

mod canonical;
mod change;
mod constants;
mod core_constants;
mod errors;
mod first_paths;
mod head;
mod instance;
pub mod laws;
mod names;
mod nodes;
mod path;
mod plain;
mod same;
mod select;
mod subterms;
mod vtype;

pub use canonical::canon;
pub use change::ChangeLine;
pub use constants::{ConstId, Constants};
pub use first_paths::FirstPaths;
pub use head::Head;
pub use instance::instance_of;
pub use names::{Names, Tables};
pub use path::Path;
pub use plain::{Plain, PlainKids};
pub use vtype::{Selected, VKids, VType};
