//! From a program as it is written to its core.
//!
//! [`resolve`] gives each name its binder or its constant, each dimension its number, each node its
//! number in checking order, and lists the leaves by their place; or it names the first place that it
//! refuses. `specs/Cores.antt` says what the core of a program is, `specs/Faults.antt` what is refused;
//! read them first. `laws` states that a program has at most one core, and that it does not matter
//! whether a decision selects from the program or from its core.
#![tactic(auto)]

mod expressions;
mod fault;
pub mod laws;
mod resolving;
mod scope;
mod walk;

pub use fault::ScopeFault;
pub use resolving::{Resolved, resolve};
