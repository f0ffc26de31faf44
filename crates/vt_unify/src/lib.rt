//! Two cells made equal at each decision of a context.
//!
//! The layer above has one call from here, [`unify`]. It makes two cells of a store equal at every
//! decision of a context that is alive: the solutions afterwards are exactly those in which the two
//! are equal, and a decision at which there is none is dead with the node from then on. At all other
//! decisions nothing changes, and no cell is added. Read `specs/Unified.antt` first, which says just
//! this, and then `unifier.rt`.
//!
//! Inside, pairs of cells that are still to be compared stand in a list (`pairs.rt`), each in a context
//! of its own. `next_binding.rt` takes them apart until an open cell has to be bound; `compare.rt` says
//! what two cells are to each other, over two walks that follow links (`root.rt`) and that look for a
//! cell inside another one (`reaches.rt`). A context is split only where what was found differs between
//! its decisions.
#![tactic(auto)]

mod answers;
mod cell_set;
mod compare;
mod life;
mod named;
mod next_binding;
mod pairs;
mod reaches;
mod replace;
mod root;
mod samples;
mod search;
mod seen;
mod sole;
mod unifier;

pub use unifier::unify;
