//! Trials of the crates from decisions to inference: what no contract says of them.
//!
//! Each module calls the public functions of one crate, each with ample memory, and compares what
//! they answer with values written by hand. A function that always answered that memory ran out
//! would meet its contract, and is refused here. The trials stand apart so that no crate is proved again
//! for its own. Look at `spelling` first: it reads and writes the types that the others compare.
#![tactic(auto)]

#[cfg(test)]
mod changes;
#[cfg(test)]
mod decisions;
#[cfg(test)]
mod diagrams;
#[cfg(test)]
mod inference;
#[cfg(test)]
mod normal_forms;
#[cfg(test)]
mod readings;
#[cfg(test)]
mod schemes;
#[cfg(test)]
mod shown;
#[cfg(test)]
mod spelling;
#[cfg(test)]
mod stores;
#[cfg(test)]
mod types;
#[cfg(test)]
mod unification;
