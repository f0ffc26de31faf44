//! Trials of the crates that read a program: what no contract says of them.
//!
//! Each module calls the public functions of one crate, each with ample memory, and compares what
//! they answer with values written by hand. A function that always answered that memory ran out
//! would meet its contract, and is refused here. The trials stand apart so that no crate is proved again
//! for its own.
#![tactic(auto)]

#[cfg(test)]
mod cores;
#[cfg(test)]
mod programs;
#[cfg(test)]
mod scopes;
#[cfg(test)]
mod tokens;
