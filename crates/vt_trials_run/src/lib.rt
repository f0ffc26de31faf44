//! Trials of the program: what it answers of whole files, and what its devices and lines do.
//!
//! Most are tables of a file and its answer, run over files and a sink in memory; their values were written
//! by hand. Look at `asking` first. The trials stand apart so that no crate is proved again for its own.
#![tactic(auto)]

#[cfg(test)]
mod asking;
#[cfg(test)]
mod commands;
#[cfg(test)]
mod devices;
#[cfg(test)]
mod examples;
#[cfg(test)]
mod forms;
#[cfg(test)]
mod grouping;
#[cfg(test)]
mod lines;
#[cfg(test)]
mod programs;
#[cfg(test)]
mod reports;
