//! The program: [`run`] reads the words, fetches the file, and puts one text.
//!
//! The contract of `run` is what the whole product promises. Read `specs/Answers.antt` first: it has the
//! table of answers, each with when it comes.
#![tactic(auto)]

mod answer;
mod entry;
pub mod laws;
mod status;
mod typing;

pub use entry::run;
pub use status::Status;
