//! From the bytes of a file to its program in scope, or the refusal that it meets on the way.
//!
//! A file is a text, the text has tokens, these spell a program that is not nested too deep, and its
//! scope is not at fault; or [`read`] answers the first of these steps that fails, with its place.
//! `specs/Files.antt` says what a file is read as, `specs/Refusals.antt` which refusal comes when; read
//! them first. `laws` states that a file is read as one program, or refused for one reason, and never
//! both.
#![tactic(auto)]

mod fault;
pub mod laws;
mod places;
mod reading;
mod source;

pub use fault::FileFault;
pub use reading::{LARGEST_FILE, read};
pub use source::Source;
