//! The texts of types: types are shown, and read again. `text_of` of vt_type says which text a type
//! has, and specs/Reading.antt which type a text spells: read these two first. A text spells at most
//! one type, and the text of a normal form is read as that normal form (`laws`).
//!
//! A text is written from left to right into one string, over the variables of the type, collected
//! once (letters.rt, writer.rt). It is read by descent over its bytes, each step of which does what
//! specs/Steps.antt says (reader.rt), and then the variables are named by where they appear first
//! (first_paths.rt).

#![tactic(auto)]

mod first_paths;
pub mod laws;
mod letters;
mod level;
mod read;
mod reader;
mod show;
mod variational;
mod writer;

pub use read::read_type;
pub use show::{show_pair, show_type};
