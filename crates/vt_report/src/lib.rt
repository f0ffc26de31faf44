//! The fixed lines of answers, and the report of a program that has no type.
//!
//! A file that is refused is refused for one [`Refusal`], and [`refusal_line`] is the line that says so.
//! [`change_lines`] is the report of an ill-typed program: its heading, and a line for each change that
//! cures it. Read `specs/Lines.antt` and `specs/Reports.antt`.
#![tactic(auto)]

mod line;
mod refusal;
mod report;
mod writing;

pub use line::refusal_line;
pub use refusal::Refusal;
pub use report::change_lines;
