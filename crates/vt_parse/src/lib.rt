//! Programs of tokens.
//!
//! A list of tokens spells at most one program. [`parse`] gives it, or the first token that no program
//! has there, or that only programs have that are nested too deep; `specs/Answer.antt` says which, by
//! the relation of vt_syntax between tokens and programs. Read it first; `specs/Laws.antt` says what
//! follows of it.
//!
//! The functions from `stepping` down do one step of the machine of vt_grammar, which reads what is
//! spelled, and only that: so [`parse`] is a loop of steps, with a test of the depth after each.
#![tactic(auto)]

mod beginning;
mod closing;
mod ending;
mod fault;
mod finishing;
pub mod laws;
mod leaves;
mod moving;
mod parsing;
mod reduce;
mod stepping;

pub use fault::ParseFault;
pub use parsing::parse;
