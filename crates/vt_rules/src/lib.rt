//! What it means that a program has a type.
//!
//! A crate above has from here which types a program without choices has, by the rules of Damas and
//! Milner with `let` read as a set of types; which type is principal; what a program with choices means
//! at each decision; which node of an ill-typed program fails first; and which changes cure it. These
//! are definitions, in `specs/`, and no code. What holds of them is stated as contracts of functions
//! that do nothing: laws about all programs in [`laws`], and what the definitions say of small programs
//! in [`witnesses`].
//!
//! Read `specs/Env.antt` and `specs/Typing.antt` first, then `specs/Principal.antt`, `specs/Meaning.antt`,
//! `specs/Failing.antt` and `specs/Changes.antt`; `specs/Laws.antt` says what follows from them.
#![tactic(auto)]

pub mod laws;
pub mod witnesses;
