//! The reader's state, and the machine that it is a state of.
//!
//! The machine reads a list of tokens from left to right, with a stack of the constructs that are open.
//! Read `specs/Machine.antt` first. It stands on `specs/Words.antt` (what each kind of token can be) and
//! `specs/Frames.antt` (what each open construct waits for, what it becomes, and how deep it is).
//!
//! The layer above is promised, by the lemmas that `proofs/Backbone.antt` lists, that the machine reads
//! what is spelled and only that; that the tokens that lead to a state begin a program that is just as
//! deep as `need` says; and that `need` never falls. A [`Reader`] is a state. Each function here answers
//! what the definition of its name says.
#![tactic(auto)]

mod definitions;
mod depth;
mod frame;
mod mark;
mod operand;
mod reader;
mod seen;
mod stack;
mod start;
mod words;

pub use definitions::Definitions;
pub use depth::admitted;
pub use frame::{Frame, Middle, Naming, Next, Right, Tail};
pub use mark::Mark;
pub use operand::{Binder, Operand};
pub use reader::Reader;
pub use stack::Stack;
pub use start::{Leaf, NameStart, Opening, Start, Statement};
pub use words::{mark_of, name_start_of, operator_of, start_of};
