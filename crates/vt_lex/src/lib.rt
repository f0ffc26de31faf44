//! Tokens and places.
//!
//! A text has one list of tokens, the longest at each place, or a first place at which no token stands.
//! [`lex`] gives exactly this list or exactly this place. `specs/Tokens.antt` says which characters
//! spell a token of each kind, `specs/Lexing.antt` what the list of a text is; read them first.
#![tactic(auto)]

mod fault;
pub mod laws;
mod lexer;
mod pieces;
mod place;
mod span;
mod spelling;
mod token;
mod word;

pub use fault::LexFault;
pub use lexer::lex;
pub use place::{LineCol, line_col};
pub use span::Span;
pub use token::{Key, Sign, Token, TokenKind};
pub use word::{Word, dim_at, word_at};
