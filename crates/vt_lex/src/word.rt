//! Names of a program.
ghost use Rattle.std.specs.Prelude.{◌≡◌, IfOk};
ghost use Rattle.vt_lex.specs.Spans.{IsSpanIn, BeginsWithAt, word_at, dim_at};

use crate::Span;
use std::alloc::{AllocError, Global};
use std::marker::Model;

/// A name of a program: its text, which contracts see as its bytes.
#[derive(Debug, Drop)]
pub struct Word {
    text: String,
}

impl Model for Word {
    ghost use Rattle.std.specs.Prelude.{List, ℕ, string_bytes};

    ghost Value = { List ℕ };

    ghost view = { λ word. string_bytes word.text };
}

impl Word {
    ghost use Rattle.std.specs.Prelude.{◌≡◌, string_bytes, IfOk};

    pub fn new(text: String) -> Word
        ensures { result ≡ string_bytes text }
    {
        Word { text }
    }

    pub fn as_str(&self) -> &str
        ensures { result.now ≡ self.now }
    {
        self.text.as_str()
    }

    /// The same word, in memory of its own.
    pub fn copied(&self, alloc: Global) -> Result<Word, AllocError>
        ensures { IfOk result (λ word. word ≡ self.now) }
    {
        Ok(Word::new(String::from_str(alloc, self.as_str())?))
    }
}

/// The text of a span.
pub fn word_at(alloc: Global, text: &str, span: Span) -> Result<Word, AllocError>
    requires { IsSpanIn text.now span }
    ensures { IfOk result (λ word. word ≡ word_at text.now span) }
{
    let word = &text[span.start as usize..span.end as usize];
    Ok(Word::new(String::from_str(alloc, word)?))
}

/// The name of a dimension, behind its at sign.
pub fn dim_at(alloc: Global, text: &str, span: Span) -> Result<Word, AllocError>
    requires span { IsSpanIn text.now span }
    requires sign { BeginsWithAt text.now span }
    ensures { IfOk result (λ word. word ≡ dim_at text.now span) }
{
    let word = &text[span.start as usize + 1..span.end as usize];
    Ok(Word::new(String::from_str(alloc, word)?))
}
