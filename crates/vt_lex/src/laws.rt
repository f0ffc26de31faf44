//! A text has one reading: one list of tokens, or one first miss.
ghost use Rattle.vt_lex.specs.Lexing.{HasOneReading, HasOneMiss, NeverReadsAndMisses};

/// Characters have at most one list of tokens and at most one first miss, and never both.
pub fn one_reading()
    ensures tokens { HasOneReading }
    ensures miss { HasOneMiss }
    ensures never_both { NeverReadsAndMisses }
{}
