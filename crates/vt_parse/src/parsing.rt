//! The program that tokens spell.
ghost use Rattle.std.specs.Prelude.{◌↔◌, ◌≡◌, ◌*◌, ◌<◌, ◌≤◌, length, IsTrue, IfOk};
ghost use Rattle.vt_lex.specs.declared.token.TokenKind.TheVariants.{Dim};
ghost use Rattle.vt_lex.specs.Spans.{IsSpanIn, AreSpansIn, BeginWithAt, BeginsWithAt};
ghost use Rattle.vt_syntax.specs.Spelling.{most_depth};
ghost use Rattle.vt_syntax.specs.Programs.{program_nodes};
ghost use Rattle.vt_parse.specs.Answer.{IsParsed};
ghost use Rattle.vt_grammar.specs.Machine.{step, depth_at, need};
ghost use Rattle.vt_grammar.specs.Frames.{IsAdmitted};
ghost use Rattle.vt_parse.specs.Reading.{IsOutcome};

use crate::ParseFault;
use crate::finishing::finish;
use crate::stepping::step;
use std::alloc::{AllocError, Global};
use vt_grammar::{Next, Reader, Stack, admitted};
use vt_lex::Token;
use vt_syntax::Program;

/// The program that the tokens of a text spell, if it is admitted. Otherwise the first token that no
/// admitted program has there. A fault of memory says nothing of the tokens.
pub fn parse(alloc: Global, text: &str, tokens: &[Token]) -> Result<Program, ParseFault>
    requires spans { AreSpansIn text.now tokens.now }
    requires dimensions { BeginWithAt text.now tokens.now }
    ensures parsed { IsParsed text.now tokens.now result }
    ensures few { IfOk result (λ program. program_nodes program < 4 * length tokens.now) }
{
    let mut reader = Reader::new(alloc);
    for (index, token) in tokens.iter().enumerate() {
        let outcome = advance(alloc, text, reader, *token)?;
        match outcome {
            Outcome::To(next) => reader = next,
            Outcome::Unexpected => return Err(ParseFault::Unexpected { token: index }),
            Outcome::TooDeep => return Err(ParseFault::TooDeep { token: index }),
        }
    }
    let program = finish(alloc, reader)?;
    match program {
        Some(program) => Ok(program),
        None => Err(ParseFault::Unexpected {
            token: tokens.len(),
        }),
    }
}

// What one more token comes to.
enum Outcome {
    To(Reader),
    Unexpected,
    TooDeep,
}

// One more token.
fn advance(alloc: Global, text: &str, reader: Reader, token: Token) -> Result<Outcome, AllocError>
    requires admitted { need reader ≤ most_depth }
    requires span { IsSpanIn text.now token.span }
    requires sign { token.kind ≡ Dim → BeginsWithAt text.now token.span }
    ensures { IfOk result (IsOutcome (step text.now reader token)) }
{
    let next = step(alloc, text, reader, token)?;
    Ok(outcome_of(next))
}

// The state after a token, if there is one and it is admitted.
fn outcome_of(next: Option<Reader>) -> Outcome
    ensures { IsOutcome next result }
{
    match next {
        None => Outcome::Unexpected,
        Some(next) => {
            if is_admitted(&next) {
                Outcome::To(next)
            } else {
                drop(next);
                Outcome::TooDeep
            }
        }
    }
}

// Whether some program that is admitted goes on from here.
fn is_admitted(reader: &Reader) -> bool
    ensures { IsTrue result ↔ need reader.now ≤ most_depth }
{
    admitted(reader.deepest).is_some() && depth_at(&reader.stack, &reader.next).is_some()
}

// How deep the whole is at least, if that is admitted.
fn depth_at(stack: &Stack, next: &Next) -> Option<usize>
    ensures { IsAdmitted (depth_at stack.now next.now) result }
{
    match next {
        Next::Wanted => stack.depth_wanted(),
        Next::Awaits(_) => stack.depth_over(0, 1),
        Next::Read(operand) => {
            let depth = admitted(operand.depth)?;
            stack.depth_over(0, depth)
        }
    }
}
