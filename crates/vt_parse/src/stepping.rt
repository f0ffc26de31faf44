//! One token.
ghost use Rattle.std.specs.Prelude.{◌≡◌, ◌≤◌, IfOk};
ghost use Rattle.vt_lex.specs.declared.token.TokenKind.TheVariants.{Dim};
ghost use Rattle.vt_lex.specs.Spans.{IsSpanIn, BeginsWithAt};
ghost use Rattle.vt_syntax.specs.Spelling.{most_depth};
ghost use Rattle.vt_grammar.specs.declared.start.Opening.TheVariants.{Choice};
ghost use Rattle.vt_grammar.specs.Words.{start_of, operator_of};
ghost use Rattle.vt_parse.specs.Reading.{is_operand};
ghost use Rattle.vt_grammar.specs.Machine.{await, join, argument, follow, continue, step, depth_over, need};

use crate::beginning::{begin, want};
use crate::ending::end_at;
use crate::moving::after_mark;
use crate::reduce::reduce;
use std::alloc::{AllocError, Global};
use vt_grammar::{Frame, Mark, Next, Operand, Reader, Start, mark_of, operator_of, start_of};
use vt_lex::{Span, Token};
use vt_syntax::{Op, left_level};

/// The reader after this token, if some program goes on with it.
pub(crate) fn step(
    alloc: Global,
    text: &str,
    reader: Reader,
    token: Token,
) -> Result<Option<Reader>, AllocError>
    requires admitted { need reader ≤ most_depth }
    requires span { IsSpanIn text.now token.span }
    requires sign { token.kind ≡ Dim → BeginsWithAt text.now token.span }
    ensures { IfOk result (λ next. next ≡ step text.now reader token) }
{
    let Reader {
        defs,
        deepest,
        stack,
        next,
    } = reader;
    let reader = Reader {
        defs,
        deepest,
        stack,
        next: Next::Wanted,
    };
    match next {
        Next::Wanted => want(alloc, text, token, reader),
        Next::Awaits(mark) => Ok(await_mark(mark, mark_of(token.kind), reader)),
        Next::Read(operand) => continue_with(alloc, text, token, reader, operand),
    }
}

// A token where this sign is awaited.
fn await_mark(mark: Mark, found: Option<Mark>, reader: Reader) -> Option<Reader>
    ensures { result ≡ await mark found reader }
{
    match found {
        None => {
            drop(reader);
            None
        }
        Some(found) => {
            if mark.is_same(found) {
                Some(reader.placed(after_mark(mark)))
            } else {
                drop(reader);
                None
            }
        }
    }
}

// A token after an operand.
fn continue_with(
    alloc: Global,
    text: &str,
    token: Token,
    reader: Reader,
    operand: Operand,
) -> Result<Option<Reader>, AllocError>
    requires admitted { depth_over reader.stack operand.depth ≤ most_depth }
    requires span { IsSpanIn text.now token.span }
    requires sign { token.kind ≡ Dim → BeginsWithAt text.now token.span }
    ensures { IfOk result (λ next. next ≡ continue text.now (operator_of token.kind) token reader operand) }
{
    match operator_of(token.kind) {
        Some(op) => join(alloc, Some(op), token.span, reader, operand),
        None => follow(alloc, text, token, reader, operand),
    }
}

// A token after an operand that is no operator.
fn follow(
    alloc: Global,
    text: &str,
    token: Token,
    reader: Reader,
    operand: Operand,
) -> Result<Option<Reader>, AllocError>
    requires admitted { depth_over reader.stack operand.depth ≤ most_depth }
    requires span { IsSpanIn text.now token.span }
    requires sign { token.kind ≡ Dim → BeginsWithAt text.now token.span }
    ensures { IfOk result (λ next. next ≡ follow text.now (start_of token.kind) token reader operand) }
{
    let start = start_of(token.kind);
    if is_operand(start) {
        let joined = join(alloc, None, token.span, reader, operand)?;
        argument(alloc, text, start, token.span, joined)
    } else {
        end_at(alloc, mark_of(token.kind), token.span, reader, operand)
    }
}

// What is applied, if it may be, to what this token begins.
fn argument(
    alloc: Global,
    text: &str,
    start: Start,
    at: Span,
    joined: Option<Reader>,
) -> Result<Option<Reader>, AllocError>
    requires span { IsSpanIn text.now at }
    requires sign { start ≡ Start.Opens Choice → BeginsWithAt text.now at }
    ensures { IfOk result (λ next. next ≡ argument text.now start at joined) }
{
    match joined {
        None => Ok(None),
        Some(reader) => begin(alloc, text, start, at, reader),
    }
}

// Whether an operand begins so, which may be an argument.
fn is_operand(start: Start) -> bool
    ensures { result ≡ is_operand start }
{
    match start {
        Start::Leaf(_) => true,
        Start::Opens(_) => true,
        _ => false,
    }
}

// An operator, or nothing, after an operand.
fn join(
    alloc: Global,
    op: Option<Op>,
    at: Span,
    reader: Reader,
    operand: Operand,
) -> Result<Option<Reader>, AllocError>
    requires { depth_over reader.stack operand.depth ≤ most_depth }
    ensures { IfOk result (λ next. next ≡ join op at reader operand) }
{
    let mut reader = reader;
    match reduce(alloc, left_level(op), &mut reader.stack, operand) {
        Ok(left) => {
            if reader.stack.may_join(op) {
                Ok(Some(reader.opened(Frame::Joint(op, at, left), Next::Wanted)?))
            } else {
                drop(reader);
                drop(left);
                Ok(None)
            }
        }
        Err(fault) => {
            drop(reader);
            Err(fault)
        }
    }
}
