//! A token where an expression or a name is wanted.
ghost use Rattle.std.specs.Prelude.{◌≡◌, ◌∷◌, if◌then◌else◌, IfOk};
ghost use Rattle.vt_lex.specs.Spans.{IsSpanIn, BeginsWithAt};
ghost use Rattle.vt_syntax.specs.Spelling.{part};
ghost use Rattle.vt_grammar.specs.declared.start.Opening.TheVariants.{Choice};
ghost use Rattle.vt_grammar.specs.Frames.{operand_of, binder_at, stated, with_name, mark_after_name};
ghost use Rattle.vt_grammar.specs.Machine.{moved, may_state, end_empty, define, begin, name_recursive, name, want};

use crate::closing::across;
use crate::leaves::{after_opening, binder_at, leaf_at, opened, stated};
use crate::moving::{made_recursive, mark_after_name, with_name};
use std::alloc::{AllocError, Global};
use vt_grammar::{
    Frame, NameStart, Naming, Next, Operand, Reader, Start, Statement, name_start_of, start_of,
};
use vt_lex::{Span, Token, TokenKind};
use vt_syntax::{Expr, ExprForm, Exprs};

/// A token where an expression or a name is wanted.
pub(crate) fn want(
    alloc: Global,
    text: &str,
    token: Token,
    reader: Reader,
) -> Result<Option<Reader>, AllocError>
    requires span { IsSpanIn text.now token.span }
    requires sign { token.kind ≡ TokenKind.Dim → BeginsWithAt text.now token.span }
    ensures { IfOk result (λ next. next ≡ want text.now token reader reader.stack) }
{
    let mut reader = reader;
    match reader.stack.pop_naming() {
        None => begin(alloc, text, start_of(token.kind), token.span, reader),
        Some(naming) => name(alloc, text, naming, token.kind, token.span, reader),
    }
}

/// A token where an expression is wanted.
pub(crate) fn begin(
    alloc: Global,
    text: &str,
    start: Start,
    at: Span,
    reader: Reader,
) -> Result<Option<Reader>, AllocError>
    requires span { IsSpanIn text.now at }
    requires sign { start ≡ Start.Opens Choice → BeginsWithAt text.now at }
    ensures { IfOk result (λ next. next ≡ begin text.now start at reader) }
{
    match start {
        Start::Leaf(leaf) => {
            match leaf_at(alloc, text, leaf, at) {
                Ok(operand) => Ok(Some(reader.placed(Next::Read(operand)))),
                Err(fault) => {
                    drop(reader);
                    Err(fault)
                }
            }
        }
        Start::Opens(opening) => {
            match opened(alloc, text, opening, at) {
                Ok(frame) => Ok(Some(reader.opened(frame, after_opening(opening))?)),
                Err(fault) => {
                    drop(reader);
                    Err(fault)
                }
            }
        }
        Start::Form(statement) => state(statement, at, reader),
        Start::Definition => define(reader),
        Start::ListEnd => Ok(end_empty(at, reader)),
        Start::Nothing => {
            drop(reader);
            Ok(None)
        }
    }
}

// The first word of a form.
fn state(statement: Statement, at: Span, reader: Reader) -> Result<Option<Reader>, AllocError>
    ensures { IfOk result (λ next. next ≡ (if may_state reader.stack then Some (moved reader (stated statement at ∷ reader.stack) Next.Wanted) else None)) }
{
    if reader.stack.may_state() {
        Ok(Some(reader.opened(stated(statement, at), Next::Wanted)?))
    } else {
        drop(reader);
        Ok(None)
    }
}

// The first word of a definition.
fn define(reader: Reader) -> Result<Option<Reader>, AllocError>
    ensures { IfOk result (λ next. next ≡ define reader reader.stack) }
{
    if reader.stack.is_empty() {
        let frame = Frame::Naming(Naming::DefName { recursive: false });
        Ok(Some(reader.opened(frame, Next::Wanted)?))
    } else {
        drop(reader);
        Ok(None)
    }
}

// The end of a list without elements.
fn end_empty(at: Span, reader: Reader) -> Option<Reader>
    ensures { result ≡ end_empty at reader reader.stack }
{
    let mut reader = reader;
    match reader.stack.pop_square() {
        None => {
            drop(reader);
            None
        }
        Some(from) => Some(reader.placed(Next::Read(empty_list(across(from, at))))),
    }
}

// A list without elements.
fn empty_list(span: Span) -> Operand
    ensures { result ≡ operand_of (part span (ExprForm.List Exprs.Nil) 1) }
{
    Operand {
        expr: Expr {
            span,
            form: ExprForm::List(Exprs::Nil),
        },
        span,
        depth: 1,
    }
}

/// A token where a name is wanted.
pub(crate) fn name(
    alloc: Global,
    text: &str,
    naming: Naming,
    kind: TokenKind,
    at: Span,
    reader: Reader,
) -> Result<Option<Reader>, AllocError>
    requires { IsSpanIn text.now at }
    ensures { IfOk result (λ next. next ≡ name text.now naming kind at reader reader.stack) }
{
    match name_start_of(kind) {
        NameStart::Name => name_here(alloc, text, naming, at, reader),
        NameStart::Recursive => name_recursive(made_recursive(naming), reader),
        NameStart::Nothing => {
            drop(naming);
            drop(reader);
            Ok(None)
        }
    }
}

// The name has come.
fn name_here(
    alloc: Global,
    text: &str,
    naming: Naming,
    at: Span,
    reader: Reader,
) -> Result<Option<Reader>, AllocError>
    requires { IsSpanIn text.now at }
    ensures { IfOk result (λ next. next ≡ Some (moved reader (with_name naming (binder_at text.now at) ∷ reader.stack) (Next.Awaits (mark_after_name naming)))) }
{
    let mark = mark_after_name(&naming);
    match binder_at(alloc, text, at) {
        Ok(binder) => {
            let reader = reader.opened(with_name(naming, binder), Next::Awaits(mark))?;
            Ok(Some(reader))
        }
        Err(fault) => {
            drop(naming);
            drop(reader);
            Err(fault)
        }
    }
}

// `rec` has come before the name.
fn name_recursive(naming: Option<Naming>, reader: Reader) -> Result<Option<Reader>, AllocError>
    ensures { IfOk result (λ next. next ≡ name_recursive reader reader.stack naming) }
{
    match naming {
        Some(naming) => Ok(Some(reader.opened(Frame::Naming(naming), Next::Wanted)?)),
        None => {
            drop(reader);
            Ok(None)
        }
    }
}
