//! A sign or word after an operand, in the construct that waits for it.
ghost use Rattle.std.specs.Prelude.{◌≡◌, ◌∷◌, ◌++◌, [], suc, ◌≤◌, max, false, if◌then◌else◌, IfOk};
ghost use Rattle.vt_syntax.specs.SurfaceTrees.{exprs};
ghost use Rattle.vt_syntax.specs.Spelling.{part, most_depth};
ghost use Rattle.vt_grammar.specs.Frames.{operand_of, awaited, passed, after_part, defined, deeper};
ghost use Rattle.vt_grammar.specs.Seen.{is_list};
ghost use Rattle.vt_grammar.specs.Machine.{moved, same_mark, depth_over, reduce, end_list, list_mark, paren_mark, end_part, end_at};

use crate::closing::{across, enclosed, wrapped};
use crate::moving::{after_part, awaited, bracket, passed};
use crate::reduce::reduce;
use std::alloc::{AllocError, Global};
use vt_grammar::{Binder, Frame, Mark, Middle, Next, Operand, Reader, Right};
use vt_lex::Span;
use vt_syntax::{Def, Expr, ExprForm, Exprs};

/// A sign or word after an operand, if it is one, which closes what needs none.
pub(crate) fn end_at(
    alloc: Global,
    mark: Option<Mark>,
    at: Span,
    reader: Reader,
    operand: Operand,
) -> Result<Option<Reader>, AllocError>
    requires { depth_over reader.stack operand.depth ≤ most_depth }
    ensures { IfOk result (λ next. next ≡ end_at mark at reader (reduce 0 reader.stack operand)) }
{
    match mark {
        None => {
            drop(reader);
            drop(operand);
            Ok(None)
        }
        Some(mark) => {
            let mut reader = reader;
            match reduce(alloc, 0, &mut reader.stack, operand) {
                Ok(last) => end_part(alloc, mark, at, reader, last),
                Err(fault) => {
                    drop(reader);
                    Err(fault)
                }
            }
        }
    }
}

// The same once nothing more is closed without a sign.
fn end_part(
    alloc: Global,
    mark: Mark,
    at: Span,
    reader: Reader,
    operand: Operand,
) -> Result<Option<Reader>, AllocError>
    requires { depth_over reader.stack operand.depth ≤ most_depth }
    ensures { IfOk result (λ next. next ≡ end_part mark at reader reader.stack operand) }
{
    let mut reader = reader;
    if reader.stack.is_list() {
        list_mark(alloc, mark, at, reader, operand)
    } else {
        match reader.stack.pop() {
            None => {
                drop(reader);
                drop(operand);
                Ok(None)
            }
            Some(frame) => end_part_in(alloc, mark, at, frame, reader, operand),
        }
    }
}

// The same in a construct that is no list.
fn end_part_in(
    alloc: Global,
    mark: Mark,
    at: Span,
    frame: Frame,
    reader: Reader,
    operand: Operand,
) -> Result<Option<Reader>, AllocError>
    requires admitted { depth_over reader.stack (deeper frame operand.depth) ≤ most_depth }
    requires no_list { is_list frame ≡ false }
    ensures { IfOk result (λ next. next ≡ end_part mark at reader (frame ∷ reader.stack) operand) }
{
    match frame {
        Frame::Middle(middle) => pass(mark, middle, reader, operand),
        Frame::Right(right) => enclose(alloc, mark, at, right, reader, operand),
        Frame::Paren(from) => paren_mark(mark, at, from, reader, operand),
        Frame::Body { recursive, name } => end_body(mark, recursive, name, reader, operand),
        other => {
            drop(other);
            drop(reader);
            drop(operand);
            Ok(None)
        }
    }
}

// The sign after a part that another part follows.
fn pass(
    mark: Mark,
    middle: Middle,
    reader: Reader,
    operand: Operand,
) -> Result<Option<Reader>, AllocError>
    ensures { IfOk result (λ next. next ≡ (if same_mark mark (awaited middle) then Some (moved reader (passed middle operand ∷ reader.stack) (after_part middle)) else None)) }
{
    if mark.is_same(awaited(&middle)) {
        let next = after_part(&middle);
        Ok(Some(reader.opened(passed(middle, operand), next)?))
    } else {
        drop(middle);
        drop(reader);
        drop(operand);
        Ok(None)
    }
}

// The bracket after the second of two parts.
fn enclose(
    alloc: Global,
    mark: Mark,
    at: Span,
    right: Right,
    reader: Reader,
    operand: Operand,
) -> Result<Option<Reader>, AllocError>
    requires { depth_over reader.stack (deeper (Frame.Right right) operand.depth) ≤ most_depth }
    ensures { IfOk result (λ next. next ≡ end_part mark at reader (Frame.Right right ∷ reader.stack) operand) }
{
    if mark.is_same(bracket(&right)) {
        match enclosed(alloc, right, operand, at) {
            Ok(whole) => Ok(Some(reader.placed(Next::Read(whole)))),
            Err(error) => {
                drop(reader);
                Err(error)
            }
        }
    } else {
        drop(right);
        drop(reader);
        drop(operand);
        Ok(None)
    }
}

// A sign after an expression in parentheses: their end, or a comma.
fn paren_mark(
    mark: Mark,
    at: Span,
    from: Span,
    reader: Reader,
    operand: Operand,
) -> Result<Option<Reader>, AllocError>
    requires { depth_over reader.stack (suc operand.depth) ≤ most_depth }
    ensures { IfOk result (λ next. next ≡ paren_mark mark at reader from reader.stack operand) }
{
    if mark.is_same(Mark::ParenClose) {
        let whole = wrapped(from, at, operand);
        Ok(Some(reader.placed(Next::Read(whole))))
    } else if mark.is_same(Mark::Comma) {
        let frame = Frame::Right(Right::Pair {
            from,
            left: operand,
        });
        Ok(Some(reader.opened(frame, Next::Wanted)?))
    } else {
        drop(reader);
        drop(operand);
        Ok(None)
    }
}

// A sign after an element of a list: a semicolon, or the end.
fn list_mark(
    alloc: Global,
    mark: Mark,
    at: Span,
    reader: Reader,
    operand: Operand,
) -> Result<Option<Reader>, AllocError>
    requires { depth_over reader.stack operand.depth ≤ most_depth }
    ensures { IfOk result (λ next. next ≡ list_mark mark at reader reader.stack operand) }
{
    if mark.is_same(Mark::Semicolon) {
        Ok(Some(reader.opened(Frame::Element(operand), Next::Wanted)?))
    } else if mark.is_same(Mark::SquareClose) {
        end_list(alloc, at, reader, operand)
    } else {
        drop(reader);
        drop(operand);
        Ok(None)
    }
}

// Takes in the elements before the last one, up to the bracket.
fn end_list(
    alloc: Global,
    at: Span,
    reader: Reader,
    last: Operand,
) -> Result<Option<Reader>, AllocError>
    requires { depth_over reader.stack last.depth ≤ most_depth }
    ensures { IfOk result (λ next. next ≡ end_list at (exprs last.expr Exprs.Nil) (suc last.depth) reader reader.stack) }
{
    let mut reader = reader;
    let mut deepest = last.depth;
    let mut items = match Exprs::more(alloc, last.expr, Exprs::Nil) {
        Ok(items) => items,
        Err(fault) => {
            drop(reader);
            return Err(fault);
        }
    };
    while let Some(before) = reader.stack.pop_element() {
        deepest = before.depth.max(deepest + 1);
        items = match Exprs::more(alloc, before.expr, items) {
            Ok(items) => items,
            Err(fault) => {
                drop(reader);
                return Err(fault);
            }
        };
    }
    match reader.stack.pop_square() {
        None => {
            drop(items);
            drop(reader);
            Ok(None)
        }
        Some(from) => {
            let whole = list_of(across(from, at), items, deepest);
            Ok(Some(reader.placed(Next::Read(whole))))
        }
    }
}

// A list whose deepest element counts as this deep.
fn list_of(span: Span, items: Exprs, deepest: usize) -> Operand
    requires { deepest ≤ most_depth }
    ensures { result ≡ operand_of (part span (ExprForm.List items) (suc deepest)) }
{
    Operand {
        expr: Expr {
            span,
            form: ExprForm::List(items),
        },
        span,
        depth: deepest + 1,
    }
}

// The semicolon after the body of a definition.
fn end_body(
    mark: Mark,
    recursive: bool,
    name: Binder,
    reader: Reader,
    body: Operand,
) -> Result<Option<Reader>, AllocError>
    ensures { IfOk result (λ next. next ≡ (if same_mark mark Mark.Semicolon then Some (record { defs = reader.defs ++ defined recursive name body ∷ []; deepest = max reader.deepest body.depth; stack = reader.stack; next = Next.Wanted }) else None)) }
{
    if mark.is_same(Mark::Semicolon) {
        let Reader {
            defs,
            deepest,
            stack,
            next,
        } = reader;
        drop(next);
        let mut defs = defs;
        let deepest = deepest.max(body.depth);
        let def = Def {
            name: name.name,
            name_span: name.span,
            recursive,
            body: body.expr,
        };
        match defs.push(def) {
            Ok(()) => {
                let next = Next::Wanted;
                Ok(Some(Reader {
                    defs,
                    deepest,
                    stack,
                    next,
                }))
            }
            Err(fault) => {
                drop(defs);
                drop(stack);
                Err(fault)
            }
        }
    } else {
        drop(name);
        drop(reader);
        drop(body);
        Ok(None)
    }
}
