//! What an operand makes of the construct that it closes.
ghost use Rattle.std.specs.Prelude.{◌≡◌, suc, ◌^◌, ◌<◌, max, IfOk};
ghost use Rattle.vt_syntax.specs.Spelling.{across, wrapped};
ghost use Rattle.vt_grammar.specs.Frames.{part_of, operand_of, both, closed, enclosed, deeper_tail, deeper_right};

use std::alloc::{AllocError, Global};
use vt_grammar::{Binder, Operand, Right, Tail};
use vt_lex::Span;
use vt_syntax::{Expr, Op};

/// From the start of one span to the end of another.
pub(crate) fn across(from: Span, to: Span) -> Span
    ensures { result ≡ across from to }
{
    Span {
        start: from.start,
        end: to.end,
    }
}

/// The depth of a form whose deepest part has this depth.
pub(crate) fn one_deeper(deepest: usize) -> usize
    requires { suc deepest < 2 ^ 64 }
    ensures { result ≡ suc deepest }
{
    deepest + 1
}

/// Two sides, joined by an operator or by application.
pub(crate) fn both(
    alloc: Global,
    op: Option<Op>,
    at: Span,
    left: Operand,
    right: Operand,
) -> Result<Operand, AllocError>
    requires { suc (max left.depth right.depth) < 2 ^ 64 }
    ensures { IfOk result (λ operand. operand ≡ both op at left right) }
{
    let span = across(left.span, right.span);
    let depth = one_deeper(left.depth.max(right.depth));
    let expr = match op {
        Some(op) => Expr::operation(alloc, span, op, at, left.expr, right.expr)?,
        None => Expr::apply(alloc, span, left.expr, right.expr)?,
    };
    Ok(Operand { expr, span, depth })
}

/// A last part closes its construct.
pub(crate) fn closed(alloc: Global, tail: Tail, last: Operand) -> Result<Operand, AllocError>
    requires { deeper_tail tail last.depth < 2 ^ 64 }
    ensures { IfOk result (λ operand. operand ≡ closed tail last) }
{
    match tail {
        Tail::FunBody { from, name } => {
            let span = across(from, last.span);
            let depth = one_deeper(last.depth);
            let expr = Expr::fun(alloc, span, name.name, name.span, last.expr)?;
            Ok(Operand { expr, span, depth })
        }
        Tail::LetBody {
            from,
            recursive,
            name,
            bound,
        } => {
            let span = across(from, last.span);
            let depth = one_deeper(bound.depth.max(last.depth));
            let expr = Expr::let_in(
                alloc, span, recursive, name.name, name.span, bound.expr, last.expr,
            )?;
            Ok(Operand { expr, span, depth })
        }
        Tail::ElseBranch {
            from,
            condition,
            then,
        } => {
            let span = across(from, last.span);
            let depth = one_deeper(condition.depth.max(then.depth.max(last.depth)));
            let expr = Expr::if_else(alloc, span, condition.expr, then.expr, last.expr)?;
            Ok(Operand { expr, span, depth })
        }
        Tail::CellArm {
            from,
            list,
            empty,
            first,
            rest,
        } => closed_match(alloc, from, list, empty, first, rest, last),
    }
}

// The last arm closes its `match`.
fn closed_match(
    alloc: Global,
    from: Span,
    list: Operand,
    empty: Operand,
    first: Binder,
    rest: Binder,
    last: Operand,
) -> Result<Operand, AllocError>
    requires { deeper_tail (Tail.CellArm from list empty first rest) last.depth < 2 ^ 64 }
    ensures { IfOk result (λ operand. operand ≡ closed (Tail.CellArm from list empty first rest) last) }
{
    let span = across(from, last.span);
    let depth = one_deeper(list.depth.max(empty.depth.max(last.depth)));
    let expr = Expr::match_list(
        alloc, span, list.expr, empty.expr, first.name, first.span, rest.name, rest.span, last.expr,
    )?;
    Ok(Operand { expr, span, depth })
}

/// A second part closes its brackets, by the sign that stands here.
pub(crate) fn enclosed(
    alloc: Global,
    right: Right,
    last: Operand,
    at: Span,
) -> Result<Operand, AllocError>
    requires { deeper_right right last.depth < 2 ^ 64 }
    ensures { IfOk result (λ operand. operand ≡ enclosed right last at) }
{
    match right {
        Right::Pair { from, left } => {
            let span = across(from, at);
            let depth = one_deeper(left.depth.max(last.depth));
            let expr = Expr::pair(alloc, span, left.expr, last.expr)?;
            Ok(Operand { expr, span, depth })
        }
        Right::Choice { dim, left } => {
            let span = across(dim.span, at);
            let depth = one_deeper(left.depth.max(last.depth));
            let expr = Expr::choice(alloc, span, dim.name, dim.span, left.expr, last.expr)?;
            Ok(Operand { expr, span, depth })
        }
    }
}

/// An expression in parentheses.
pub(crate) fn wrapped(from: Span, to: Span, inner: Operand) -> Operand
    requires { suc inner.depth < 2 ^ 64 }
    ensures { result ≡ operand_of (wrapped from to (part_of inner)) }
{
    Operand {
        expr: inner.expr,
        span: across(from, to),
        depth: one_deeper(inner.depth),
    }
}
