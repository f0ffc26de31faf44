//! The core of an expression: a walk from left to right, which is the order of the text and, but for
//! the nodes above what was walked over, that of the numbers. Each function takes the tree first, since
//! the recursion goes down in it.
ghost use Rattle.std.specs.Prelude.{◌≡◌, MatchResult};
ghost use Rattle.vt_syntax.specs.SurfaceTrees as surface;
ghost use Rattle.vt_syntax.specs.CoreTrees.{core};
ghost use Rattle.vt_scope.specs.Cores.{bound_form, op_id, left_span};
ghost use Rattle.vt_scope.specs.Walking.{Answers, AnswersUnder, AnswersBound, AnswersApplied, AnswersArm, AnswersItems};

use crate::ScopeFault;
use crate::walk::Walk;
use sqlite_items::Boxed;
use std::alloc::Global;
use vt_dec::NodeId;
use vt_lex::{Span, Word};
use vt_syntax::{Class, Core, Expr, ExprForm, Exprs, Form, Lit, Op};
use vt_type::{ConstId, Constants};

/// The core of an expression, or the first place in it that is refused.
#[cycle(expressions)]
pub fn expression(
    expr: &Expr,
    alloc: Global,
    constants: &Constants,
    walk: &mut Walk,
) -> Result<Boxed<Core>, ScopeFault>
    ensures { Answers constants.now expr.now walk.old walk.new result }
{
    let at = expr.span;
    match &expr.form {
        ExprForm::Number(value) => walk.literal(alloc, at, Lit::Number(*value)),
        ExprForm::Quoted => walk.literal(alloc, at, Lit::Quoted),
        ExprForm::Truth(value) => walk.literal(alloc, at, Lit::Truth(*value)),
        ExprForm::Name(name) => walk.name(alloc, constants, at, name),
        ExprForm::Hole => walk.part(alloc, at, Form::Hole),
        ExprForm::Fun(name, _, body) => function(body.get(), alloc, constants, walk, at, name),
        ExprForm::Let {
            recursive,
            name,
            name_span,
            bound,
            body,
        } => binding(
            bound, body, alloc, constants, walk, at, *recursive, name, *name_span,
        ),
        ExprForm::If(test, then, other) => condition(test, then, other, alloc, constants, walk, at),
        ExprForm::Match {
            list,
            empty,
            first,
            first_span: first_at,
            rest,
            cell,
            ..
        } => matched(
            list, empty, cell, alloc, constants, walk, at, first, *first_at, rest,
        ),
        ExprForm::Op(op, op_span, left, right) => {
            operation(left, right, alloc, constants, walk, at, *op, *op_span)
        }
        ExprForm::Apply(left, right) => apply(left.get(), right.get(), alloc, constants, walk, at),
        ExprForm::Pair(left, right) => pair(left.get(), right.get(), alloc, constants, walk, at),
        ExprForm::List(items) => list(items, alloc, constants, walk, at, at),
        ExprForm::Choice(dim, dim_span, left, right) => {
            choice(left, right, alloc, constants, walk, at, dim, *dim_span)
        }
    }
}

#[cycle(expressions)]
fn function(
    body: &Expr,
    alloc: Global,
    constants: &Constants,
    walk: &mut Walk,
    at: Span,
    name: &Word,
) -> Result<Boxed<Core>, ScopeFault>
    ensures { (name_at : Span) → Answers constants.now (surface.expr at (surface.fun_form name.now name_at body.now)) walk.old walk.new result }
{
    let body = under(body, alloc, constants, walk, name, Class::Parameter)?;
    walk.function(alloc, at, body)
}

#[cycle(expressions)]
fn binding(
    bound: &Boxed<Expr>,
    body: &Boxed<Expr>,
    alloc: Global,
    constants: &Constants,
    walk: &mut Walk,
    at: Span,
    recursive: bool,
    name: &Word,
    name_span: Span,
) -> Result<Boxed<Core>, ScopeFault>
    ensures { Answers constants.now (surface.expr at (surface.let_form recursive name.now name_span bound.now body.now)) walk.old walk.new result }
{
    let bound = bound_part(bound.get(), alloc, constants, walk, name, recursive)?;
    let node = walk.number()?;
    let body = under(body.get(), alloc, constants, walk, name, Class::Defined)?;
    let_core(alloc, node, at, recursive, name, name_span, bound, body)
}

#[cycle(expressions)]
fn condition(
    test: &Boxed<Expr>,
    then: &Boxed<Expr>,
    other: &Boxed<Expr>,
    alloc: Global,
    constants: &Constants,
    walk: &mut Walk,
    at: Span,
) -> Result<Boxed<Core>, ScopeFault>
    ensures { Answers constants.now (surface.expr at (surface.if_form test.now then.now other.now)) walk.old walk.new result }
{
    let cond = walk.implied(alloc, at, ConstId::COND)?;
    let cond = argument(test.get(), alloc, constants, walk, at, cond)?;
    let cond = argument(then.get(), alloc, constants, walk, at, cond)?;
    argument(other.get(), alloc, constants, walk, at, cond)
}

#[cycle(expressions)]
fn matched(
    list: &Boxed<Expr>,
    empty: &Boxed<Expr>,
    cell: &Boxed<Expr>,
    alloc: Global,
    constants: &Constants,
    walk: &mut Walk,
    at: Span,
    first: &Word,
    first_span: Span,
    rest: &Word,
) -> Result<Boxed<Core>, ScopeFault>
    ensures { (rest_at : Span) → Answers constants.now (surface.expr at (surface.match_form list.now empty.now first.now first_span rest.now rest_at cell.now)) walk.old walk.new result }
{
    let split = walk.implied(alloc, at, ConstId::SPLIT)?;
    let split = argument(list.get(), alloc, constants, walk, at, split)?;
    let split = argument(empty.get(), alloc, constants, walk, at, split)?;
    let here = Span {
        start: first_span.start,
        end: at.end,
    };
    let cell = arm(cell.get(), alloc, constants, walk, here, first, rest)?;
    walk.applied(alloc, at, split, cell)
}

#[cycle(expressions)]
fn operation(
    left: &Boxed<Expr>,
    right: &Boxed<Expr>,
    alloc: Global,
    constants: &Constants,
    walk: &mut Walk,
    at: Span,
    op: Op,
    op_span: Span,
) -> Result<Boxed<Core>, ScopeFault>
    ensures { Answers constants.now (surface.expr at (surface.op_form op op_span left.now right.now)) walk.old walk.new result }
{
    let sign = walk.part(alloc, op_span, Form::Const(constant_of(op)))?;
    let node = sign.get().node;
    let half = argument(left.get(), alloc, constants, walk, at, sign)?;
    walk.note(op_span, Class::Constant, node)?;
    argument(right.get(), alloc, constants, walk, at, half)
}

#[cycle(expressions)]
fn apply(
    left: &Expr,
    right: &Expr,
    alloc: Global,
    constants: &Constants,
    walk: &mut Walk,
    at: Span,
) -> Result<Boxed<Core>, ScopeFault>
    ensures { Answers constants.now (surface.expr at (surface.apply_form left.now right.now)) walk.old walk.new result }
{
    let function = expression(left, alloc, constants, walk)?;
    argument(right, alloc, constants, walk, at, function)
}

#[cycle(expressions)]
fn pair(
    left: &Expr,
    right: &Expr,
    alloc: Global,
    constants: &Constants,
    walk: &mut Walk,
    at: Span,
) -> Result<Boxed<Core>, ScopeFault>
    ensures { Answers constants.now (surface.expr at (surface.pair_form left.now right.now)) walk.old walk.new result }
{
    let pair = walk.implied(alloc, at, ConstId::PAIR)?;
    let pair = argument(left, alloc, constants, walk, at, pair)?;
    argument(right, alloc, constants, walk, at, pair)
}

#[cycle(expressions)]
fn choice(
    left: &Boxed<Expr>,
    right: &Boxed<Expr>,
    alloc: Global,
    constants: &Constants,
    walk: &mut Walk,
    at: Span,
    dim: &Word,
    dim_span: Span,
) -> Result<Boxed<Core>, ScopeFault>
    ensures { Answers constants.now (surface.expr at (surface.choice_form dim.now dim_span left.now right.now)) walk.old walk.new result }
{
    let dim = walk.dimension(dim, dim_span)?;
    let left = expression(left.get(), alloc, constants, walk)?;
    let right = expression(right.get(), alloc, constants, walk)?;
    walk.choice(alloc, at, dim, left, right)
}

// An expression under one binder more.
#[cycle(expressions)]
fn under(
    body: &Expr,
    alloc: Global,
    constants: &Constants,
    walk: &mut Walk,
    name: &Word,
    class: Class,
) -> Result<Boxed<Core>, ScopeFault>
    ensures { AnswersUnder constants.now (record { name = name.now; class = class }) body.now walk.old walk.new result }
{
    walk.scope.push(alloc, name, class)?;
    let core = expression(body, alloc, constants, walk)?;
    walk.scope.pop();
    Ok(core)
}

// A function applied to an expression.
#[cycle(expressions)]
fn argument(
    operand: &Expr,
    alloc: Global,
    constants: &Constants,
    walk: &mut Walk,
    at: Span,
    function: Boxed<Core>,
) -> Result<Boxed<Core>, ScopeFault>
    ensures { AnswersApplied constants.now at function operand.now walk.old walk.new result }
{
    let operand = expression(operand, alloc, constants, walk)?;
    walk.applied(alloc, at, function, operand)
}

// What is bound to a name, which stands under that name where the binding is recursive.
#[cycle(expressions)]
pub fn bound_part(
    bound: &Expr,
    alloc: Global,
    constants: &Constants,
    walk: &mut Walk,
    name: &Word,
    recursive: bool,
) -> Result<Boxed<Core>, ScopeFault>
    ensures { AnswersBound constants.now recursive name.now bound.now walk.old walk.new result }
{
    if recursive {
        under(bound, alloc, constants, walk, name, Class::Defined)
    } else {
        expression(bound, alloc, constants, walk)
    }
}

// The arm of a `match` for a first element and the rest.
#[cycle(expressions)]
fn arm(
    cell: &Expr,
    alloc: Global,
    constants: &Constants,
    walk: &mut Walk,
    here: Span,
    first: &Word,
    rest: &Word,
) -> Result<Boxed<Core>, ScopeFault>
    ensures { AnswersArm constants.now first.now rest.now here cell.now walk.old walk.new result }
{
    walk.scope.push(alloc, first, Class::Parameter)?;
    let body = under(cell, alloc, constants, walk, rest, Class::Parameter)?;
    walk.scope.pop();
    let of_rest = walk.function(alloc, here, body)?;
    walk.function(alloc, here, of_rest)
}

// What is left of a list that is written out, from the span `here` on.
#[cycle(expressions)]
fn list(
    items: &Exprs,
    alloc: Global,
    constants: &Constants,
    walk: &mut Walk,
    whole: Span,
    here: Span,
) -> Result<Boxed<Core>, ScopeFault>
    ensures { AnswersItems constants.now whole here items.now walk.old walk.new result }
{
    match items {
        Exprs::Nil => walk.implied(alloc, here, ConstId::NIL),
        Exprs::More(first, rest) => {
            let cons = walk.implied(alloc, whole, ConstId::CONS)?;
            let cons = argument(first.get(), alloc, constants, walk, here, cons)?;
            let left = left_of(rest.get(), whole);
            let rest = list(rest.get(), alloc, constants, walk, whole, left)?;
            walk.applied(alloc, here, cons, rest)
        }
    }
}

fn let_core(
    alloc: Global,
    node: NodeId,
    at: Span,
    recursive: bool,
    name: &Word,
    name_span: Span,
    bound: Boxed<Core>,
    body: Boxed<Core>,
) -> Result<Boxed<Core>, ScopeFault>
    ensures { MatchResult result (λ c. c ≡ core node at (bound_form recursive name.now name_span bound body)) (λ fault. fault ≡ ScopeFault.Memory) }
{
    if recursive {
        let name = name.copied(alloc)?;
        return Ok(Core::let_rec(alloc, node, at, name, name_span, bound, body)?);
    }
    Ok(Core::let_in(alloc, node, at, bound, body)?)
}

// The span from the first of these items to the end of the list, or of its closing bracket.
fn left_of(items: &Exprs, whole: Span) -> Span
    ensures { result ≡ left_span whole items.now }
{
    let start = match items {
        Exprs::Nil => whole.end.saturating_sub(1),
        Exprs::More(first, _) => first.get().span.start,
    };
    Span {
        start,
        end: whole.end,
    }
}

fn constant_of(op: Op) -> ConstId
    ensures { result ≡ op_id op }
{
    match op {
        Op::Add => ConstId::ADD,
        Op::Sub => ConstId::SUBTRACT,
        Op::Mul => ConstId::MULTIPLY,
        Op::Cat => ConstId::JOIN,
        Op::Equal => ConstId::EQUAL,
        Op::Less => ConstId::LESS,
        Op::Cons => ConstId::PREPEND,
        Op::And => ConstId::AND,
        Op::Or => ConstId::OR,
    }
}
