ghost use Rattle.std.specs.Prelude.{◌≡◌, IfOk};
ghost use Rattle.vt_syntax.specs.SurfaceTrees.{expr, fun_form, let_form, if_form, match_form, op_form, apply_form, pair_form, choice_form, exprs};

use crate::{Expr, ExprForm, Exprs, Op};
use sqlite_items::Boxed;
use std::alloc::{AllocError, Global};
use vt_lex::{Span, Word};

impl Expr {
    pub fn fun(
        alloc: Global,
        span: Span,
        name: Word,
        name_span: Span,
        body: Expr,
    ) -> Result<Expr, AllocError>
        ensures { IfOk result (λ e. e ≡ expr span (fun_form name name_span body)) }
    {
        let body = Boxed::new(alloc, body)?;
        Ok(Expr {
            span,
            form: ExprForm::Fun(name, name_span, body),
        })
    }

    /// A `let`, or a `let rec`.
    pub fn let_in(
        alloc: Global,
        span: Span,
        recursive: bool,
        name: Word,
        name_span: Span,
        bound: Expr,
        body: Expr,
    ) -> Result<Expr, AllocError>
        ensures { IfOk result (λ e. e ≡ expr span (let_form recursive name name_span bound body)) }
    {
        let bound = Boxed::new(alloc, bound);
        let body = Boxed::new(alloc, body);
        let bound = bound?;
        let body = body?;
        Ok(Expr {
            span,
            form: ExprForm::Let {
                recursive,
                name,
                name_span,
                bound,
                body,
            },
        })
    }

    pub fn if_else(
        alloc: Global,
        span: Span,
        condition: Expr,
        then: Expr,
        otherwise: Expr,
    ) -> Result<Expr, AllocError>
        ensures { IfOk result (λ e. e ≡ expr span (if_form condition then otherwise)) }
    {
        let condition = Boxed::new(alloc, condition);
        let then = Boxed::new(alloc, then);
        let otherwise = Boxed::new(alloc, otherwise);
        let condition = condition?;
        let then = then?;
        let otherwise = otherwise?;
        Ok(Expr {
            span,
            form: ExprForm::If(condition, then, otherwise),
        })
    }

    /// A `match` on a list: the arm of the empty list, and the arm of a first element and the rest.
    pub fn match_list(
        alloc: Global,
        span: Span,
        list: Expr,
        empty: Expr,
        first: Word,
        first_span: Span,
        rest: Word,
        rest_span: Span,
        cell: Expr,
    ) -> Result<Expr, AllocError>
        ensures { IfOk result (λ e. e ≡ expr span (match_form list empty first first_span rest rest_span cell)) }
    {
        let list = Boxed::new(alloc, list);
        let empty = Boxed::new(alloc, empty);
        let cell = Boxed::new(alloc, cell);
        let list = list?;
        let empty = empty?;
        let cell = cell?;
        Ok(Expr {
            span,
            form: ExprForm::Match {
                list,
                empty,
                first,
                first_span,
                rest,
                rest_span,
                cell,
            },
        })
    }

    pub fn operation(
        alloc: Global,
        span: Span,
        op: Op,
        op_span: Span,
        left: Expr,
        right: Expr,
    ) -> Result<Expr, AllocError>
        ensures { IfOk result (λ e. e ≡ expr span (op_form op op_span left right)) }
    {
        let left = Boxed::new(alloc, left);
        let right = Boxed::new(alloc, right);
        let left = left?;
        let right = right?;
        Ok(Expr {
            span,
            form: ExprForm::Op(op, op_span, left, right),
        })
    }

    pub fn apply(
        alloc: Global,
        span: Span,
        function: Expr,
        argument: Expr,
    ) -> Result<Expr, AllocError>
        ensures { IfOk result (λ e. e ≡ expr span (apply_form function argument)) }
    {
        let function = Boxed::new(alloc, function);
        let argument = Boxed::new(alloc, argument);
        let function = function?;
        let argument = argument?;
        Ok(Expr {
            span,
            form: ExprForm::Apply(function, argument),
        })
    }

    pub fn pair(alloc: Global, span: Span, left: Expr, right: Expr) -> Result<Expr, AllocError>
        ensures { IfOk result (λ e. e ≡ expr span (pair_form left right)) }
    {
        let left = Boxed::new(alloc, left);
        let right = Boxed::new(alloc, right);
        let left = left?;
        let right = right?;
        Ok(Expr {
            span,
            form: ExprForm::Pair(left, right),
        })
    }

    /// A choice, with the name of its dimension and the span of the token that has it.
    pub fn choice(
        alloc: Global,
        span: Span,
        dim: Word,
        dim_span: Span,
        left: Expr,
        right: Expr,
    ) -> Result<Expr, AllocError>
        ensures { IfOk result (λ e. e ≡ expr span (choice_form dim dim_span left right)) }
    {
        let left = Boxed::new(alloc, left);
        let right = Boxed::new(alloc, right);
        let left = left?;
        let right = right?;
        Ok(Expr {
            span,
            form: ExprForm::Choice(dim, dim_span, left, right),
        })
    }
}

impl Exprs {
    /// A first expression before the others.
    pub fn more(alloc: Global, first: Expr, rest: Exprs) -> Result<Exprs, AllocError>
        ensures { IfOk result (λ es. es ≡ exprs first rest) }
    {
        let first = Boxed::new(alloc, first);
        let rest = Boxed::new(alloc, rest);
        let first = first?;
        let rest = rest?;
        Ok(Exprs::More(first, rest))
    }
}
