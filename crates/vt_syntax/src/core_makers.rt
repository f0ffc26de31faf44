//! A node of the core from its parts, each in a box of its own.
ghost use Rattle.std.specs.Prelude.{◌≡◌, IfOk};
ghost use Rattle.vt_syntax.specs.CoreTrees.{core, fun_form, app_form, let_form, let_rec_form, choice_form};

use crate::{Core, Form};
use sqlite_items::Boxed;
use std::alloc::{AllocError, Global};
use vt_dec::{Dim, NodeId};
use vt_lex::{Span, Word};

impl Core {
    /// A core expression without parts.
    pub fn leaf(
        alloc: Global,
        node: NodeId,
        span: Span,
        form: Form,
    ) -> Result<Boxed<Core>, AllocError>
        ensures { IfOk result (λ c. c ≡ core node span form) }
    {
        let made = Core { node, span, form };
        let made = Boxed::new(alloc, made)?;
        Ok(made)
    }

    pub fn fun(
        alloc: Global,
        node: NodeId,
        span: Span,
        body: Boxed<Core>,
    ) -> Result<Boxed<Core>, AllocError>
        ensures { IfOk result (λ c. c ≡ core node span (fun_form body)) }
    {
        let made = Core {
            node,
            span,
            form: Form::Fun(body),
        };
        let made = Boxed::new(alloc, made)?;
        Ok(made)
    }

    pub fn app(
        alloc: Global,
        node: NodeId,
        span: Span,
        function: Boxed<Core>,
        argument: Boxed<Core>,
    ) -> Result<Boxed<Core>, AllocError>
        ensures { IfOk result (λ c. c ≡ core node span (app_form function argument)) }
    {
        let made = Core {
            node,
            span,
            form: Form::App(function, argument),
        };
        let made = Boxed::new(alloc, made)?;
        Ok(made)
    }

    pub fn let_in(
        alloc: Global,
        node: NodeId,
        span: Span,
        bound: Boxed<Core>,
        body: Boxed<Core>,
    ) -> Result<Boxed<Core>, AllocError>
        ensures { IfOk result (λ c. c ≡ core node span (let_form bound body)) }
    {
        let made = Core {
            node,
            span,
            form: Form::Let(bound, body),
        };
        let made = Boxed::new(alloc, made)?;
        Ok(made)
    }

    /// A `let rec`, with the bound name and its span.
    pub fn let_rec(
        alloc: Global,
        node: NodeId,
        span: Span,
        name: Word,
        name_span: Span,
        bound: Boxed<Core>,
        body: Boxed<Core>,
    ) -> Result<Boxed<Core>, AllocError>
        ensures { IfOk result (λ c. c ≡ core node span (let_rec_form name name_span bound body)) }
    {
        let made = Core {
            node,
            span,
            form: Form::LetRec(name, name_span, bound, body),
        };
        let made = Boxed::new(alloc, made)?;
        Ok(made)
    }

    pub fn choice(
        alloc: Global,
        node: NodeId,
        span: Span,
        dim: Dim,
        left: Boxed<Core>,
        right: Boxed<Core>,
    ) -> Result<Boxed<Core>, AllocError>
        ensures { IfOk result (λ c. c ≡ core node span (choice_form dim left right)) }
    {
        let made = Core {
            node,
            span,
            form: Form::Choice(dim, left, right),
        };
        let made = Boxed::new(alloc, made)?;
        Ok(made)
    }
}
