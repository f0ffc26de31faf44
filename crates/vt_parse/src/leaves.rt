//! What one token gives: a name, an expression, the start of a construct.
ghost use Rattle.std.specs.Prelude.{◌≡◌, IfOk};
ghost use Rattle.vt_lex.specs.Spans.{IsSpanIn, BeginsWithAt};
ghost use Rattle.vt_syntax.specs.Spelling.{part};
ghost use Rattle.vt_grammar.specs.declared.start.Opening;
ghost use Rattle.vt_grammar.specs.Frames.{operand_of, binder_at, dim_binder_at, leaf_at, opened, after_opening, stated};

use std::alloc::{AllocError, Global};
use vt_grammar::{Binder, Frame, Leaf, Mark, Middle, Naming, Next, Opening, Operand, Statement};
use vt_lex::{Span, dim_at, word_at};
use vt_syntax::{Expr, ExprForm};

/// The name that is bound here.
pub(crate) fn binder_at(alloc: Global, text: &str, at: Span) -> Result<Binder, AllocError>
    requires { IsSpanIn text.now at }
    ensures { IfOk result (λ binder. binder ≡ binder_at text.now at) }
{
    let name = word_at(alloc, text, at)?;
    Ok(Binder { name, span: at })
}

/// The dimension that is named here.
pub(crate) fn dim_binder_at(alloc: Global, text: &str, at: Span) -> Result<Binder, AllocError>
    requires span { IsSpanIn text.now at }
    requires sign { BeginsWithAt text.now at }
    ensures { IfOk result (λ binder. binder ≡ dim_binder_at text.now at) }
{
    let name = dim_at(alloc, text, at)?;
    Ok(Binder { name, span: at })
}

/// The expression of one token.
pub(crate) fn leaf_at(
    alloc: Global,
    text: &str,
    leaf: Leaf,
    at: Span,
) -> Result<Operand, AllocError>
    requires { IsSpanIn text.now at }
    ensures { IfOk result (λ operand. operand ≡ leaf_at text.now leaf at) }
{
    match leaf {
        Leaf::Number(value) => Ok(leaf_of(ExprForm::Number(value), at)),
        Leaf::Quoted => Ok(leaf_of(ExprForm::Quoted, at)),
        Leaf::Truth(value) => Ok(leaf_of(ExprForm::Truth(value), at)),
        Leaf::Name => {
            let name = word_at(alloc, text, at)?;
            Ok(leaf_of(ExprForm::Name(name), at))
        }
        Leaf::Hole => Ok(leaf_of(ExprForm::Hole, at)),
    }
}

// An expression of this form, of one token.
fn leaf_of(form: ExprForm, at: Span) -> Operand
    ensures { result ≡ operand_of (part at form 1) }
{
    Operand {
        expr: Expr { span: at, form },
        span: at,
        depth: 1,
    }
}

/// The construct that an opening token begins.
pub(crate) fn opened(
    alloc: Global,
    text: &str,
    opening: Opening,
    at: Span,
) -> Result<Frame, AllocError>
    requires span { IsSpanIn text.now at }
    requires sign { opening ≡ Opening.Choice → BeginsWithAt text.now at }
    ensures { IfOk result (λ frame. frame ≡ opened text.now opening at) }
{
    match opening {
        Opening::Paren => Ok(Frame::Paren(at)),
        Opening::Square => Ok(Frame::Square(at)),
        Opening::Choice => {
            let dim = dim_binder_at(alloc, text, at)?;
            Ok(Frame::Middle(Middle::ChoiceLeft { dim }))
        }
    }
}

/// What comes after an opening token.
pub(crate) fn after_opening(opening: Opening) -> Next
    ensures { result ≡ after_opening opening }
{
    match opening {
        Opening::Paren => Next::Wanted,
        Opening::Square => Next::Wanted,
        Opening::Choice => Next::Awaits(Mark::BraceOpen),
    }
}

/// The construct that the first word of a form begins.
pub(crate) fn stated(statement: Statement, from: Span) -> Frame
    ensures { result ≡ stated statement from }
{
    match statement {
        Statement::Fun => Frame::Naming(Naming::FunName { from }),
        Statement::Let => Frame::Naming(Naming::LetName {
            from,
            recursive: false,
        }),
        Statement::If => Frame::Middle(Middle::Condition { from }),
        Statement::Match => Frame::Middle(Middle::Matched { from }),
    }
}
