use std::alloc::{AllocError, Global};
use vt_lex::{Span, Word};
use vt_scope::{ScopeFault, resolve};
use vt_syntax::{Defs, Expr, ExprForm, Op, Program};
use vt_type::Constants;

fn over(start: u32, end: u32) -> Span {
    Span { start, end }
}

// The program `1+x`, or `1+succ`.
fn sum(alloc: Global, name: &str) -> Result<Program, AllocError> {
    let left = Expr {
        span: over(0, 1),
        form: ExprForm::Number(1),
    };
    let right = Expr {
        span: over(2, 3),
        form: ExprForm::Name(Word::new(String::from_str(alloc, name)?)),
    };
    let span = over(0, 3);
    Ok(Program {
        defs: Defs::new(Vec::new(alloc)),
        main: Expr::operation(alloc, span, Op::Add, over(1, 2), left, right)?,
    })
}

// How many leaves the core of the sum has.
fn leaf_count(alloc: Global, name: &str) -> Result<usize, ScopeFault> {
    let program = sum(alloc, name)?;
    let count = count_over(alloc, &program);
    drop(program);
    count
}

fn count_over(alloc: Global, program: &Program) -> Result<usize, ScopeFault> {
    let constants = Constants::core(alloc)?;
    let resolved = resolve(alloc, program, &constants);
    drop(constants);
    let resolved = resolved?;
    let count = resolved.leaves.as_slice().len();
    drop(resolved);
    Ok(count)
}

fn has_three_leaves(alloc: Global) -> bool {
    match leaf_count(alloc, "succ") {
        Ok(count) => count == 3,
        Err(_) => false,
    }
}

fn is_unbound_at_two(alloc: Global) -> bool {
    match leaf_count(alloc, "x") {
        Err(ScopeFault::Unbound { span }) => span.start == 2,
        _ => false,
    }
}

#[test]
fn a_sum_has_a_core_or_an_unbound_name(rt: HostRuntime) {
    assert!(rt; has_three_leaves(rt.alloc()));
    assert!(rt; is_unbound_at_two(rt.alloc()));
}
