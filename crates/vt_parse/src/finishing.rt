//! The end of the tokens.
ghost use Rattle.std.specs.Prelude.{◌≤◌, IfOk};
ghost use Rattle.vt_syntax.specs.Spelling.{most_depth};
ghost use Rattle.vt_grammar.specs.Machine.{depth_over, reduce, need};
ghost use Rattle.vt_parse.specs.Reading.{IsFinished, IsFinishedWith};

use crate::reduce::reduce;
use std::alloc::{AllocError, Global};
use vt_grammar::{Definitions, Next, Operand, Reader, Stack};
use vt_syntax::Program;

/// The program that ends here, if one does.
pub(crate) fn finish(alloc: Global, reader: Reader) -> Result<Option<Program>, AllocError>
    requires { need reader ≤ most_depth }
    ensures { IfOk result (IsFinished reader) }
{
    let Reader {
        defs,
        stack,
        next,
        ..
    } = reader;
    match next {
        Next::Wanted => {
            drop(defs);
            drop(stack);
            Ok(None)
        }
        Next::Awaits(_) => {
            drop(defs);
            drop(stack);
            Ok(None)
        }
        Next::Read(operand) => finish_with(alloc, defs, stack, operand),
    }
}

// The program of these definitions and this operand, if no construct waits for more.
fn finish_with(
    alloc: Global,
    defs: Definitions,
    stack: Stack,
    operand: Operand,
) -> Result<Option<Program>, AllocError>
    requires { depth_over stack operand.depth ≤ most_depth }
    ensures { IfOk result (IsFinishedWith defs (reduce 0 stack operand)) }
{
    let mut stack = stack;
    let last = match reduce(alloc, 0, &mut stack, operand) {
        Ok(last) => last,
        Err(fault) => {
            drop(defs);
            drop(stack);
            return Err(fault);
        }
    };
    if stack.is_empty() {
        drop(stack);
        Ok(Some(Program {
            defs: defs.into_defs(),
            main: last.expr,
        }))
    } else {
        drop(defs);
        drop(stack);
        drop(last);
        Ok(None)
    }
}
