//! Constructs that need no sign to be closed.
ghost use Rattle.std.specs.Prelude.{◌≡◌, ◌≤◌, IfOk};
ghost use Rattle.vt_syntax.specs.Spelling.{most_depth};
ghost use Rattle.vt_grammar.specs.Frames.{deeper};
ghost use Rattle.vt_grammar.specs.Machine.{reduce, depth_over};
ghost use Rattle.vt_parse.specs.Reading.{IsShut};

use crate::closing::{both, closed};
use std::alloc::{AllocError, Global};
use vt_grammar::{Frame, Operand, Stack};

/// Closes all constructs that need no sign for it and whose level is at least this one.
pub(crate) fn reduce(
    alloc: Global,
    least: u8,
    stack: &mut Stack,
    operand: Operand,
) -> Result<Operand, AllocError>
    requires { depth_over stack.old operand.depth ≤ most_depth }
    ensures { IfOk result (λ last. reduce least stack.old operand ≡ record { stack = stack.new; operand = last }) }
{
    let mut operand = operand;
    while let Some(frame) = stack.pop_closed(least) {
        operand = shut(alloc, frame, operand)?;
    }
    Ok(operand)
}

// Closes a construct that needs no sign for it; any other leaves the operand as it was.
fn shut(alloc: Global, frame: Frame, operand: Operand) -> Result<Operand, AllocError>
    requires { deeper frame operand.depth ≤ most_depth }
    ensures { IfOk result (IsShut frame operand) }
{
    match frame {
        Frame::Joint(op, at, left) => both(alloc, op, at, left, operand),
        Frame::Tail(tail) => closed(alloc, tail, operand),
        other => {
            drop(other);
            Ok(operand)
        }
    }
}
