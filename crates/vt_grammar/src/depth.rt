//! How deep a construct is at least, by the depth of the part that is being read.
ghost use Rattle.std.specs.Prelude.{suc, ◌≤◌, max};
ghost use Rattle.vt_syntax.specs.Spelling.{most_depth};
ghost use Rattle.vt_grammar.specs.Frames.{deeper, deeper_tail, deeper_middle, deeper_right, deeper_naming, IsAdmitted};

use crate::frame::{Frame, Middle, Naming, Right, Tail};

/// The largest depth that is admitted.
const MOST_DEPTH: usize = 256;

/// The depth, if it is admitted.
pub fn admitted(depth: usize) -> Option<usize>
    ensures { IsAdmitted depth result }
{
    if depth <= MOST_DEPTH {
        Some(depth)
    } else {
        None
    }
}

// The depth of a form whose deepest part has this depth, if it is admitted.
fn admitted_above(deepest: usize) -> Option<usize>
    ensures { IsAdmitted (suc deepest) result }
{
    if deepest < MOST_DEPTH {
        Some(deepest + 1)
    } else {
        None
    }
}

/// The depth of a construct, if it is admitted.
pub(crate) fn deeper(frame: &Frame, depth: usize) -> Option<usize>
    requires { depth ≤ most_depth }
    ensures { IsAdmitted (deeper frame.now depth) result }
{
    match frame {
        Frame::Joint(_, _, left) => admitted_above(left.depth.max(depth)),
        Frame::Tail(tail) => deeper_tail(tail, depth),
        Frame::Middle(middle) => deeper_middle(middle, depth),
        Frame::Right(right) => deeper_right(right, depth),
        Frame::Paren(_) => admitted_above(depth),
        Frame::Square(_) => admitted_above(depth),
        Frame::Element(before) => admitted(before.depth.max(depth + 1)),
        Frame::Body { .. } => Some(depth.max(1)),
        Frame::Naming(naming) => deeper_naming(naming, depth),
    }
}

fn deeper_tail(tail: &Tail, depth: usize) -> Option<usize>
    ensures { IsAdmitted (deeper_tail tail.now depth) result }
{
    match tail {
        Tail::FunBody { .. } => admitted_above(depth),
        Tail::LetBody { bound, .. } => admitted_above(bound.depth.max(depth)),
        Tail::ElseBranch {
            condition,
            then,
            ..
        } => admitted_above(condition.depth.max(then.depth.max(depth))),
        Tail::CellArm { list, empty, .. } => admitted_above(list.depth.max(empty.depth.max(depth))),
    }
}

fn deeper_middle(middle: &Middle, depth: usize) -> Option<usize>
    ensures { IsAdmitted (deeper_middle middle.now depth) result }
{
    match middle {
        Middle::LetBound { .. } => admitted_above(depth.max(1)),
        Middle::Condition { .. } => admitted_above(depth.max(1)),
        Middle::ThenBranch { condition, .. } => admitted_above(condition.depth.max(depth.max(1))),
        Middle::Matched { .. } => admitted_above(depth.max(1)),
        Middle::EmptyArm { list, .. } => admitted_above(list.depth.max(depth.max(1))),
        Middle::ChoiceLeft { .. } => admitted_above(depth.max(1)),
    }
}

fn deeper_right(right: &Right, depth: usize) -> Option<usize>
    ensures { IsAdmitted (deeper_right right.now depth) result }
{
    match right {
        Right::Pair { left, .. } => admitted_above(left.depth.max(depth)),
        Right::Choice { left, .. } => admitted_above(left.depth.max(depth)),
    }
}

fn deeper_naming(naming: &Naming, depth: usize) -> Option<usize>
    requires { depth ≤ most_depth }
    ensures { IsAdmitted (deeper_naming naming.now depth) result }
{
    match naming {
        Naming::FunName { .. } => admitted_above(depth),
        Naming::LetName { .. } => admitted_above(depth.max(1)),
        Naming::DefName { .. } => Some(depth.max(1)),
        Naming::FirstName { list, empty, .. } => {
            admitted_above(list.depth.max(empty.depth.max(depth)))
        }
        Naming::RestName { list, empty, .. } => {
            admitted_above(list.depth.max(empty.depth.max(depth)))
        }
    }
}
