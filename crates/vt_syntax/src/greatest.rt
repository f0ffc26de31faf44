//! The greatest number of a node.
ghost use Rattle.std.specs.Prelude.{◌≡◌, ◌⊎◌, ◌≤◌};
ghost use Rattle.vt_syntax.specs.Checking.{numbers_of, IsGreater, IsGreatest};

use crate::{Core, Form};
use vt_dec::NodeId;

/// The greatest number of a node of an expression, with all alternatives of its choices.
pub fn last_node(core: &Core) -> NodeId
    ensures { IsGreatest result (numbers_of core.now) }
{
    let node = core.node;
    match &core.form {
        Form::Literal(_) => node,
        Form::Name(_) => node,
        Form::Const(_) => node,
        Form::Hole => node,
        Form::Fun(body) => {
            let inner = last_node(body.get());
            greater(inner, node)
        }
        Form::App(function, argument) => {
            let one = last_node(function.get());
            let other = last_node(argument.get());
            greater(greater(one, other), node)
        }
        Form::Let(bound, body) => {
            let one = last_node(bound.get());
            let other = last_node(body.get());
            greater(one, greater(node, other))
        }
        Form::LetRec(_, _, bound, body) => {
            let one = last_node(bound.get());
            let other = last_node(body.get());
            greater(one, greater(node, other))
        }
        Form::Choice(_, left, right) => {
            let one = last_node(left.get());
            let other = last_node(right.get());
            greater(greater(one, other), node)
        }
    }
}

fn greater(one: NodeId, other: NodeId) -> NodeId
    ensures { IsGreater result one other }
{
    if one.0 < other.0 { other } else { one }
}
