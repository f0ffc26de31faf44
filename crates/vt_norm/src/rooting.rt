//! The diagram of the root of a type.
ghost use Rattle.std.specs.Prelude.{◌≡◌, IfOk};
ghost use Rattle.vt_norm.specs.Diagrams.{diagram, guarded_by};

use crate::diagram::Diagram;
use crate::root::Top;
use std::alloc::{AllocError, Global};
use vt_dec::Side;
use vt_type::{VKids, VType};

/// The root of a type at each decision. An error below a constructor makes the whole the error: it is
/// looked for in the children only where `careful` says that there may be one.
#[cycle(rooting)]
pub(crate) fn diagram_of(vtype: &VType, alloc: Global, careful: bool) -> Result<Diagram, AllocError>
    ensures { IfOk result (λ tree. tree ≡ diagram careful vtype.now) }
{
    match vtype {
        VType::Var(name) => Ok(Diagram::Leaf(Top::Named(name.copied(alloc)?))),
        VType::Con(head, kids) => {
            let root = Diagram::Leaf(Top::Made(*head));
            if careful {
                guarded_by(kids, alloc, root)
            } else {
                Ok(root)
            }
        }
        VType::Choice(dim, left, right) => {
            let dim = *dim;
            let left = diagram_of(left.get(), alloc, careful)?;
            let right = diagram_of(right.get(), alloc, careful)?;
            let left = left.taking(alloc, dim, Side::Left)?;
            let right = right.taking(alloc, dim, Side::Right)?;
            Diagram::node(alloc, dim, left, right)
        }
        VType::Err => Ok(Diagram::Leaf(Top::Wrong)),
    }
}

#[cycle(rooting)]
fn guarded_by(kids: &VKids, alloc: Global, rest: Diagram) -> Result<Diagram, AllocError>
    ensures { IfOk result (λ tree. tree ≡ guarded_by kids.now rest) }
{
    match kids {
        VKids::Nil => Ok(rest),
        VKids::More(first, others) => {
            let first = diagram_of(first.get(), alloc, true)?;
            let others = guarded_by(others.get(), alloc, rest)?;
            first.guarded(alloc, others)
        }
    }
}
