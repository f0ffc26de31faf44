//! Which leaf has a node's number.
ghost use Rattle.std.specs.Prelude.{◌≡◌, ◌≤◌, List, length, IfOk};
ghost use Rattle.vt_syntax.specs.declared.leaf.Leaf.{Leaf};
ghost use Rattle.vt_syntax.specs.Leaves.{HaveDifferentNumbers};
ghost use Rattle.vt_syntax.specs.Varying.{leaf_index};
ghost use Rattle.vt_change.specs.Numbering.{IsNumbering};

use indexmap::IndexSet;
use std::alloc::{AllocError, Global};
use std::marker::Model;
use vt_dec::{Dim, NodeId};
use vt_syntax::Leaf;

/// The nodes of leaves, in their order.
#[derive(Drop)]
pub(crate) struct LeafNumbers {
    nodes: IndexSet<NodeId>,
}

impl Model for LeafNumbers {
    ghost use Rattle.std.specs.Prelude.{List, ℕ};

    ghost Value = { List ℕ };

    ghost view = { λ n. n.nodes.keys };
}

impl LeafNumbers {
    pub(crate) fn of(alloc: Global, leaves: &[Leaf]) -> Result<LeafNumbers, AllocError>
        requires { HaveDifferentNumbers leaves.now }
        ensures { IfOk result (IsNumbering leaves.now) }
    {
        let mut nodes = IndexSet::new(alloc);
        for leaf in leaves {
            nodes.insert(leaf.node)?;
        }
        Ok(LeafNumbers { nodes })
    }

    /// The dimension in which the leaf of this number is varied.
    pub(crate) fn dim(&self, node: NodeId) -> Option<Dim>
        requires few { length self.now ≤ 2048 }
        ensures { (leaves : List Leaf) → IsNumbering leaves self.now → result ≡ leaf_index leaves node }
    {
        let index = self.nodes.get_index_of(&node)?;
        Some(Dim(index as u32))
    }
}
