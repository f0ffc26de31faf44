//! The holes that an inference meets.
ghost use Rattle.std.specs.Prelude.{◌≡◌, ℕ, [], Some, slice_get, IfOk, OnOk};
ghost use Rattle.std.specs.List.{Contains};
ghost use Rattle.vt_syntax.specs.declared.leaf.Leaf.{Leaf};
ghost use Rattle.vt_infer.specs.Meetings.{IsNoted};

use std::alloc::{AllocError, Global};
use std::collections::BTreeSet;
use std::marker::Model;
use vt_dec::{Context, NodeId};
use vt_store::CellId;
use vt_syntax::Leaf;

/// A hole that was met: its number, the decisions at which it was looked at, and its cell.
#[derive(Drop)]
pub(crate) struct MetHole<const N: usize> {
    pub(crate) node: NodeId,
    pub(crate) within: Context<N>,
    pub(crate) cell: CellId,
}

/// The holes that were met, of those whose numbers are asked for. A number may stand on holes of two
/// alternatives; each of them is met on its own.
#[derive(Drop)]
pub(crate) struct Holes<const N: usize> {
    asked: BTreeSet<u32>,
    met: Vec<MetHole<N>>,
}

impl<const N: usize> Model for Holes<N> {
    ghost use Rattle.vt_infer.specs.Meetings.{HoleLog};

    ghost Value = { HoleLog N };

    ghost view = { λ h. record { asked = h.asked.keys; met = h.met.items } };
}

impl<const N: usize> Holes<N> {
    /// None is met yet, and the numbers of the leaves are asked for.
    pub(crate) fn of(alloc: Global, leaves: &[Leaf]) -> Result<Holes<N>, AllocError>
        ensures asked { IfOk result (λ holes. (place : ℕ) (leaf : Leaf) → slice_get leaves.now place ≡ Some leaf → Contains holes.asked leaf.node) }
        ensures met { IfOk result (λ holes. holes.met ≡ []) }
    {
        let mut asked = BTreeSet::new(alloc);
        for leaf in leaves {
            asked.insert(number(leaf.node))?;
        }
        Ok(Holes {
            asked,
            met: Vec::new(alloc),
        })
    }

    /// A hole is met.
    pub(crate) fn note(
        &mut self,
        node: NodeId,
        within: &Context<N>,
        cell: CellId,
    ) -> Result<(), AllocError>
        ensures { OnOk result (IsNoted node within.now cell self.old self.new) }
    {
        if self.asked.contains(&node.0) {
            self.met.push(MetHole {
                node,
                within: *within,
                cell,
            })?;
        }
        Ok(())
    }

    /// The holes that were met, in order.
    pub(crate) fn met(&self) -> &[MetHole<N>]
        ensures { result.now ≡ self.now.met }
    {
        self.met.as_slice()
    }
}

fn number(node: NodeId) -> u32
    ensures { result ≡ node }
{
    node.0
}
