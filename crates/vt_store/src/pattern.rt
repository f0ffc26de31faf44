ghost use Rattle.std.specs.Prelude.{◌≡◌, ◌*◌, ◌<◌, List, None, IfSome, OnOk, OnErr};
ghost use Rattle.vt_dec.specs.declared.side.Side.{Side};
ghost use Rattle.vt_dec.specs.declared.fate.Fate.TheVariants.{Alive};
ghost use Rattle.vt_dec.specs.Decisions.{IsSideOf};
ghost use Rattle.vt_store.specs.Writes.{IsOf};
ghost use Rattle.vt_store.specs.Patterns.{fate_at, IsMasked, IsFateBranch, IsOneFate};

use crate::fates::Fates;
use std::alloc::{AllocError, Global};
use std::marker::Model;
use vt_dec::{Context, Decision, Dim, Fate, NodeId, Space};

/// What became of each decision of a space.
#[derive(Debug, Drop)]
pub struct Pattern<const N: usize> {
    fates: Fates,
    alloc: Global,
    space: Space,
}

impl<const N: usize> Model for Pattern<N> {
    ghost use Rattle.std.specs.Prelude.{◌*◌};
    ghost use Rattle.std.specs.Coded.{codes};
    ghost use Rattle.vt_store.specs.contracts.fates.Fates as shape;
    ghost use Rattle.vt_store.specs.Patterns.{FateMap};
    ghost use Rattle.vt_store.specs.Fates.{AreOrdered};

    ghost Value = { FateMap };

    ghost coded = { Prim.hlevel (codes, shape.the_row.coded) };

    ghost view = { λ p. record { fates = p.fates; space = p.space } };

    ghost invariant = { λ p. AreOrdered (64 * N) 0 p.fates };
}

impl<const N: usize> Pattern<N> {
    /// Every decision of the space is alive. It takes no memory.
    pub fn alive(alloc: Global, space: Space) -> Pattern<N>
        ensures alive { (decision : List Side) → IsOf N space decision → fate_at result decision ≡ Alive }
        ensures space { result.space ≡ space }
    {
        Pattern {
            fates: Fates::All(Fate::Alive),
            alloc,
            space,
        }
    }

    /// The fate of a decision.
    pub fn fate(&self, decision: &Decision<N>) -> Fate
        requires { IsOf N self.now.space decision.now }
        ensures { result ≡ fate_at self.now decision.now }
    {
        self.fates.at(decision)
    }

    /// The decisions of the context that are alive are dead with the node from now on. On an error
    /// nothing has changed.
    pub fn mask(&mut self, within: &Context<N>, node: NodeId) -> Result<(), AllocError>
        requires { within.now.space ≡ self.old.space }
        ensures ok { OnOk result (IsMasked N within.now node self.old self.new) }
        ensures err { OnErr result (self.new ≡ self.old) }
    {
        // What it ensures of the context is what `masked` needs to know.
        let _space = within.space();
        self.fates = self.fates.masked(self.alloc, within, Dim(0), node)?;
        Ok(())
    }

    /// The least dimension on which the fates branch within the context. Where there is none, all
    /// admitted decisions have one fate.
    pub fn splits(&self, within: &Context<N>) -> Option<Dim>
        requires { within.now.space ≡ self.now.space }
        ensures least { IsFateBranch self.now within.now result }
        ensures both { IfSome result (λ dim. (dim < 64 * N) × IsSideOf within.now dim None) }
        ensures alike { result ≡ None → IsOneFate self.now within.now }
    {
        self.fates.branch(within)
    }
}
