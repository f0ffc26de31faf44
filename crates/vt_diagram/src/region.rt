//! Regions: sets of the decisions of a space.
ghost use Rattle.std.specs.Prelude.{◌≡◌, ◌⊎◌, ◌↔◌, ◌+◌, ◌*◌, ◌<◌, IfOk, IsTrue, List};
ghost use Rattle.vt_dec.specs.declared.side.Side.{Side};
ghost use Rattle.vt_dec.specs.declared.side.Space.{Space};
ghost use Rattle.vt_dec.specs.Decisions.{Admits, Takes};
ghost use Rattle.vt_diagram.specs.Regions.{Has, IsMember, IsNextOf, IsOf, IsOnSide, IsRegion, IsRegionFrom, IsSide, IsWritten};
ghost use Rattle.vt_diagram.specs.Tables.{Holds, Grows, tree_at, value_at};
ghost use Rattle.vt_diagram.specs.Trees.{IsOrdered};

use crate::operation::Operation;
use crate::spending::budget_of;
use crate::{DiagramId, Table};
use std::alloc::AllocError;
use vt_dec::{Context, Decision, Dim, Side, Space};

impl<const N: usize> Table<N> {
    /// The decisions of the space that both regions have.
    pub fn both(
        &mut self,
        space: Space,
        one: DiagramId,
        other: DiagramId,
    ) -> Result<DiagramId, AllocError>
        requires { Holds self.old one × Holds self.old other }
        ensures grows { Grows self.old self.new }
        ensures both { IfOk result (IsRegion N space self.new (λ decision. Has self.old one decision × Has self.old other decision)) }
    {
        self.combined(budget_of(space), Operation::Both, one, other)
    }

    /// The decisions of the space that one of the regions has, or both.
    pub fn either(
        &mut self,
        space: Space,
        one: DiagramId,
        other: DiagramId,
    ) -> Result<DiagramId, AllocError>
        requires { Holds self.old one × Holds self.old other }
        ensures grows { Grows self.old self.new }
        ensures either { IfOk result (IsRegion N space self.new (λ decision. Has self.old one decision ⊎ Has self.old other decision)) }
    {
        self.combined(budget_of(space), Operation::Either, one, other)
    }

    /// The decisions of the space that the one region has and the other has not.
    pub fn without(
        &mut self,
        space: Space,
        one: DiagramId,
        other: DiagramId,
    ) -> Result<DiagramId, AllocError>
        requires { Holds self.old one × Holds self.old other }
        ensures grows { Grows self.old self.new }
        ensures without { IfOk result (IsRegion N space self.new (λ decision. Has self.old one decision × (Has self.old other decision → ⊥))) }
    {
        self.combined(budget_of(space), Operation::Without, one, other)
    }

    /// The decisions of the space at which two diagrams have one value.
    pub fn same(
        &mut self,
        space: Space,
        one: DiagramId,
        other: DiagramId,
    ) -> Result<DiagramId, AllocError>
        requires { Holds self.old one × Holds self.old other }
        ensures grows { Grows self.old self.new }
        ensures same { IfOk result (IsRegion N space self.new (λ decision. value_at self.old one decision ≡ value_at self.old other decision)) }
    {
        self.combined(budget_of(space), Operation::Same, one, other)
    }

    /// The diagram that has the value in the region, and elsewhere what the given one has.
    pub fn write(
        &mut self,
        space: Space,
        region: DiagramId,
        value: u32,
        id: DiagramId,
    ) -> Result<DiagramId, AllocError>
        requires { Holds self.old region × Holds self.old id }
        ensures grows { Grows self.old self.new }
        ensures written { IfOk result (IsWritten N space self.new region value id) }
    {
        self.combined(budget_of(space), Operation::Write(value), region, id)
    }

    /// The region has no decision of the space. It looks at one number.
    pub fn is_empty(&self, space: Space, region: DiagramId) -> bool
        requires { Holds self.now region }
        ensures { IsTrue result ↔ ((decision : List Side) → IsOf N space decision → Has self.now region decision → ⊥) }
    {
        self.entries.is_empty(region, space)
    }

    /// A decision of the space that the region has, with as few `Right`s as there can be.
    pub fn member(&self, space: Space, region: DiagramId) -> Option<Decision<N>>
        requires { Holds self.now region }
        ensures { IsMember N space self.now region result }
    {
        self.entries.member(region, space)
    }

    /// The decisions that take a side.
    pub fn on(&mut self, dim: Dim, side: Side) -> Result<DiagramId, AllocError>
        requires { dim < 64 * N }
        ensures grows { Grows self.old self.new }
        ensures on { IfOk result (IsSide N self.new dim side) }
    {
        let all = self.leaf(1)?;
        self.on_side(dim, side, all)
    }

    /// The decisions that a context admits. Where its budget is used up the rest takes no choice, so a
    /// context that decides one dimension costs the same whatever the number of dimensions.
    pub fn of(&mut self, within: &Context<N>) -> Result<DiagramId, AllocError>
        ensures grows { Grows self.old self.new }
        ensures of { IfOk result (IsRegion N within.now.space self.new (Admits within.now)) }
    {
        within.sized();
        self.of_from(within, Dim(0))
    }

    // The region of what the context decides from a dimension on.
    fn of_from(&mut self, within: &Context<N>, from: Dim) -> Result<DiagramId, AllocError>
        ensures grows { Grows self.old self.new }
        ensures of { IfOk result (IsRegionFrom (64 * N) within.now from self.new) }
    {
        within.sized();
        match next_in(within, from) {
            None => self.leaf(1),
            Some((dim, side)) => {
                let next = after(dim)?;
                let rest = self.of_from(within, next)?;
                self.on_side(dim, side, rest)
            }
        }
    }

    // The part of a region that takes a side.
    fn on_side(&mut self, dim: Dim, side: Side, rest: DiagramId) -> Result<DiagramId, AllocError>
        requires below { dim < 64 * N }
        requires rest { Holds self.old rest × IsOrdered (64 * N) (dim + 1) (tree_at self.old rest) }
        ensures grows { Grows self.old self.new }
        ensures is { IfOk result (IsOnSide (64 * N) self.new dim side rest) }
    {
        let none = self.zero();
        match side {
            Side::Left => self.choice(dim, rest, none),
            Side::Right => self.choice(dim, none, rest),
        }
    }
}

// The first dimension from a number on that the context decides.
fn next_in<const N: usize>(within: &Context<N>, from: Dim) -> Option<(Dim, Side)>
    ensures { IsNextOf within.now from result }
{
    within.next_decided(from)
}

// The next dimension. There is none after the last number that a dimension can have, which is far
// above those that a decision has.
fn after(dim: Dim) -> Result<Dim, AllocError>
    ensures { IfOk result (λ next. next ≡ dim + 1) }
{
    match dim.0.checked_add(1) {
        Some(next) => Ok(Dim(next)),
        None => Err(AllocError),
    }
}
