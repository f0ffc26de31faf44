//! What cells that others lead to on one side of a dimension alone may be on the other side.
ghost use Rattle.std.specs.Prelude.{◌≡◌, ◌++◌, ◌<◌, length, IfOk, IsTrue, OnOk};
ghost use Rattle.std.specs.List.{All};
ghost use Rattle.vt_store.specs.declared.diagram.Diagram.{Open};
ghost use Rattle.vt_store.specs.Diagrams.{HasCells};
ghost use Rattle.vt_store.specs.Narrowing.{named_on, on_side, IsReached, IsOnSides, AreReached, AreOnSides, AreOpenAlone, ArePaired, ArePairs};

use crate::diagram::Diagram;
use crate::found::Found;
use crate::sharing::each_itself;
use crate::{CellId, CellList};
use std::alloc::{AllocError, Global};
use std::collections::BTreeSet;
use vt_dec::{Dim, Side};

impl Diagram {
    // Adds the cells that it names where a decision takes the side of the dimension.
    fn push_named(&self, dim: Dim, side: Side, cells: &mut Vec<CellId>) -> Result<(), AllocError>
        ensures { OnOk result (cells.new.items ≡ cells.old.items ++ named_on dim side self.now) }
    {
        match self {
            Diagram::Open => Ok(()),
            Diagram::Link(cell) => Ok(cells.push(*cell)?),
            Diagram::Con(_, kids) => cells.extend_from_slice(kids.as_slice()),
            Diagram::Choice(own, left, right) => {
                let own = *own;
                if own != dim {
                    left.get().push_named(dim, side, cells)?;
                    return right.get().push_named(dim, side, cells);
                }
                match side {
                    Side::Left => left.get().push_named(dim, side, cells),
                    Side::Right => right.get().push_named(dim, side, cells),
                }
            }
        }
    }

    // The diagram as it is on the side of the dimension, whatever side of it a decision takes.
    fn on_side(&self, alloc: Global, dim: Dim, side: Side) -> Result<Diagram, AllocError>
        ensures { IfOk result (λ diagram. diagram ≡ on_side dim side self.now) }
    {
        match self {
            Diagram::Choice(own, left, right) => {
                let own = *own;
                if own != dim {
                    let left = left.get().on_side(alloc, dim, side)?;
                    let right = right.get().on_side(alloc, dim, side)?;
                    return Diagram::choice(alloc, own, left, right);
                }
                match side {
                    Side::Left => left.get().on_side(alloc, dim, side),
                    Side::Right => right.get().on_side(alloc, dim, side),
                }
            }
            _ => self.copied(alloc),
        }
    }

    // The diagram of a cell to which others lead on these sides of the dimension alone.
    fn on_sides(
        &self,
        alloc: Global,
        dim: Dim,
        on_left: bool,
        on_right: bool,
    ) -> Result<Diagram, AllocError>
        ensures { IfOk result (IsOnSides dim on_left on_right self.now) }
    {
        match (on_left, on_right) {
            (true, true) => self.copied(alloc),
            (true, false) => self.on_side(alloc, dim, Side::Left),
            (false, true) => self.on_side(alloc, dim, Side::Right),
            (false, false) => Ok(Diagram::Open),
        }
    }

    // It is open at every decision.
    fn is_open(&self) -> bool
        ensures { IsTrue result → self.now ≡ Open }
    {
        match self {
            Diagram::Open => true,
            _ => false,
        }
    }

    // It is open at some decision.
    fn has_open(&self) -> bool {
        match self {
            Diagram::Open => true,
            Diagram::Link(_) => false,
            Diagram::Con(_, _) => false,
            Diagram::Choice(_, left, right) => left.get().has_open() || right.get().has_open(),
        }
    }

    // Adds the dimensions of its choices.
    fn add_dims(&self, dims: &mut BTreeSet<Dim>) -> Result<(), AllocError> {
        if let Diagram::Choice(dim, left, right) = self {
            dims.insert(*dim)?;
            left.get().add_dims(dims)?;
            right.get().add_dims(dims)?;
        }
        Ok(())
    }
}

/// The dimensions on which diagrams branch, rising; none where no cell is open at any decision, since no
/// side then leaves open what another one binds.
pub(crate) fn dims(alloc: Global, diagrams: &[Diagram]) -> Result<BTreeSet<Dim>, AllocError> {
    let mut dims = BTreeSet::new(alloc);
    if !diagrams.iter().any(Diagram::has_open) {
        return Ok(dims);
    }
    for diagram in diagrams {
        diagram.add_dims(&mut dims)?;
    }
    Ok(dims)
}

// Some cells and all to which they lead where a decision takes the side of the dimension. They come
// in the order in which a walk down meets them, which links do not change.
fn reached(
    alloc: Global,
    diagrams: &[Diagram],
    cells: &CellList,
    root: CellId,
    dim: Dim,
    side: Side,
) -> Result<Found, AllocError>
    requires diagrams { All (HasCells (length diagrams.now)) diagrams.now }
    requires cells { All (λ cell. cell < length diagrams.now) cells.now }
    requires root { root < length diagrams.now }
    ensures { IfOk result (IsReached diagrams.now dim side cells.now root) }
{
    let mut found = Found::new(alloc);
    let mut ahead = Vec::from_slice(alloc, cells.as_slice())?;
    ahead.push(root)?;
    while let Some(cell) = ahead.pop() {
        if found.add(cell)? {
            diagrams[cell.0].push_named(dim, side, &mut ahead)?;
        }
    }
    Ok(found)
}

/// The cells that are reached on either side of a dimension.
#[derive(Drop)]
pub(crate) struct Sides {
    left: Found,
    right: Found,
}

/// What some cells and one more lead to on either side of the dimension.
pub(crate) fn reached_on_both(
    alloc: Global,
    diagrams: &[Diagram],
    cells: &CellList,
    root: CellId,
    dim: Dim,
) -> Result<Sides, AllocError>
    requires diagrams { All (HasCells (length diagrams.now)) diagrams.now }
    requires cells { All (λ cell. cell < length diagrams.now) cells.now }
    requires root { root < length diagrams.now }
    ensures { IfOk result (λ sides. AreReached diagrams.now dim cells.now root sides.left sides.right) }
{
    let left = reached(alloc, diagrams, cells, root, dim, Side::Left)?;
    let right = reached(alloc, diagrams, cells, root, dim, Side::Right)?;
    Ok(Sides { left, right })
}

/// The diagrams of all cells, each as it is on the sides on which the cell is reached.
pub(crate) fn on_sides(
    alloc: Global,
    diagrams: &[Diagram],
    dim: Dim,
    sides: &Sides,
) -> Result<Vec<Diagram>, AllocError>
    ensures { IfOk result (λ copies. AreOnSides dim sides.now.left sides.now.right diagrams.now copies.items) }
{
    let (left, right) = (&sides.left, &sides.right);
    let mut copies = Vec::with_capacity(alloc, diagrams.len())?;
    for cell in 0..diagrams.len() {
        let on_left = left.contains(CellId(cell));
        let on_right = right.contains(CellId(cell));
        copies.push(diagrams[cell].on_sides(alloc, dim, on_left, on_right)?)?;
    }
    Ok(copies)
}

/// A name for each cell, where the open cells that are reached on one side alone are one with those of
/// the other side, in the order in which they were met.
pub(crate) fn pairs(
    alloc: Global,
    diagrams: &[Diagram],
    sides: &Sides,
) -> Result<Vec<CellId>, AllocError>
    requires left { All (λ cell. cell < length diagrams.now) sides.now.left }
    requires right { All (λ cell. cell < length diagrams.now) sides.now.right }
    ensures { IfOk result (λ names. ArePairs diagrams.now sides.now.left sides.now.right names.items) }
{
    let ones = open_alone(alloc, diagrams, &sides.left, &sides.right)?;
    let others = open_alone(alloc, diagrams, &sides.right, &sides.left)?;
    paired(alloc, diagrams, &ones, &others)
}

// The open cells among some, in order, that are not among others.
fn open_alone(
    alloc: Global,
    diagrams: &[Diagram],
    ones: &Found,
    others: &Found,
) -> Result<Found, AllocError>
    requires { All (λ cell. cell < length diagrams.now) ones.now }
    ensures { IfOk result (AreOpenAlone diagrams.now ones.now others.now) }
{
    let mut found = Found::new(alloc);
    for cell in ones.as_slice() {
        if !others.contains(CellId(*cell)) && diagrams[*cell].is_open() {
            found.add(CellId(*cell))?;
        }
    }
    Ok(found)
}

// A name for each cell: for each of the second ones the first one at its place, and else itself.
fn paired(
    alloc: Global,
    diagrams: &[Diagram],
    ones: &Found,
    others: &Found,
) -> Result<Vec<CellId>, AllocError>
    requires { All (λ cell. cell < length diagrams.now) others.now }
    ensures { IfOk result (λ names. ArePaired (length diagrams.now) ones.now others.now names.items) }
{
    let mut names = each_itself(alloc, diagrams)?;
    let (ones, others) = (ones.as_slice(), others.as_slice());
    for place in 0..ones.len().min(others.len()) {
        names[others[place]] = CellId(ones[place]);
    }
    Ok(names)
}
