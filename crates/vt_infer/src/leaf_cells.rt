//! A cell for each leaf that was handed in.
ghost use Rattle.std.specs.Prelude.{◌≡◌, ◌+◌, ◌*◌, ◌<◌, ◌++◌, [], map, IfOk, OnOk};
ghost use Rattle.std.specs.List.{Contains};
ghost use Rattle.vt_dec.specs.Decisions.{Admits, Takes};
ghost use Rattle.vt_store.specs.Stores.{cell_count};
ghost use Rattle.vt_infer.specs.declared.holes.MetHole.{MetHole};
ghost use Rattle.vt_infer.specs.Mixing.{ArePlaced, GrowsTo, HaveLeafCells, IsMade, IsPlaced, cell_in};

use crate::holes::MetHole;
use crate::steps::choice_cell;
use crate::typed::LeafCells;
use std::alloc::{AllocError, Global};
use std::collections::BTreeMap;
use vt_dec::{Context, Dim, NodeId, Side};
use vt_store::{CellId, Store};
use vt_syntax::Leaf;

/// A cell for each leaf: at a decision at which a hole with the leaf's number was met, it has the type of
/// such a hole's cell. A leaf whose number was met nowhere has the main cell.
pub(crate) fn leaf_cells<const N: usize>(
    alloc: Global,
    store: &mut Store<N>,
    met: &[MetHole<N>],
    leaves: &[Leaf],
    main: CellId,
) -> Result<LeafCells, AllocError>
    requires main { main < cell_count store.old }
    requires cells { (hole : MetHole N) → Contains met.now hole → hole.cell < cell_count store.old }
    requires spaces { (hole : MetHole N) → Contains met.now hole → hole.within.space ≡ store.old.space }
    ensures { IfOk result (λ cells. HaveLeafCells N store.old store.new met.now leaves.now cells) }
{
    let known = placed(alloc, store, met, main)?;
    let mut cells = Vec::new(alloc);
    match push_cells(&mut cells, &known, leaves, main) {
        Ok(()) => {
            drop(known);
            Ok(LeafCells::new(cells))
        }
        Err(fault) => {
            drop(cells);
            drop(known);
            Err(fault)
        }
    }
}

// The cells of the numbers that were met.
fn placed<const N: usize>(
    alloc: Global,
    store: &mut Store<N>,
    met: &[MetHole<N>],
    main: CellId,
) -> Result<BTreeMap<u32, CellId>, AllocError>
    requires main { main < cell_count store.old }
    requires cells { (hole : MetHole N) → Contains met.now hole → hole.cell < cell_count store.old }
    requires spaces { (hole : MetHole N) → Contains met.now hole → hole.within.space ≡ store.old.space }
    ensures grows { IfOk result (λ known. GrowsTo N store.old store.new) }
    ensures placed { IfOk result (λ known. ArePlaced {N = N} store.new met.now (cell_in known main)) }
{
    let mut known = BTreeMap::new(alloc);
    match place_all(store, &mut known, met, main) {
        Ok(()) => Ok(known),
        Err(fault) => {
            drop(known);
            Err(fault)
        }
    }
}

fn place_all<const N: usize>(
    store: &mut Store<N>,
    known: &mut BTreeMap<u32, CellId>,
    met: &[MetHole<N>],
    main: CellId,
) -> Result<(), AllocError>
    requires cells { (hole : MetHole N) → Contains met.now hole → hole.cell < cell_count store.old }
    requires spaces { (hole : MetHole N) → Contains met.now hole → hole.within.space ≡ store.old.space }
    requires none { ArePlaced {N = N} store.old [] (cell_in known.old main) }
    ensures grows { OnOk result (GrowsTo N store.old store.new) }
    ensures placed { OnOk result (ArePlaced {N = N} store.new met.now (cell_in known.new main)) }
{
    for hole in met {
        place(store, known, hole, main)?;
    }
    Ok(())
}

// One more hole that was met.
fn place<const N: usize>(
    store: &mut Store<N>,
    known: &mut BTreeMap<u32, CellId>,
    hole: &MetHole<N>,
    main: CellId,
) -> Result<(), AllocError>
    requires hole { hole.now.cell < cell_count store.old }
    requires space { hole.now.within.space ≡ store.old.space }
    requires other { cell_in known.old main hole.now.node < cell_count store.old }
    ensures { OnOk result (IsPlaced store.old store.new hole.now known.old known.new main) }
{
    let before = cell_of(known, hole.node, main);
    let cell = mixed(store, &hole.within, hole.cell, before)?;
    known.insert(hole.node.0, cell)?;
    Ok(())
}

// The cell of a number, or the main cell if it was not met.
fn cell_of(known: &BTreeMap<u32, CellId>, node: NodeId, main: CellId) -> CellId
    ensures { result ≡ cell_in known.now main node }
{
    known.get(&node.0).copied().unwrap_or(main)
}

// A cell that is the one where the context admits a decision, and the other where it does not: a choice for
// each dimension that the context decides.
fn mixed<const N: usize>(
    store: &mut Store<N>,
    within: &Context<N>,
    one: CellId,
    other: CellId,
) -> Result<CellId, AllocError>
    requires one { one < cell_count store.old }
    requires other { other < cell_count store.old }
    requires space { within.now.space ≡ store.old.space }
    ensures { IfOk result (λ cell. IsMade N (Admits within.now) one other cell store.old store.new) }
{
    within.sized();
    let mut cell = one;
    let mut from = Dim(0);
    'dims: while let Some(decided) = within.next_decided(from) {
        cell = on_side(store, decided.0, decided.1, cell, other)?;
        from = after(decided.0)?;
    }
    Ok(cell)
}

// The one where a decision takes the side, and else the other.
fn on_side<const N: usize>(
    store: &mut Store<N>,
    dim: Dim,
    side: Side,
    one: CellId,
    other: CellId,
) -> Result<CellId, AllocError>
    requires dim { dim < 64 * N }
    requires one { one < cell_count store.old }
    requires other { other < cell_count store.old }
    ensures { IfOk result (λ cell. IsMade N (λ decision. Takes decision dim side) one other cell store.old store.new) }
{
    match side {
        Side::Left => choice_cell(store, dim, one, other),
        Side::Right => choice_cell(store, dim, other, one),
    }
}

// The next dimension.
fn after(dim: Dim) -> Result<Dim, AllocError>
    ensures { IfOk result (λ next. next ≡ dim + 1) }
{
    match dim.0.checked_add(1) {
        Some(next) => Ok(Dim(next)),
        None => Err(AllocError),
    }
}

fn push_cells(
    cells: &mut Vec<CellId>,
    known: &BTreeMap<u32, CellId>,
    leaves: &[Leaf],
    main: CellId,
) -> Result<(), AllocError>
    ensures { OnOk result (cells.new.items ≡ cells.old.items ++ map (λ leaf. cell_in known.now main leaf.node) leaves.now) }
{
    for leaf in leaves {
        cells.push(cell_of(known, leaf.node, main))?;
    }
    Ok(())
}
