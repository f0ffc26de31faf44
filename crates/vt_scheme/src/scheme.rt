ghost use Rattle.std.specs.Prelude.{◌≡◌, ◌*◌, ◌^◌, ◌<◌, IfOk, OnErr};
ghost use Rattle.std.specs.List.{All};
ghost use Rattle.vt_store.specs.Stores.{cell_count, IsUnchanged};
ghost use Rattle.vt_store.specs.Sharing.{IsShared};
ghost use Rattle.vt_scheme.specs.Schemes.{AreCells, IsFrozen, IsInstanceOf};

use std::alloc::{AllocError, Global};
use vt_store::laws::solutions_of_parts;
use vt_store::{CellId, CellList, Part, Shared, Store};

/// Cells of their own, some of which, the monos, stand for cells that all copies share, and one of
/// which, the root, stands for the type that is copied.
#[derive(Debug, Drop)]
pub struct Scheme<const N: usize> {
    pub cells: Store<N>,
    pub monos: CellList,
    pub root: CellId,
}

/// A copy of a scheme: the copies of its monos, which are still to be made equal to the cells that
/// they stand for, and that of its root.
#[derive(Debug, Drop)]
pub struct Copied {
    pub monos: CellList,
    pub root: CellId,
}

/// The part of a store to which the monos and the root lead, as a scheme. What two sides of a choice say
/// alike and cells that are equal are made one, as long as that leaves fewer, so that what is copied
/// again and again is small.
pub fn freeze<const N: usize>(
    alloc: Global,
    store: &Store<N>,
    monos: &[CellId],
    root: CellId,
) -> Result<Scheme<N>, AllocError>
    requires monos { All (λ cell. cell < cell_count store.now) monos.now }
    requires root { root < cell_count store.now }
    ensures frozen { IfOk result (IsFrozen N store.now monos.now root) }
{
    let scheme = taken(alloc, store, monos, root)?;
    let mut scheme = narrowed(alloc, scheme)?;
    'turns: loop {
        let merged = merged(alloc, &scheme)?;
        if scheme.cells.count() <= merged.cells.count() {
            return Ok(merged);
        }
        scheme = merged;
    }
}

// The part of a store to which the monos and the root lead.
fn taken<const N: usize>(
    alloc: Global,
    store: &Store<N>,
    monos: &[CellId],
    root: CellId,
) -> Result<Scheme<N>, AllocError>
    requires monos { All (λ cell. cell < cell_count store.now) monos.now }
    requires root { root < cell_count store.now }
    ensures { IfOk result (IsFrozen N store.now monos.now root) }
{
    // These make a solution of the part one of the store.
    solutions_of_parts();
    store.acyclic();
    let part = store.part(alloc, monos, root)?;
    Ok(Scheme {
        cells: part.store,
        monos: part.cells,
        root: part.root,
    })
}

// The scheme with equal cells made one, as far as one look at all cells finds them.
fn merged<const N: usize>(alloc: Global, scheme: &Scheme<N>) -> Result<Scheme<N>, AllocError>
    requires { AreCells scheme.now }
    ensures { IfOk result (IsFrozen N scheme.now.cells scheme.now.monos scheme.now.root) }
{
    let straight = represented(alloc, scheme, scheme.cells.straightened(alloc)?)?;
    let shared = represented(alloc, &straight, straight.cells.shared(alloc)?)?;
    taken(alloc, &shared.cells, shared.monos.as_slice(), shared.root)
}

// The scheme with each cell as it is where the monos and the root lead to it.
fn narrowed<const N: usize>(alloc: Global, scheme: Scheme<N>) -> Result<Scheme<N>, AllocError>
    requires { AreCells scheme }
    ensures { IfOk result (IsFrozen N scheme.entry.cells scheme.entry.monos scheme.entry.root) }
{
    let part = Part {
        store: scheme.cells,
        cells: scheme.monos,
        root: scheme.root,
    };
    let part = part.narrowed(alloc)?;
    Ok(Scheme {
        cells: part.store,
        monos: part.cells,
        root: part.root,
    })
}

// The scheme with the representatives of its cells in their place.
fn represented<const N: usize>(
    alloc: Global,
    scheme: &Scheme<N>,
    shared: Shared<N>,
) -> Result<Scheme<N>, AllocError>
    requires cells { AreCells scheme.now }
    requires shared { IsShared N scheme.now.cells shared }
    ensures { IfOk result (IsFrozen N scheme.now.cells scheme.now.monos scheme.now.root) }
{
    let monos = scheme
        .monos
        .represented(alloc, shared.representatives.as_slice())?;
    let root = shared.representative(scheme.root);
    Ok(Scheme {
        cells: shared.store,
        monos,
        root,
    })
}

// Does nothing. A proof calls it that rests on the number of cells of two stores being a number of 64 bits.
fn few_cells<const N: usize>(store: &Store<N>)
    ensures { 2 * cell_count store.now < 2 ^ 64 }
{
    let _ = store.count();
}

/// Copies a scheme's cells after those of a store. On an error the store's cells are as before.
pub fn instance<const N: usize>(
    store: &mut Store<N>,
    scheme: &Scheme<N>,
) -> Result<Copied, AllocError>
    requires space { scheme.now.cells.space ≡ store.old.space }
    requires cells { AreCells scheme.now }
    ensures ok { IfOk result (λ copied. IsInstanceOf scheme.now copied store.old store.new) }
    ensures err { OnErr result (IsUnchanged store.old store.new) }
{
    // In both stores ends name cells of the same store, and the sum of their cells fits.
    store.acyclic();
    scheme.cells.acyclic();
    few_cells(&scheme.cells);
    let by = store.count();
    let monos = scheme.monos.raised(store.allocator(), by)?;
    let root = CellId(scheme.root.0 + by);
    store.append(&scheme.cells)?;
    Ok(Copied { monos, root })
}
