//! Names: what a use of one is, and what a new one stands for.
ghost use Rattle.std.specs.Prelude.{◌≡◌, ◌<◌, length, map, slice_get, IfOk, OnOk};
ghost use Rattle.std.specs.List.{All};
ghost use Rattle.vt_scheme.specs.Schemes.{Allows, AreCells};
ghost use Rattle.vt_store.specs.Stores.{cell_count};
ghost use Rattle.vt_infer.specs.Environments.{IsHeld};
ghost use Rattle.vt_infer.specs.Inferring.{IsJoint, IsNamed, IsGeneralised};
ghost use Rattle.vt_infer.specs.Equating.{AreEquated};

use crate::environment::Entry;
use crate::work::Work;
use std::alloc::AllocError;
use vt_dec::{Context, NodeId};
use vt_scheme::{Scheme, freeze, instance};
use vt_store::laws::most_general_solution;
use vt_store::{CellId, Pattern, Store};
use vt_unify::unify;

/// A use of a name.
pub(crate) fn named<const N: usize>(
    work: &mut Work<N>,
    within: &Context<N>,
    distance: u32,
    node: NodeId,
) -> Result<CellId, AllocError>
    requires distance { distance < length work.old.environment }
    requires held { IsHeld work.old.store work.old.environment }
    requires space { within.now.space ≡ work.old.store.space }
    requires pattern { work.old.pattern.space ≡ work.old.store.space }
    ensures named { IfOk result (λ cell. IsNamed N within.now work.old.environment distance node cell work.old.store work.new.store work.old.pattern work.new.pattern) }
    ensures environment { work.new.environment ≡ work.old.environment }
{
    match work.environment.entry(distance) {
        Entry::Mono(cell) => Ok(*cell),
        Entry::Poly(scheme, originals) => used(
            &mut work.store,
            &mut work.pattern,
            within,
            scheme,
            originals.as_slice(),
            node,
        ),
    }
}

// A copy of a scheme whose monos are the cells that they stand for.
fn used<const N: usize>(
    store: &mut Store<N>,
    pattern: &mut Pattern<N>,
    within: &Context<N>,
    scheme: &Scheme<N>,
    originals: &[CellId],
    node: NodeId,
) -> Result<CellId, AllocError>
    requires scheme_space { scheme.now.cells.space ≡ store.old.space }
    requires cells { AreCells scheme.now }
    requires count { length originals.now ≡ length scheme.now.monos }
    requires originals { All (λ cell. cell < cell_count store.old) originals.now }
    requires space { within.now.space ≡ store.old.space }
    requires pattern { pattern.old.space ≡ store.old.space }
    ensures joint { IfOk result (λ cell. IsJoint N within.now (λ decision s type. Allows scheme.now decision (map s originals.now) type) node cell store.old store.new pattern.old pattern.new) }
{
    // Each decision has a solution, of the store and of the scheme.
    most_general_solution();
    store.acyclic();
    scheme.cells.acyclic();
    let copied = instance(store, scheme)?;
    equate_all(
        store,
        pattern,
        within,
        copied.monos.as_slice(),
        originals,
        node,
    )?;
    Ok(copied.root)
}

// Makes each cell one with the cell at the same place.
fn equate_all<const N: usize>(
    store: &mut Store<N>,
    pattern: &mut Pattern<N>,
    within: &Context<N>,
    copies: &[CellId],
    originals: &[CellId],
    node: NodeId,
) -> Result<(), AllocError>
    requires copies { All (λ cell. cell < cell_count store.old) copies.now }
    requires originals { All (λ cell. cell < cell_count store.old) originals.now }
    requires count { length copies.now ≡ length originals.now }
    requires space { within.now.space ≡ store.old.space }
    requires pattern { pattern.old.space ≡ store.old.space }
    ensures equated { OnOk result (AreEquated N within.now copies.now originals.now node store.old store.new pattern.old pattern.new) }
{
    for index in 0..copies.len() {
        unify(
            store,
            pattern,
            within,
            copies[index],
            originals[index],
            node,
        )?;
    }
    Ok(())
}

/// A name for a cell that takes more than one type: it is pushed with what the cell, and those of the
/// parameters in scope, are now.
pub(crate) fn generalise<const N: usize>(work: &mut Work<N>, root: CellId) -> Result<(), AllocError>
    requires root { root < cell_count work.old.store }
    requires held { IsHeld work.old.store work.old.environment }
    ensures entry { OnOk result (IsGeneralised N work.old.store root work.old.environment work.new.environment) }
    ensures store { work.new.store ≡ work.old.store }
    ensures pattern { work.new.pattern ≡ work.old.pattern }
{
    let alloc = work.store.allocator();
    let monos = work.environment.mono_cells(alloc)?;
    let scheme = freeze(alloc, &work.store, monos.as_slice(), root)?;
    work.environment.push(Entry::Poly(scheme, monos))?;
    Ok(())
}
