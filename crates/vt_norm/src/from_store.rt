//! What a cell reads as over all decisions, as one variational type.
ghost use Rattle.std.specs.Prelude.{◌≡◌, ◌↔◌, ◌<◌, ◌≤◌, IfOk, IsErrOf, IsTrue};
ghost use Rattle.vt_dec.specs.declared.side.Space.TheVariants.{All};
ghost use Rattle.vt_type.specs.Variational.{IsWellFormedV, nodes};
ghost use Rattle.vt_type.specs.NormalForm.{IsNormalFormOf};
ghost use Rattle.vt_store.specs.Stores.{cell_count};
ghost use Rattle.vt_store.specs.Patterns.{IsShown};
ghost use Rattle.vt_norm.specs.ReadOut.{reads, IsShownFront};

use crate::fault::OutFault;
use crate::front::{Front, Spot};
use crate::part::Part;
use crate::reading::build;
use crate::resolving::resolved;
use std::alloc::{AllocError, Global};
use vt_dec::{Fate, NodeId, Side};
use vt_store::laws::own_solution;
use vt_store::{CellId, Pattern, Store};
use vt_type::VType;
use vt_type::laws::{canonical_again, same_up_to_renaming};

/// The normal form of what a cell reads as at each decision that is alive, or dead above the mark; the
/// error elsewhere. `TooBig` comes where it has more than `limit` nodes; no more than that many nodes
/// are built.
pub fn read_out(
    alloc: Global,
    store: &Store<1>,
    root: CellId,
    pattern: &Pattern<1>,
    mark: NodeId,
    limit: u64,
) -> Result<VType, OutFault>
    requires root { root < cell_count store.now }
    requires space { store.now.space ≡ All }
    requires pattern { pattern.now.space ≡ All }
    ensures normal { IfOk result (λ v. IsNormalFormOf v (reads store.now pattern.now root mark) × (nodes v ≤ limit)) }
    ensures well_formed { IfOk result IsWellFormedV }
    ensures too_big { IsErrOf result OutFault.TooBig
        → (v : VType) × IsNormalFormOf v (reads store.now pattern.now root mark) × (limit < nodes v) }
{
    // What these ensure is that there is one canonical type to read at each decision.
    own_solution();
    same_up_to_renaming();
    canonical_again();
    store.acyclic();
    let part = Part::whole();
    let front = shown_front(&part, alloc, store, root, pattern, mark)?;
    let mut way = Vec::new(alloc);
    let mut met = Vec::new(alloc);
    let mut spare = limit;
    let built = build(&front, alloc, store, &part, &mut way, &mut met, &mut spare);
    drop(met);
    drop(front);
    built
}

// The cell where the decision is shown, the error elsewhere.
fn shown_front(
    part: &Part,
    alloc: Global,
    store: &Store<1>,
    root: CellId,
    pattern: &Pattern<1>,
    mark: NodeId,
) -> Result<Front, AllocError>
    requires root { root < cell_count store.now }
    requires space { store.now.space ≡ All }
    requires pattern { pattern.now.space ≡ All }
    ensures { IfOk result (IsShownFront store.now pattern.now root mark part.now) }
{
    match pattern.splits(&part.context()) {
        Some(dim) => {
            let left = part.with(dim, Side::Left);
            let left = shown_front(&left, alloc, store, root, pattern, mark)?;
            let right = part.with(dim, Side::Right);
            match shown_front(&right, alloc, store, root, pattern, mark) {
                Ok(right) => Front::joined(alloc, dim, left, right),
                Err(fault) => {
                    drop(left);
                    Err(fault)
                }
            }
        }
        None => {
            if is_shown(pattern.fate(&part.least()), mark) {
                resolved(store, alloc, root, part)
            } else {
                Ok(Front::Leaf(Spot::Wrong))
            }
        }
    }
}

// Alive, or dead at a node above the mark.
fn is_shown(fate: Fate, mark: NodeId) -> bool
    ensures { IsTrue result ↔ IsShown mark fate }
{
    match fate {
        Fate::Alive => true,
        Fate::Dead(node) => mark < node,
    }
}
