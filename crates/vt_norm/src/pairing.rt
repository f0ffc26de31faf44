//! What two cells read as at one decision.
ghost use Rattle.std.specs.Prelude.{◌≡◌, ◌⊎◌, ◌+◌, ◌<◌, ◌≤◌, ℕ, List, [], ◌∷◌, ◌++◌, length, drop, unwrap_or, IfOk, OnOk, IsErrOf};
ghost use Rattle.std.specs.List.{All};
ghost use Rattle.std.specs.Map.{lookup};
ghost use Rattle.std.specs.Str.{bytes_eq};
ghost use Rattle.vt_type.specs.declared.plain.Plain.{Plain};
ghost use Rattle.vt_type.specs.Plain.{IsWellFormed, kid_count, plain_nodes, kids_nodes};
ghost use Rattle.vt_store.specs.Solutions.{PairReadsAs};
ghost use Rattle.vt_store.specs.Ends.{IsAcyclic};
ghost use Rattle.vt_store.specs.Stores.{cell_count, ends_at};
ghost use Rattle.vt_store.specs.Views.{LooksAs};
ghost use Rattle.vt_store.specs.Writes.{IsOf};
ghost use Rattle.vt_norm.specs.Pairing.{places_of, HasKids, PlainIsMet, PlainKidsAreMet, IsPlain, ArePlain, IsPlainBeyond, ArePlainBeyond};

use crate::fault::OutFault;
use crate::reading::enter;
use std::alloc::{AllocError, Global};
use vt_dec::Decision;
use vt_store::laws::own_solution;
use vt_store::{CellId, Look, Store};
use vt_type::laws::{canonical_again, same_up_to_renaming};
use vt_type::{Path, Plain, PlainKids};

/// Two types in which one name stands for one variable: each is named by where it stands first in the
/// pair of the two.
#[derive(Drop)]
pub struct PlainPair {
    pub wanted: Plain,
    pub result: Plain,
}

// An open cell, with the path at which it was met first.
#[derive(Drop)]
struct Seen {
    cell: CellId,
    path: Path,
}

/// The pair as which two cells read at a decision. `TooBig` comes where one of the two has more than
/// `limit` nodes; no more than that many nodes are built of either.
pub fn read_pair<const N: usize>(
    alloc: Global,
    store: &Store<N>,
    wanted: CellId,
    whole: CellId,
    decision: &Decision<N>,
    limit: u64,
) -> Result<PlainPair, OutFault>
    requires wanted { wanted < cell_count store.now }
    requires whole { whole < cell_count store.now }
    requires decision { IsOf N store.now.space decision.now }
    ensures read { IfOk result (λ p. PairReadsAs (cell_count store.now) (ends_at store.now decision.now) wanted whole p.wanted p.result
        × (plain_nodes p.wanted ≤ limit) × (plain_nodes p.result ≤ limit)) }
    ensures well_formed { IfOk result (λ p. IsWellFormed p.wanted × IsWellFormed p.result) }
    ensures too_big { IsErrOf result OutFault.TooBig
        → (one other : Plain) × PairReadsAs (cell_count store.now) (ends_at store.now decision.now) wanted whole one other
        × (limit < plain_nodes one ⊎ limit < plain_nodes other) }
{
    // What these ensure is that there is one canonical pair to read.
    own_solution();
    same_up_to_renaming();
    canonical_again();
    store.acyclic();
    let mut seen = Vec::new(alloc);
    let wanted = match type_below(alloc, store, decision, wanted, 0, &mut seen, limit) {
        Ok(wanted) => wanted,
        Err(fault) => {
            drop(seen);
            return Err(fault);
        }
    };
    let result = type_below(alloc, store, decision, whole, 1, &mut seen, limit);
    drop(seen);
    match result {
        Ok(result) => Ok(PlainPair { wanted, result }),
        Err(fault) => {
            drop(wanted);
            Err(fault)
        }
    }
}

// The type of a cell that is the child of this number of a pair.
fn type_below<const N: usize>(
    alloc: Global,
    store: &Store<N>,
    decision: &Decision<N>,
    cell: CellId,
    number: u8,
    seen: &mut Vec<Seen>,
    limit: u64,
) -> Result<Plain, OutFault>
    requires cell { cell < cell_count store.now }
    requires decision { IsOf N store.now.space decision.now }
    ensures met { OnOk result (PlainIsMet (cell_count store.now) (ends_at store.now decision.now) cell (number ∷ []) (places_of seen.old.items) (places_of seen.new.items)) }
    ensures built { IfOk result (IsPlain (cell_count store.now) (ends_at store.now decision.now) cell (number ∷ []) (places_of seen.old.items)) }
    ensures size { IfOk result (λ t. plain_nodes t ≤ limit) }
    ensures too_big { IsErrOf result OutFault.TooBig → IsPlainBeyond (cell_count store.now) (ends_at store.now decision.now) cell limit }
{
    let mut way = Vec::new(alloc);
    enter(&mut way, number)?;
    let mut spare = limit;
    plain(store, alloc, decision, cell, &mut way, seen, &mut spare)
}

// The type of a cell. `way` is the path at which it stands, and each node takes one from `spare`.
#[cycle(plain)]
fn plain<const N: usize>(
    store: &Store<N>,
    alloc: Global,
    decision: &Decision<N>,
    cell: CellId,
    way: &mut Vec<u8>,
    seen: &mut Vec<Seen>,
    spare: &mut u64,
) -> Result<Plain, OutFault>
    requires cell { cell < cell_count store.now }
    requires decision { IsOf N store.now.space decision.now }
    ensures way { OnOk result (way.new.items ≡ way.old.items) }
    ensures met { OnOk result (PlainIsMet (cell_count store.now) (ends_at store.now decision.now) cell way.old.items (places_of seen.old.items) (places_of seen.new.items)) }
    ensures built { IfOk result (IsPlain (cell_count store.now) (ends_at store.now decision.now) cell way.old.items (places_of seen.old.items)) }
    ensures spare { IfOk result (λ t. spare.new + plain_nodes t ≡ spare.old) }
    ensures too_big { IsErrOf result OutFault.TooBig → IsPlainBeyond (cell_count store.now) (ends_at store.now decision.now) cell spare.old }
{
    if *spare == 0 {
        return Err(OutFault::TooBig);
    }
    *spare -= 1;
    match looked(store, cell, decision) {
        Look::Open(last) => Ok(Plain::Var(meet(alloc, seen, last, way)?)),
        Look::Con(head, kids) => {
            let kids = plain_kids(store, alloc, decision, kids, 0, way, seen, spare)?;
            Ok(Plain::Con(head, kids))
        }
    }
}

// The types of the children from this number on.
#[cycle(plain)]
fn plain_kids<const N: usize>(
    store: &Store<N>,
    alloc: Global,
    decision: &Decision<N>,
    kids: &[CellId],
    number: u8,
    way: &mut Vec<u8>,
    seen: &mut Vec<Seen>,
    spare: &mut u64,
) -> Result<PlainKids, OutFault>
    requires cells { All (λ kid. kid < cell_count store.now) kids.now }
    requires few { length kids.now < 256 }
    requires decision { IsOf N store.now.space decision.now }
    ensures way { OnOk result (way.new.items ≡ way.old.items) }
    ensures met { OnOk result (PlainKidsAreMet (cell_count store.now) (ends_at store.now decision.now) (drop number kids.now) number way.old.items (places_of seen.old.items) (places_of seen.new.items)) }
    ensures built { IfOk result (ArePlain (cell_count store.now) (ends_at store.now decision.now) (drop number kids.now) number way.old.items (places_of seen.old.items)) }
    ensures spare { IfOk result (λ ts. spare.new + kids_nodes ts ≡ spare.old) }
    ensures too_big { IsErrOf result OutFault.TooBig → ArePlainBeyond (cell_count store.now) (ends_at store.now decision.now) (drop number kids.now) spare.old }
{
    if number as usize >= kids.len() {
        return Ok(PlainKids::Nil);
    }
    let kid = kids[number as usize];
    enter(way, number)?;
    let first = plain(store, alloc, decision, kid, way, seen, spare)?;
    way.pop();
    let others = match plain_kids(store, alloc, decision, kids, number + 1, way, seen, spare) {
        Ok(others) => others,
        Err(fault) => {
            drop(first);
            return Err(fault);
        }
    };
    Ok(PlainKids::more(alloc, first, others)?)
}

// What the cell is bound to once links are followed, with what is known of its children.
fn looked<'a, const N: usize>(store: &'a Store<N>, cell: CellId, decision: &Decision<N>) -> Look<'a>
    requires cell { cell < cell_count store.now }
    requires decision { IsOf N store.now.space decision.now }
    ensures looks { LooksAs (ends_at store.now decision.now) cell result }
    ensures kids { HasKids (cell_count store.now) result }
    ensures acyclic { IsAcyclic (cell_count store.now) (ends_at store.now decision.now) }
{
    // The children are cells, as many as the arity says.
    store.acyclic();
    let look = store.look(cell, decision);
    match look {
        Look::Open(_) => {}
        Look::Con(head, _) => {
            let _arity = head.arity();
        }
    }
    look
}

// The path at which the open cell was met first. That is here where it was not met before.
fn meet(alloc: Global, seen: &mut Vec<Seen>, cell: CellId, here: &[u8]) -> Result<Path, AllocError>
    ensures first { IfOk result (λ path. path ≡ unwrap_or (lookup (bytes_eq (cell ∷ [])) (places_of seen.old.items)) here.now) }
    ensures met { OnOk result (places_of seen.new.items ≡ places_of seen.old.items ++ (cell ∷ [], here.now) ∷ []) }
{
    let path = first_path(alloc, seen, cell, here)?;
    let own = Path::new(Vec::from_slice(alloc, here)?);
    seen.push(Seen { cell, path: own })?;
    Ok(path)
}

fn first_path(alloc: Global, seen: &[Seen], cell: CellId, here: &[u8]) -> Result<Path, AllocError>
    ensures { IfOk result (λ path. path ≡ unwrap_or (lookup (bytes_eq (cell ∷ [])) (places_of seen.now)) here.now) }
{
    for own in seen {
        if own.cell == cell {
            return own.path.copied(alloc);
        }
    }
    Ok(Path::new(Vec::from_slice(alloc, here)?))
}
