//! Which cells may stand for which.
ghost use Rattle.std.specs.Prelude.{◌≡◌, ◌<◌, length, slice_index, IfOk};
ghost use Rattle.std.specs.List.{All};
ghost use Rattle.vt_store.specs.Diagrams.{HasCells};
ghost use Rattle.vt_store.specs.Sharing.{AreRepresentatives, AreRepresented, AreStraight, IsFoundFor, followed};

use crate::CellId;
use crate::diagram::Diagram;
use std::alloc::{AllocError, Global};
use std::collections::BTreeMap;
use std::hash::{FoldHasher, Hasher};

/// The representative of a cell.
pub(crate) fn representative(names: &[CellId], cell: CellId) -> CellId
    ensures { result ≡ slice_index names.now cell }
{
    match names.get(cell.0) {
        Some(name) => *name,
        None => CellId(0),
    }
}

/// A representative for each cell. Cells are looked at from the last to the first, since a cell of a
/// part comes before those to which it leads: equal cells below are then known to be one.
pub(crate) fn representatives(
    alloc: Global,
    diagrams: &[Diagram],
) -> Result<Vec<CellId>, AllocError>
    requires { All (HasCells (length diagrams.now)) diagrams.now }
    ensures { IfOk result (λ names. AreRepresentatives diagrams.now 0 names.items) }
{
    let mut names = each_itself(alloc, diagrams)?;
    let mut known = BTreeMap::new(alloc);
    let mut cell = diagrams.len();
    while cell > 0 {
        cell -= 1;
        let name = found_for(diagrams, &names, &mut known, CellId(cell))?;
        names[cell] = name;
    }
    Ok(names)
}

/// For each cell the one at which its links end, as far as they are links at every decision.
pub(crate) fn straight(alloc: Global, diagrams: &[Diagram]) -> Result<Vec<CellId>, AllocError>
    requires { All (HasCells (length diagrams.now)) diagrams.now }
    ensures { IfOk result (λ names. AreStraight diagrams.now names.items) }
{
    let mut names = Vec::with_capacity(alloc, diagrams.len())?;
    for cell in 0..diagrams.len() {
        names.push(last(diagrams, CellId(cell)))?;
    }
    Ok(names)
}

// The cell at which the links of a cell end.
fn last(diagrams: &[Diagram], cell: CellId) -> CellId
    requires diagrams { All (HasCells (length diagrams.now)) diagrams.now }
    requires cell { cell < length diagrams.now }
    ensures { result ≡ followed diagrams.now (length diagrams.now) cell }
{
    let mut last = cell;
    for _ in 0..diagrams.len() {
        match diagrams[last.0].target() {
            Some(next) => last = next,
            None => return last,
        }
    }
    last
}

/// Each cell as its own representative.
pub(crate) fn each_itself(alloc: Global, diagrams: &[Diagram]) -> Result<Vec<CellId>, AllocError>
    ensures { IfOk result (λ names. AreRepresentatives diagrams.now (length diagrams.now) names.items) }
{
    let mut names = Vec::with_capacity(alloc, diagrams.len())?;
    for cell in 0..diagrams.len() {
        names.push(CellId(cell))?;
    }
    Ok(names)
}

// The cell that may stand for one more: where it is a link, what stands for its target; or an equal
// cell behind it; or itself. Among cells with one fingerprint the last that was looked at is tried.
fn found_for(
    diagrams: &[Diagram],
    names: &[CellId],
    known: &mut BTreeMap<u64, CellId>,
    cell: CellId,
) -> Result<CellId, AllocError>
    requires { cell < length diagrams.now }
    ensures { IfOk result (IsFoundFor diagrams.now names.now cell) }
{
    let diagram = &diagrams[cell.0];
    if let Some(next) = diagram.target() {
        let name = representative(names, next);
        if cell < name && name.0 < diagrams.len() {
            return Ok(name);
        }
    }
    let fingerprint = fingerprint(diagram, names);
    if let Some(name) = known.get(&fingerprint).copied() {
        if cell < name && name.0 < diagrams.len() {
            if diagram.is_alike(&diagrams[name.0], names) {
                return Ok(name);
            }
        }
    }
    known.insert(fingerprint, cell)?;
    Ok(cell)
}

// A number that alike diagrams share. Nothing rests on it but speed.
fn fingerprint(diagram: &Diagram, names: &[CellId]) -> u64 {
    let mut state = FoldHasher::default();
    diagram.feed(names, &mut state);
    state.finish()
}

/// The diagrams with each cell replaced by its representative.
pub(crate) fn represented(
    alloc: Global,
    diagrams: &[Diagram],
    names: &[CellId],
) -> Result<Vec<Diagram>, AllocError>
    ensures { IfOk result (λ copies. AreRepresented names.now diagrams.now copies.items) }
{
    let mut copies = Vec::with_capacity(alloc, diagrams.len())?;
    for diagram in diagrams {
        copies.push(diagram.represented(alloc, names)?)?;
    }
    Ok(copies)
}
