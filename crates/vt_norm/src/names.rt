//! Where each open cell was met, at each decision.
ghost use Rattle.std.specs.Prelude.{◌≡◌, ◌↔◌, ℕ, ◌<◌, List, Some, None, IfSome, IfOk, IsTrue, length, slice_get};
ghost use Rattle.std.specs.Map.{lookup};
ghost use Rattle.std.specs.Str.{bytes_eq};
ghost use Rattle.vt_dec.specs.declared.side.Side.{Side};
ghost use Rattle.vt_dec.specs.Decisions.{Agrees};
ghost use Rattle.vt_norm.specs.declared.root.Top.TheVariants.{Named};
ghost use Rattle.vt_norm.specs.Diagrams.{at};
ghost use Rattle.vt_norm.specs.Sides.{taken_side};
ghost use Rattle.vt_norm.specs.Names.{met_at, name_at, IsOpenTree, IsNamedTree, FindsAlike, IsFirstMet, Holds};

use crate::diagram::{Diagram, joined};
use crate::part::Part;
use crate::root::Top;
use std::alloc::{AllocError, Global};
use vt_dec::{Dim, Side};
use vt_store::CellId;
use vt_type::Path;

/// An open cell, with the path at which it was met at the decisions of a part.
#[derive(Drop)]
pub(crate) struct Met {
    pub(crate) cell: CellId,
    pub(crate) path: Path,
    pub(crate) part: Part,
}

// The cell was met at some decision of the part.
fn is_met(entry: &Met, cell: CellId, part: &Part) -> bool
    ensures { IsTrue result ↔ (entry.now.cell ≡ cell) × (d : List Side) × Agrees entry.now.part d × Agrees part.now d }
{
    entry.cell == cell && entry.part.meets(part)
}

// What is left of the list from the first place on at which the cell was met in the part.
fn first_met<'a>(met: &'a [Met], cell: CellId, part: &Part) -> &'a [Met]
    ensures alike { FindsAlike part.now cell met.now result.now }
    ensures first { IsFirstMet part.now cell result.now }
{
    let mut rest = met;
    while let Some((first, others)) = rest.split_first() {
        if is_met(first, cell, part) {
            return rest;
        }
        rest = others;
    }
    rest
}

// A dimension that the one part decides and the other leaves open.
fn open_in(entry: &Part, part: &Part) -> Option<Dim>
    ensures open { IfSome result (λ dim. slice_get part.now dim ≡ Some None) }
    ensures none { result ≡ None → (both : List Side) → Agrees entry.now both → Agrees part.now both → Holds part.now entry.now }
{
    // What it ensures of the part is that the loop comes to each of its dimensions.
    let _sized = entry.side(Dim(0));
    for dim in 0..64u32 {
        if entry.side(Dim(dim)).is_some() && part.side(Dim(dim)).is_none() {
            return Some(Dim(dim));
        }
    }
    None
}

/// The path at which the cell was met first, or the present one, at each decision of the part.
pub(crate) fn named(
    met: &[Met],
    alloc: Global,
    cell: CellId,
    here: &[u8],
    part: &Part,
) -> Result<Diagram, AllocError>
    ensures { IfOk result (IsNamedTree part.now met.now here.now cell) }
{
    let met = first_met(met, cell, part);
    let Some(entry) = met.first() else {
        let here = Path::new(Vec::from_slice(alloc, here)?);
        return Ok(Diagram::Leaf(Top::Named(here)));
    };
    match open_in(&entry.part, part) {
        None => Ok(Diagram::Leaf(Top::Named(entry.path.copied(alloc)?))),
        Some(dim) => {
            let left = named(met, alloc, cell, here, &part.with(dim, Side::Left))?;
            let right = named(met, alloc, cell, here, &part.with(dim, Side::Right))?;
            joined(alloc, dim, left, right)
        }
    }
}
