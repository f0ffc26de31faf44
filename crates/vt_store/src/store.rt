ghost use Rattle.std.specs.Prelude.{◌≡◌, ◌*◌, ◌+◌, ◌≤◌, ◌<◌, ◌^◌, ℕ, List, [], ◌∷◌, ◌++◌, length, map, slice_index, None, IfSome, OnOk, OnErr, IfOk, IsOk, vec_len, vec_capacity};
ghost use Rattle.std.specs.List.{All};
ghost use Rattle.vt_dec.specs.declared.side.Side.{Side};
ghost use Rattle.vt_dec.specs.Decisions.{Admits, IsSideOf};
ghost use Rattle.vt_type.specs.Plain.{arity};
ghost use Rattle.vt_store.specs.Ends.{IsAcyclic, AreArities, Reaches, Free, Made};
ghost use Rattle.vt_store.specs.Writes.{IsOf};
ghost use Rattle.vt_store.specs.Diagrams.{raised, HasCells, HasRoom};
ghost use Rattle.vt_store.specs.Views.{seen, LooksAs};
ghost use Rattle.vt_store.specs.Parts.{IsPart, AreTaken};
ghost use Rattle.vt_store.specs.Sharing.{AreNames, IsShared};
ghost use Rattle.vt_store.specs.Narrowing.{AreIn, IsCutTo, IsNarrowed, IsWhole};
ghost use Rattle.vt_store.specs.Stores.{ends_at, cell_count, IsUnchanged, Adds, IsBound, IsAppended, one_of, IsCellBranch, IsOneEnd};

use crate::diagram::Diagram;
use crate::found::Found;
use crate::narrowing::{dims, on_sides, pairs, reached_on_both};
use crate::sharing::{representative, representatives, represented, straight};
use crate::{CellId, CellList, End, Look};
use std::alloc::{AllocError, Global};
use std::marker::Model;
use vt_dec::{Context, Decision, Dim, Space};
use vt_type::Head;

/// Cells, each bound at each decision of a space to nothing, to another cell, or to a head over cells.
#[derive(Debug, Drop)]
pub struct Store<const N: usize> {
    cells: Vec<Diagram>,
    alloc: Global,
    space: Space,
}

/// Cells of a store that were taken out of it, as a store of their own: those that were asked for, and
/// all to which they lead.
#[derive(Debug, Drop)]
pub struct Part<const N: usize> {
    pub store: Store<N>,
    pub cells: CellList,
    pub root: CellId,
}

/// A store with the cells of another one, and for each cell one that stands for it: its representative.
#[derive(Debug, Drop)]
pub struct Shared<const N: usize> {
    pub store: Store<N>,
    pub representatives: CellList,
}

impl<const N: usize> Part<N> {
    /// A part whose cells and root have the same types at every decision, and which may be smaller once
    /// equal cells are made one. A cell to which they lead on one side of a dimension alone is taken as it
    /// is on that side, whatever side a decision takes, and the open cells of either side alone are made
    /// one, in pairs: what two sides say alike is then equal, and `Store::shared` finds it. It takes time
    /// by the part for each dimension on which a cell branches.
    pub fn narrowed(self, alloc: Global) -> Result<Part<N>, AllocError>
        requires { AreIn self }
        ensures { IfOk result (IsNarrowed N self.entry.store self.entry.cells self.entry.root) }
    {
        // Each decision of the space must have the one that differs from it in one dimension alone.
        if let Space::AtMost(_) = self.store.space {
            return Ok(self);
        }
        let dims = dims(alloc, &self.store.cells)?;
        let mut part = self;
        for dim in &dims {
            if (dim.0 as usize) / 64 < N {
                part = part.narrowed_at(alloc, *dim)?;
            }
        }
        Ok(part)
    }

    // The same for one dimension.
    fn narrowed_at(&self, alloc: Global, dim: Dim) -> Result<Part<N>, AllocError>
        requires inside { AreIn self.now }
        requires space { IsWhole self.now.store.space }
        requires dim { dim < 64 * N }
        ensures { IfOk result (IsNarrowed N self.now.store self.now.cells self.now.root) }
    {
        let (store, names) = self.store.cut(alloc, &self.cells, self.root, dim)?;
        Ok(Part {
            store,
            cells: self.cells.represented(alloc, &names)?,
            root: representative(&names, self.root),
        })
    }
}

impl<const N: usize> Shared<N> {
    /// The cell that stands for a cell.
    pub fn representative(&self, cell: CellId) -> CellId
        ensures { result ≡ slice_index self.now.representatives cell }
    {
        representative(self.representatives.as_slice(), cell)
    }
}

impl<const N: usize> Model for Store<N> {
    ghost use Rattle.std.specs.Prelude.{◌-◌, vec_len, vec_capacity};
    ghost use Rattle.std.specs.Coded.{codes};
    ghost use Rattle.vt_store.specs.contracts.diagram.Diagram as shape;
    ghost use Rattle.vt_store.specs.Stores.{Cells, IsStore};

    ghost Value = { Cells };

    ghost coded = { Prim.hlevel (codes, shape.the_row.coded) };

    ghost view = { λ s. record { cells = s.cells.items; space = s.space; spare = vec_capacity s.cells - vec_len s.cells } };

    ghost invariant = { λ s. IsStore N (record { cells = s.cells.items; space = s.space; spare = 0 }) };
}

impl<const N: usize> Store<N> {
    /// A store with no cells. It takes no memory.
    pub fn new(alloc: Global, space: Space) -> Store<N>
        ensures empty { cell_count result ≡ 0 }
        ensures space { result.space ≡ space }
    {
        Store {
            cells: Vec::new(alloc),
            alloc,
            space,
        }
    }

    /// Does nothing. A proof calls it that rests on what holds of each store: no cell contains itself, and a
    /// head has as many children as its arity.
    pub fn acyclic(&self)
        ensures acyclic { (decision : List Side) → IsOf N self.now.space decision → IsAcyclic (cell_count self.now) (ends_at self.now decision) }
        ensures arities { (decision : List Side) → IsOf N self.now.space decision → AreArities (cell_count self.now) (ends_at self.now decision) }
    {
        let _space = self.space;
    }

    pub fn space(&self) -> Space
        ensures space { result ≡ self.now.space }
        ensures acyclic { (decision : List Side) → IsOf N self.now.space decision → IsAcyclic (cell_count self.now) (ends_at self.now decision) }
        ensures arities { (decision : List Side) → IsOf N self.now.space decision → AreArities (cell_count self.now) (ends_at self.now decision) }
    {
        self.space
    }

    /// How many cells there are.
    pub fn count(&self) -> usize
        ensures count { result ≡ cell_count self.now }
        ensures fits { 2 * cell_count self.now < 2 ^ 64 }
    {
        self.cells.len()
    }

    /// The allocator that the store keeps.
    pub fn allocator(&self) -> Global {
        self.alloc
    }

    /// Makes room for so many more cells.
    pub fn reserve(&mut self, cells: usize) -> Result<(), AllocError>
        ensures spare { OnOk result (cells ≤ self.new.spare) }
        ensures unchanged { IsUnchanged self.old self.new }
    {
        self.cells.reserve(cells)
    }

    /// A new cell that is open at every decision. It cannot fail where room is spare. On an error
    /// nothing has changed.
    pub fn fresh(&mut self) -> Result<CellId, AllocError>
        ensures ok { IfOk result (λ cell. (cell ≡ cell_count self.old) × Adds (λ _. Free) self.old self.new) }
        ensures spare { 0 < self.old.spare → IsOk result × (self.new.spare + 1 ≡ self.old.spare) }
        ensures err { OnErr result (self.new ≡ self.old) }
    {
        let cell = CellId(self.cells.len());
        push(&mut self.cells, Diagram::Open)?;
        Ok(cell)
    }

    /// A new cell that is bound to the head over these children at every decision. On an error
    /// nothing has changed.
    pub fn con(&mut self, head: Head, kids: &[CellId]) -> Result<CellId, AllocError>
        requires arity { length kids.now ≡ arity head }
        requires kids { All (λ kid. kid < cell_count self.old) kids.now }
        ensures ok { IfOk result (λ cell. (cell ≡ cell_count self.old) × Adds (λ _. Made head kids.now) self.old self.new) }
        ensures err { OnErr result (self.new ≡ self.old) }
    {
        let cell = CellId(self.cells.len());
        let kids = CellList::new(Vec::from_slice(self.alloc, kids)?);
        push(&mut self.cells, Diagram::Con(head, kids))?;
        Ok(cell)
    }

    /// A new cell that is bound to one of two by the side of the dimension. On an error nothing has
    /// changed.
    pub fn choice(&mut self, dim: Dim, left: CellId, right: CellId) -> Result<CellId, AllocError>
        requires dim { dim < 64 * N }
        requires left { left < cell_count self.old }
        requires right { right < cell_count self.old }
        ensures ok { IfOk result (λ cell. (cell ≡ cell_count self.old) × Adds (one_of dim left right) self.old self.new) }
        ensures err { OnErr result (self.new ≡ self.old) }
    {
        let cell = CellId(self.cells.len());
        let (left, right) = (Diagram::Link(left), Diagram::Link(right));
        let diagram = Diagram::choice(self.alloc, dim, left, right)?;
        push(&mut self.cells, diagram)?;
        Ok(cell)
    }

    /// Binds an open cell to another one in a context. In the whole context of a cell that is open
    /// everywhere this writes one link; else it adds as few choices as describe the context. On an
    /// error nothing has changed.
    pub fn bind(&mut self, cell: CellId, within: &Context<N>, to: CellId) -> Result<(), AllocError>
        requires cell { cell < cell_count self.old }
        requires to { to < cell_count self.old }
        requires space { within.now.space ≡ self.old.space }
        requires free { (decision : List Side) → Admits within.now decision → ends_at self.old decision cell ≡ Free }
        requires apart { (decision : List Side) → Admits within.now decision → Reaches (ends_at self.old decision) to cell → ⊥ }
        ensures ok { OnOk result (IsBound N within.now cell to self.old self.new) }
        ensures err { OnErr result (self.new ≡ self.old) }
    {
        // What it ensures of the context is what `bound` needs to know.
        let _space = within.space();
        let bound = self.cells[cell.0].bound(self.alloc, within, Dim(0), to)?;
        self.cells[cell.0] = bound;
        Ok(())
    }

    /// What the cell itself is bound to at a decision, with no link followed.
    pub fn end(&self, cell: CellId, decision: &Decision<N>) -> End<'_>
        requires cell { cell < cell_count self.now }
        requires decision { IsOf N self.now.space decision.now }
        ensures { seen result ≡ ends_at self.now decision.now cell }
    {
        self.cells[cell.0].at(decision)
    }

    /// Adds the cells of another store after the old ones, in order, and answers the former number of
    /// cells, by which the number of each added cell is raised. On an error nothing has changed.
    pub fn append(&mut self, other: &Store<N>) -> Result<usize, AllocError>
        requires { other.now.space ≡ self.old.space }
        ensures ok { IfOk result (λ by. (by ≡ cell_count self.old) × IsAppended self.old other.now self.new) }
        ensures err { OnErr result (IsUnchanged self.old self.new) }
    {
        let by = self.cells.len();
        let mut copies = raised_copies(self.alloc, &other.cells, by)?;
        self.cells.append(&mut copies)?;
        Ok(by)
    }

    /// The cells to which some cells and one more lead at whatever decision, as a store of their own.
    /// It takes time by what is taken out, and not by how many cells there are.
    pub fn part(&self, alloc: Global, cells: &[CellId], root: CellId) -> Result<Part<N>, AllocError>
        requires cells { All (λ cell. cell < cell_count self.now) cells.now }
        requires root { root < cell_count self.now }
        ensures part { IfOk result (IsPart self.now cells.now root) }
    {
        let mut found = Found::new(alloc);
        let cells = found.enter_all(alloc, cells)?;
        let root = found.enter(root)?;
        let diagrams = taken(alloc, &self.cells, &mut found)?;
        let store = Store {
            cells: diagrams,
            alloc,
            space: self.space,
        };
        Ok(Part { store, cells, root })
    }

    /// The same cells, where cells that are bound alike name one of them, and links are left out, so that
    /// the part to which some representatives lead has fewer. One call finds what is equal once the
    /// cells below have been looked at; the next one may find more.
    pub fn shared(&self, alloc: Global) -> Result<Shared<N>, AllocError>
        ensures shared { IfOk result (IsShared N self.now) }
    {
        let names = representatives(alloc, &self.cells)?;
        self.named(alloc, names)
    }

    /// The same cells, where a cell that is a link at every decision gives way to the one at which its
    /// links end.
    pub fn straightened(&self, alloc: Global) -> Result<Shared<N>, AllocError>
        ensures shared { IfOk result (IsShared N self.now) }
    {
        let names = straight(alloc, &self.cells)?;
        self.named(alloc, names)
    }

    // The same cells, where each gives way to its representative.
    fn named(&self, alloc: Global, names: Vec<CellId>) -> Result<Shared<N>, AllocError>
        requires { AreNames self.now.cells names.items }
        ensures { IfOk result (IsShared N self.now) }
    {
        let cells = represented(alloc, &self.cells, &names)?;
        let store = Store {
            cells,
            alloc,
            space: self.space,
        };
        Ok(Shared {
            store,
            representatives: CellList::new(names),
        })
    }

    // The cells as they are on the sides of the dimension on which some cells and the root lead to them,
    // and a name for each.
    fn cut(
        &self,
        alloc: Global,
        cells: &CellList,
        root: CellId,
        dim: Dim,
    ) -> Result<(Store<N>, Vec<CellId>), AllocError>
        requires cells { All (λ cell. cell < cell_count self.now) cells.now }
        requires root { root < cell_count self.now }
        requires space { IsWhole self.now.space }
        requires dim { dim < 64 * N }
        ensures { IfOk result (λ made. IsCutTo N self.now cells.now root made.0 made.1.items) }
    {
        let sides = reached_on_both(alloc, &self.cells, cells, root, dim)?;
        let cut = match on_sides(alloc, &self.cells, dim, &sides) {
            Ok(cut) => cut,
            Err(fault) => {
                drop(sides);
                return Err(fault);
            }
        };
        let names = pairs(alloc, &cut, &sides);
        drop(sides);
        let names = match names {
            Ok(names) => names,
            Err(fault) => {
                drop(cut);
                return Err(fault);
            }
        };
        let cells = represented(alloc, &cut, &names);
        drop(cut);
        let store = Store {
            cells: cells?,
            alloc,
            space: self.space,
        };
        Ok((store, names))
    }

    /// What a cell is bound to at a decision, once links are followed.
    pub fn look(&self, cell: CellId, decision: &Decision<N>) -> Look<'_>
        requires cell { cell < cell_count self.now }
        requires decision { IsOf N self.now.space decision.now }
        ensures { LooksAs (ends_at self.now decision.now) cell result }
    {
        // This makes the loop end.
        self.acyclic();
        let mut last = cell;
        'links: loop {
            match self.end(last, decision) {
                End::Open => return Look::Open(last),
                End::Con(head, kids) => return Look::Con(head, kids),
                End::Link(next) => last = next,
            }
        }
    }

    /// The least dimension on which the cell's own diagram branches within the context. Where there
    /// is none, the cell has one end at all admitted decisions.
    pub fn splits(&self, cell: CellId, within: &Context<N>) -> Option<Dim>
        requires cell { cell < cell_count self.now }
        requires space { within.now.space ≡ self.now.space }
        ensures least { IsCellBranch self.now cell within.now result }
        ensures both { IfSome result (λ dim. (dim < 64 * N) × IsSideOf within.now dim None) }
        ensures alike { result ≡ None → IsOneEnd self.now cell within.now }
    {
        self.cells[cell.0].branch(within)
    }
}

// Adds a diagram, in the room that is spare if there is any.
fn push(cells: &mut Vec<Diagram>, diagram: Diagram) -> Result<(), AllocError>
    ensures ok { OnOk result ((cells.new.items ≡ cells.old.items ++ diagram ∷ []) × (vec_len cells.new ≡ vec_len cells.old + 1)) }
    ensures spare { vec_len cells.old < vec_capacity cells.old → IsOk result × (vec_capacity cells.new ≡ vec_capacity cells.old) }
    ensures err { OnErr result ((cells.new.items ≡ cells.old.items) × (vec_len cells.new ≡ vec_len cells.old) × (vec_capacity cells.new ≡ vec_capacity cells.old)) }
{
    if cells.capacity() <= cells.len() {
        cells.reserve(1)?;
    }
    cells.push_reserved(diagram);
    Ok(())
}

// The diagrams with every cell's number raised.
fn raised_copies(alloc: Global, diagrams: &[Diagram], by: usize) -> Result<Vec<Diagram>, AllocError>
    requires { All (HasRoom by) diagrams.now }
    ensures { IfOk result (λ copies. copies.items ≡ map (raised by) diagrams.now) }
{
    let mut copies = Vec::with_capacity(alloc, diagrams.len())?;
    for diagram in diagrams {
        copies.push(diagram.raised(alloc, by)?)?;
    }
    Ok(copies)
}

// The diagrams of the cells that were found, and of all to which they lead, which are found on the way.
fn taken(alloc: Global, diagrams: &[Diagram], found: &mut Found) -> Result<Vec<Diagram>, AllocError>
    requires cells { All (HasCells (length diagrams.now)) diagrams.now }
    requires within { All (λ cell. cell < length diagrams.now) found.old }
    ensures { IfOk result (λ copies. AreTaken diagrams.now found.old found.new copies.items) }
{
    let mut copies = Vec::new(alloc);
    while let Some(cell) = found.get(copies.len()) {
        let copy = diagrams[cell.0].moved(alloc, found)?;
        copies.push(copy)?;
    }
    Ok(copies)
}
