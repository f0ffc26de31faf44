ghost use Rattle.std.specs.Prelude.{◌≡◌, ◌<◌, ℕ, List, [], ◌∷◌, ◌++◌, length, slice_get, Some, IfOk, OnOk, OnErr, MatchOption};
ghost use Rattle.vt_infer.specs.Environments.{mono_cells, schemes_of};

use crate::typed::Schemes;
use std::alloc::{AllocError, Global};
use std::collections::VecDeque;
use std::marker::Model;
use vt_scheme::Scheme;
use vt_store::{CellId, CellList};

/// What is known of a bound name: the cell of a parameter, or a frozen scheme with the cells that its
/// monos are copies of.
#[derive(Drop)]
pub(crate) enum Entry<const N: usize> {
    Mono(CellId),
    Poly(Scheme<N>, CellList),
}

/// The names round an expression, the newest first.
#[derive(Drop)]
pub(crate) struct Environment<const N: usize> {
    entries: VecDeque<Entry<N>>,
    // The cells of the parameters among them, the newest first. A file has many definitions, each of
    // which asks for these, and few parameters.
    monos: VecDeque<CellId>,
}

impl<const N: usize> Model for Environment<N> {
    ghost use Rattle.std.specs.Prelude.{List};
    ghost use Rattle.std.specs.Coded.{codes};
    ghost use Rattle.vt_infer.specs.declared.environment.Entry.{Entry};
    ghost use Rattle.vt_store.specs.contracts.diagram.Diagram as shape;
    ghost use Rattle.std.specs.Prelude.{◌≡◌};
    ghost use Rattle.vt_infer.specs.Environments.{mono_cells};

    ghost Value = { List (Entry N) };

    ghost coded = { Prim.hlevel (codes, shape.the_row.coded) };

    ghost view = { λ e. e.entries.items };

    ghost invariant = { λ e. e.monos.items ≡ mono_cells e.entries.items };
}

impl<const N: usize> Environment<N> {
    /// No names. It takes no memory.
    pub(crate) fn new(alloc: Global) -> Environment<N>
        ensures { result ≡ [] }
    {
        let entries = VecDeque::new(alloc);
        let monos = VecDeque::new(alloc);
        Environment { entries, monos }
    }

    pub(crate) fn push(&mut self, entry: Entry<N>) -> Result<(), AllocError>
        ensures { OnOk result (self.new ≡ entry.entry ∷ self.old) }
    {
        self.entries.reserve(1)?;
        push_mono(&mut self.monos, &entry)?;
        self.entries.push_front_reserved(entry);
        Ok(())
    }

    /// Forgets the newest name.
    pub(crate) fn pop(&mut self) -> Option<Entry<N>>
        ensures { MatchOption result ((self.old ≡ []) × (self.new ≡ [])) (λ entry. self.old ≡ entry ∷ self.new) }
    {
        let entry = self.entries.pop_front()?;
        pop_mono(&mut self.monos, &entry);
        Some(entry)
    }

    /// The entry of the name that was bound before so many others.
    pub(crate) fn entry(&self, distance: u32) -> &Entry<N>
        requires { distance < length self.now }
        ensures { slice_get self.now distance ≡ Some result.now }
    {
        &self.entries[distance as usize]
    }

    /// The cells of the names that take one type, the newest first.
    pub(crate) fn mono_cells(&self, alloc: Global) -> Result<CellList, AllocError>
        ensures { IfOk result (λ cells. cells ≡ mono_cells self.now) }
    {
        let mut cells = Vec::new(alloc);
        for index in 0..self.monos.len() {
            cells.push(self.monos[index])?;
        }
        Ok(CellList::new(cells))
    }

    /// The schemes of the names, in the order in which these were bound.
    pub(crate) fn into_schemes(self, alloc: Global) -> Result<Schemes<N>, AllocError>
        ensures { IfOk result (λ schemes. schemes ≡ schemes_of self.entry) }
    {
        let Environment { mut entries, monos } = self;
        drop(monos);
        let mut schemes = Vec::new(alloc);
        let moved = move_schemes(&mut entries, &mut schemes);
        drop(entries);
        match moved {
            Ok(()) => Ok(Schemes::new(schemes)),
            Err(fault) => {
                drop(schemes);
                Err(fault)
            }
        }
    }
}

// Moves the schemes of all entries, the oldest first.
fn move_schemes<const N: usize>(
    entries: &mut VecDeque<Entry<N>>,
    schemes: &mut Vec<Scheme<N>>,
) -> Result<(), AllocError>
    ensures { OnOk result (schemes.new.items ≡ schemes.old.items ++ schemes_of entries.old.items) }
{
    while let Some(entry) = entries.pop_back() {
        push_scheme(schemes, entry)?;
    }
    Ok(())
}

// Adds the scheme of an entry that has one.
fn push_scheme<const N: usize>(
    schemes: &mut Vec<Scheme<N>>,
    entry: Entry<N>,
) -> Result<(), AllocError>
    ensures { OnOk result (schemes.new.items ≡ schemes.old.items ++ schemes_of (entry.entry ∷ [])) }
{
    match entry {
        Entry::Mono(_) => Ok(()),
        Entry::Poly(scheme, originals) => {
            drop(originals);
            schemes.push(scheme)?;
            Ok(())
        }
    }
}

// Adds the cell of an entry that has one type.
fn push_mono<const N: usize>(
    monos: &mut VecDeque<CellId>,
    entry: &Entry<N>,
) -> Result<(), AllocError>
    ensures ok { OnOk result (monos.new.items ≡ mono_cells (entry.now ∷ []) ++ monos.old.items) }
    ensures err { OnErr result (monos.new.items ≡ monos.old.items) }
{
    match entry {
        Entry::Mono(cell) => {
            monos.push_front(*cell)?;
            Ok(())
        }
        Entry::Poly(_, _) => Ok(()),
    }
}

// Takes it away again.
fn pop_mono<const N: usize>(monos: &mut VecDeque<CellId>, entry: &Entry<N>)
    ensures { (rest : List ℕ) → monos.old.items ≡ mono_cells (entry.now ∷ []) ++ rest → monos.new.items ≡ rest }
{
    match entry {
        Entry::Mono(_) => {
            let _cell = monos.pop_front();
        }
        Entry::Poly(_, _) => {}
    }
}
