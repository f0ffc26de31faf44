//! Diagrams of another table.
ghost use Rattle.std.specs.Prelude.{◌≡◌, ◌*◌, ◌<◌, IfOk, OnOk};
ghost use Rattle.vt_diagram.specs.Renaming.{AreRenamed, IsRenamed, name_of};
ghost use Rattle.vt_diagram.specs.Tables.{Holds, Grows};

use crate::{DiagramId, Entry, Table};
use std::alloc::{AllocError, Global};
use std::collections::BTreeMap;

impl<const N: usize> Table<N> {
    /// The diagram that another table has under the number, with each value replaced by its name: what
    /// stands in the list under the value, and the value itself where the list ends before it. Nothing
    /// of the other table is looked at twice.
    pub fn renamed(
        &mut self,
        alloc: Global,
        other: &Table<N>,
        id: DiagramId,
        names: &[u32],
    ) -> Result<DiagramId, AllocError>
        requires { Holds other.now id }
        ensures grows { Grows self.old self.new }
        ensures renamed { IfOk result (IsRenamed (64 * N) names.now other.now self.new id) }
    {
        let mut known = BTreeMap::new(alloc);
        self.renamed_from(other, id, names, &mut known)
    }

    fn renamed_from(
        &mut self,
        other: &Table<N>,
        id: DiagramId,
        names: &[u32],
        known: &mut BTreeMap<DiagramId, DiagramId>,
    ) -> Result<DiagramId, AllocError>
        requires held { Holds other.now id }
        requires known { AreRenamed (64 * N) names.now other.now self.old known.old }
        ensures grows { Grows self.old self.new }
        ensures known { OnOk result (AreRenamed (64 * N) names.now other.now self.new known.new) }
        ensures renamed { IfOk result (IsRenamed (64 * N) names.now other.now self.new id) }
    {
        if let Some(own) = known.get(&id) {
            return Ok(*own);
        }
        let own = match other.top(id) {
            Entry::Leaf(value) => self.leaf(name_of(names, value))?,
            Entry::Choice(dim, left, right) => {
                let left = self.renamed_from(other, left, names, known)?;
                let right = self.renamed_from(other, right, names, known)?;
                self.choice(dim, left, right)?
            }
        };
        known.insert(id, own)?;
        Ok(own)
    }
}

fn name_of(names: &[u32], value: u32) -> u32
    ensures { result ≡ name_of names.now value }
{
    match names.get(value as usize) {
        Some(name) => *name,
        None => value,
    }
}
