//! The parts of a region by what a diagram has there.
ghost use Rattle.std.specs.Prelude.{◌≡◌, ◌*◌, ◌<◌, IfOk, List};
ghost use Rattle.vt_dec.specs.declared.side.Side.{Side};
ghost use Rattle.vt_diagram.specs.Parts.{ArePartsOf, IsCutAt};
ghost use Rattle.vt_diagram.specs.Tables.{Holds, Grows};

use crate::{DiagramId, Table};
use std::alloc::{AllocError, Global};
use vt_dec::{Context, Space};

/// A region in two: where a diagram has a value, and the rest.
#[derive(Clone, Copy, Debug)]
pub struct Cut {
    pub part: DiagramId,
    pub rest: DiagramId,
}

/// A part of a region, in which a diagram has one value.
#[derive(Clone, Copy, Debug)]
pub struct Part {
    pub value: u32,
    pub region: DiagramId,
}

impl<const N: usize> Table<N> {
    /// The parts of a region by the values that a diagram has in it, in the space of the context. None
    /// is empty.
    pub fn parts(
        &mut self,
        alloc: Global,
        within: &Context<N>,
        region: DiagramId,
        id: DiagramId,
    ) -> Result<Vec<Part>, AllocError>
        requires { Holds self.old region × Holds self.old id }
        ensures grows { Grows self.old self.new }
        ensures parts { IfOk result (λ parts. ArePartsOf N within.now.space self.old self.new region id parts.items) }
    {
        let space = within.space();
        let mut parts = Vec::new(alloc);
        let mut rest = region;
        while let Some(decision) = self.member(space, rest) {
            let value = self.value(id, &decision);
            let cut = self.cut(space, rest, id, value)?;
            parts.push(Part {
                value,
                region: cut.part,
            })?;
            rest = cut.rest;
        }
        Ok(parts)
    }

    /// The part of a region in which a diagram has the value, and the part in which it has another one.
    pub fn cut(
        &mut self,
        space: Space,
        region: DiagramId,
        id: DiagramId,
        value: u32,
    ) -> Result<Cut, AllocError>
        requires { Holds self.old region × Holds self.old id }
        ensures grows { Grows self.old self.new }
        ensures cut { IfOk result (IsCutAt N space self.old self.new region id value) }
    {
        let leaf = self.leaf(value)?;
        let same = self.same(space, id, leaf)?;
        let part = self.both(space, region, same)?;
        let rest = self.without(space, region, same)?;
        Ok(Cut { part, rest })
    }
}
