//! The pairs of cells that are still to be compared.
ghost use Rattle.std.specs.Prelude.{◌≡◌, [], ◌∷◌, ◌++◌, length, OnOk, IfNone, Some};
ghost use Rattle.std.specs.Option.{option_to_list};
ghost use Rattle.vt_unify.specs.Pairs.{IsKnown, region_of};

use smallvec::SmallVec;
use std::alloc::{AllocError, Global};
use vt_dec::Context;
use vt_store::CellId;

/// Two cells that are to be equal at each decision of a context.
#[derive(Clone, Copy, Debug)]
pub(crate) struct Pair {
    /// The place of the context among those that were narrowed, or none for the whole one.
    pub(crate) context: Option<usize>,
    pub(crate) left: CellId,
    pub(crate) right: CellId,
}

/// What fills the places of a list that hold no pair.
impl Default for Pair {
    fn default() -> Pair {
        Pair {
            context: None,
            left: CellId(0),
            right: CellId(0),
        }
    }
}

/// Pairs, the next one last, and the contexts that they have in place of the whole one. A few pairs
/// in the whole context take no memory.
#[derive(Drop)]
pub(crate) struct Pairs<const N: usize> {
    pub(crate) list: SmallVec<Pair, 8>,
    pub(crate) narrowed: Vec<Context<N>>,
}

impl<const N: usize> Pairs<N> {
    pub(crate) fn new(alloc: Global) -> Pairs<N>
        ensures list { result.list.items ≡ [] }
        ensures narrowed { result.narrowed.items ≡ [] }
    {
        Pairs {
            list: SmallVec::new(alloc),
            narrowed: Vec::new(alloc),
        }
    }

    /// The context of a pair.
    pub(crate) fn context<'a>(&'a self, whole: &'a Context<N>, pair: &Pair) -> &'a Context<N>
        requires { IsKnown self.now.narrowed.items pair.now }
        ensures { result.now ≡ region_of whole.now self.now.narrowed.items pair.now.context }
    {
        match pair.context {
            None => whole,
            Some(place) => &self.narrowed[place],
        }
    }

    pub(crate) fn push(&mut self, pair: &Pair) -> Result<(), AllocError>
        ensures list { OnOk result (self.new.list.items ≡ self.old.list.items ++ pair.now ∷ []) }
        ensures narrowed { self.new.narrowed.items ≡ self.old.narrowed.items }
    {
        self.list.push(*pair)?;
        Ok(())
    }

    /// Adds the pair in another context.
    pub(crate) fn push_narrowed(
        &mut self,
        pair: &Pair,
        within: &Context<N>,
    ) -> Result<(), AllocError>
        ensures list { OnOk result (self.new.list.items ≡ self.old.list.items ++ record pair.now { context = Some (length self.old.narrowed.items) } ∷ []) }
        ensures narrowed { OnOk result (self.new.narrowed.items ≡ self.old.narrowed.items ++ within.now ∷ []) }
    {
        let context = Some(self.narrowed.len());
        self.narrowed.push(*within)?;
        self.push(&Pair { context, ..*pair })
    }

    pub(crate) fn pop(&mut self) -> Option<Pair>
        ensures list { self.old.list.items ≡ self.new.list.items ++ option_to_list result }
        ensures empty { IfNone result (self.new.list.items ≡ []) }
        ensures narrowed { self.new.narrowed.items ≡ self.old.narrowed.items }
    {
        self.list.pop()
    }
}
