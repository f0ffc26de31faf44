ghost use Rattle.std.specs.Prelude.{◌≡◌, IfOk};
ghost use Rattle.vt_type.specs.Variational.{vkids_of, choice};

use crate::{Head, Path, Plain};
use sqlite_items::Boxed;
use std::alloc::{AllocError, Global};
use vt_dec::Dim;

/// A type that may differ from decision to decision, and may be the error at some.
#[cycle(vtype)]
#[derive(Drop)]
pub enum VType {
    Var(Path),
    Con(Head, VKids),
    Choice(Dim, Boxed<VType>, Boxed<VType>),
    Err,
}

/// The children of a constructor, the first one first.
#[cycle(vtype)]
#[derive(Drop)]
pub enum VKids {
    Nil,
    More(Boxed<VType>, Boxed<VKids>),
}

/// What a variational type is at one decision.
#[derive(Drop)]
pub enum Selected {
    Found(Plain),
    /// The error stands in the selected type.
    Untyped,
}

impl VType {
    /// A choice between two types.
    pub fn choice(alloc: Global, dim: Dim, left: VType, right: VType) -> Result<VType, AllocError>
        ensures { IfOk result (λ vtype. vtype ≡ choice dim left right) }
    {
        let left = Boxed::new(alloc, left);
        let right = Boxed::new(alloc, right);
        Ok(VType::Choice(dim, left?, right?))
    }
}

impl VKids {
    /// A first child before the others.
    pub fn more(alloc: Global, kid: VType, kids: VKids) -> Result<VKids, AllocError>
        ensures { IfOk result (λ all. all ≡ vkids_of kid kids) }
    {
        let kid = Boxed::new(alloc, kid);
        let kids = Boxed::new(alloc, kids);
        Ok(VKids::More(kid?, kids?))
    }
}
