ghost use Rattle.std.specs.Prelude.{◌≡◌, IfOk};
ghost use Rattle.vt_type.specs.declared.plain.PlainKids.{Nil};
ghost use Rattle.vt_type.specs.Plain.{kids_of};
ghost use Rattle.vt_type.specs.Constants.{int, bool, string, list, pair, ◌⇒◌};

use crate::{Head, Path};
use sqlite_items::Boxed;
use std::alloc::{AllocError, Global};

/// A type without choices.
#[cycle(plain)]
#[derive(Drop)]
pub enum Plain {
    Var(Path),
    Con(Head, PlainKids),
}

/// The children of a constructor, the first one first.
#[cycle(plain)]
#[derive(Drop)]
pub enum PlainKids {
    Nil,
    More(Boxed<Plain>, Boxed<PlainKids>),
}

impl PlainKids {
    /// A first child before the others.
    pub fn more(alloc: Global, kid: Plain, kids: PlainKids) -> Result<PlainKids, AllocError>
        ensures { IfOk result (λ all. all ≡ kids_of kid kids) }
    {
        let kid = Boxed::new(alloc, kid);
        let kids = Boxed::new(alloc, kids);
        Ok(PlainKids::More(kid?, kids?))
    }

    fn two(alloc: Global, left: Plain, right: Plain) -> Result<PlainKids, AllocError>
        ensures { IfOk result (λ all. all ≡ kids_of left (kids_of right Nil)) }
    {
        match PlainKids::more(alloc, right, PlainKids::Nil) {
            Ok(others) => PlainKids::more(alloc, left, others),
            Err(error) => {
                drop(left);
                Err(error)
            }
        }
    }
}

impl Plain {
    pub fn int() -> Plain
        ensures { result ≡ int }
    {
        Plain::Con(Head::Int, PlainKids::Nil)
    }

    pub fn bool() -> Plain
        ensures { result ≡ bool }
    {
        Plain::Con(Head::Bool, PlainKids::Nil)
    }

    pub fn string() -> Plain
        ensures { result ≡ string }
    {
        Plain::Con(Head::Text, PlainKids::Nil)
    }

    pub fn list(alloc: Global, item: Plain) -> Result<Plain, AllocError>
        ensures { IfOk result (λ t. t ≡ list item) }
    {
        let kids = PlainKids::more(alloc, item, PlainKids::Nil)?;
        Ok(Plain::Con(Head::List, kids))
    }

    pub fn pair(alloc: Global, left: Plain, right: Plain) -> Result<Plain, AllocError>
        ensures { IfOk result (λ t. t ≡ pair left right) }
    {
        let kids = PlainKids::two(alloc, left, right)?;
        Ok(Plain::Con(Head::Pair, kids))
    }

    /// The type of functions from one type to another.
    pub fn fun(alloc: Global, from: Plain, to: Plain) -> Result<Plain, AllocError>
        ensures { IfOk result (λ t. t ≡ (from ⇒ to)) }
    {
        let kids = PlainKids::two(alloc, from, to)?;
        Ok(Plain::Con(Head::Fun, kids))
    }
}
