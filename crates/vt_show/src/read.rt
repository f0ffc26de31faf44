//! Types read from their texts.
ghost use Rattle.std.specs.Prelude.{◌≤◌, length, IfOk, IfSome};
ghost use Rattle.vt_type.specs.Variational.{IsWellFormedV, most_dimensions};
ghost use Rattle.vt_show.specs.Conditions.{DimsBelow};
ghost use Rattle.vt_show.specs.Reading.{IsReadingOf, LackBraces};

use crate::first_paths::by_first_path;
use crate::reader::{Miss, read_whole};
use std::alloc::{AllocError, Global};
use vt_type::{Tables, VType};

/// The type that a text spells over the dimensions of the tables, if it spells one. Each variable is
/// named by the path of its first appearance.
pub fn read_type(alloc: Global, text: &str, tables: &Tables) -> Result<Option<VType>, AllocError>
    requires few { length tables.now.dims ≤ most_dimensions }
    requires no_brace { LackBraces tables.now.dims }
    ensures read { IfOk result (λ read. IsReadingOf tables.now.dims text.now read) }
    ensures well_formed { IfOk result (λ read. IfSome read IsWellFormedV) }
    ensures dims { IfOk result (λ read. IfSome read (DimsBelow (length tables.now.dims))) }
{
    tables.dims.distinct();
    match read_whole(alloc, text.as_bytes(), &tables.dims) {
        Ok(lettered) => Ok(Some(by_first_path(alloc, lettered.get())?)),
        Err(Miss::NotSpelled) => Ok(None),
        Err(Miss::Memory(error)) => Err(error),
    }
}
