//! Uses of constants.
ghost use Rattle.std.specs.Prelude.{◌≡◌, ◌<◌, ℕ, List, length, map, IfOk};
ghost use Rattle.std.specs.List.{All};
ghost use Rattle.vt_type.specs.Plain.{IsWellFormed, AreWellFormed, kid_count, substituted, kids_substituted};
ghost use Rattle.vt_store.specs.Solutions.{plain_kids};
ghost use Rattle.vt_store.specs.Stores.{cell_count};
ghost use Rattle.vt_infer.specs.Building.{AreThere, IsBuilt};
ghost use Rattle.vt_infer.specs.Inferring.{IsUse};

use crate::steps::open_cell;
use crate::variables::Variables;
use std::alloc::AllocError;
use vt_store::{CellId, Store};
use vt_type::{ConstId, Constants, Path, Plain, PlainKids};

/// A use of a constant: its closed type, with new cells for its variables.
pub(crate) fn constant_cell<const N: usize>(
    constants: &Constants,
    store: &mut Store<N>,
    id: ConstId,
) -> Result<CellId, AllocError>
    requires { id < length constants.now }
    ensures { IfOk result (λ cell. IsUse N constants.now id cell store.old store.new) }
{
    let mut variables = Variables::new(store.allocator());
    built::<(), N>(constants.closed(id), store, &mut variables)
}

// `P` stands for nothing, as in the recursion over an expression.
#[cycle(built)]
fn built<P, const N: usize>(
    plain: &Plain,
    store: &mut Store<N>,
    variables: &mut Variables,
) -> Result<CellId, AllocError>
    requires formed { IsWellFormed plain.now }
    requires there { AreThere (cell_count store.old) variables.old }
    ensures built { IfOk result (λ cell. IsBuilt N (λ s. s cell) (λ images. substituted images plain.now) variables.old variables.new store.old store.new) }
    ensures is_cell { IfOk result (λ cell. cell < cell_count store.new) }
{
    match plain {
        Plain::Var(name) => variable(name, store, variables),
        Plain::Con(head, kids) => {
            let head = *head;
            let cells = built_kids::<P, N>(kids, store, variables)?;
            store.acyclic();
            store.con(head, &cells)
        }
    }
}

#[cycle(built)]
fn built_kids<P, const N: usize>(
    kids: &PlainKids,
    store: &mut Store<N>,
    variables: &mut Variables,
) -> Result<Vec<CellId>, AllocError>
    requires formed { AreWellFormed kids.now }
    requires there { AreThere (cell_count store.old) variables.old }
    ensures built { IfOk result (λ cells. IsBuilt N (λ s. plain_kids (map s cells.items)) (λ images. kids_substituted images kids.now) variables.old variables.new store.old store.new) }
    ensures are_cells { IfOk result (λ cells. All (λ cell. cell < cell_count store.new) cells.items) }
    ensures count { IfOk result (λ cells. length cells.items ≡ kid_count kids.now) }
{
    match kids {
        PlainKids::Nil => Ok(Vec::new(store.allocator())),
        PlainKids::More(first, others) => {
            let cell = built::<P, N>(first.get(), store, variables)?;
            let mut cells = built_kids::<P, N>(others.get(), store, variables)?;
            cells.insert(0, cell)?;
            Ok(cells)
        }
    }
}

// The cell of a variable, a new one where it has none.
fn variable<const N: usize>(
    name: &Path,
    store: &mut Store<N>,
    variables: &mut Variables,
) -> Result<CellId, AllocError>
    requires { AreThere (cell_count store.old) variables.old }
    ensures built { IfOk result (λ cell. IsBuilt N (λ s. s cell) (λ images. images name.now) variables.old variables.new store.old store.new) }
    ensures is_cell { IfOk result (λ cell. cell < cell_count store.new) }
{
    if let Some(cell) = variables.cell(name.as_slice()) {
        return Ok(cell);
    }
    let cell = open_cell(store)?;
    variables.add(store.allocator(), name.as_slice(), cell)?;
    Ok(cell)
}
