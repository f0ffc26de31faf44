//! New cells for the forms of an expression.
ghost use Rattle.std.specs.Prelude.{◌≡◌, ◌*◌, ◌<◌, ◌≤◌, slice_get, IfOk};
ghost use Rattle.vt_type.specs.Constants.{◌⇒◌};
ghost use Rattle.vt_type.specs.declared.plain.Plain.{Con};
ghost use Rattle.vt_type.specs.declared.plain.PlainKids.{Nil};
ghost use Rattle.vt_type.specs.Plain.{arity, IsWellFormed};
ghost use Rattle.vt_type.specs.Variational.{by_side};
ghost use Rattle.vt_rules.specs.Typing.{literal_type};
ghost use Rattle.vt_store.specs.Stores.{cell_count};
ghost use Rattle.vt_infer.specs.Inferring.{IsNew};

use std::alloc::AllocError;
use vt_dec::Dim;
use vt_store::{CellId, Store};
use vt_syntax::Lit;
use vt_type::Head;

/// A cell that is open: any type.
pub(crate) fn open_cell<const N: usize>(store: &mut Store<N>) -> Result<CellId, AllocError>
    ensures is_new { IfOk result (λ cell. IsNew N (λ decision s type. IsWellFormed type) cell store.old store.new) }
    ensures later { IfOk result (λ cell. cell_count store.old ≤ cell) }
{
    store.acyclic();
    store.fresh()
}

pub(crate) fn literal_cell<const N: usize>(
    store: &mut Store<N>,
    literal: Lit,
) -> Result<CellId, AllocError>
    ensures { IfOk result (λ cell. IsNew N (λ decision s type. type ≡ literal_type literal) cell store.old store.new) }
{
    let head = literal_head(literal);
    store.acyclic();
    store.con(head, &[])
}

fn literal_head(literal: Lit) -> Head
    ensures leaf { literal_type literal ≡ Con result Nil }
    ensures arity { arity result ≡ 0 }
{
    match literal {
        Lit::Number(_) => Head::Int,
        Lit::Quoted => Head::Text,
        Lit::Truth(_) => Head::Bool,
    }
}

/// The type of functions from one cell's to another's.
pub(crate) fn function_cell<const N: usize>(
    store: &mut Store<N>,
    from: CellId,
    to: CellId,
) -> Result<CellId, AllocError>
    requires from { from < cell_count store.old }
    requires to { to < cell_count store.old }
    ensures { IfOk result (λ cell. IsNew N (λ decision s type. type ≡ (s from ⇒ s to)) cell store.old store.new) }
{
    store.acyclic();
    store.con(Head::Fun, &[from, to])
}

/// One of two by the side of the dimension.
pub(crate) fn choice_cell<const N: usize>(
    store: &mut Store<N>,
    dim: Dim,
    left: CellId,
    right: CellId,
) -> Result<CellId, AllocError>
    requires dim { dim < 64 * N }
    requires left { left < cell_count store.old }
    requires right { right < cell_count store.old }
    ensures { IfOk result (λ cell. IsNew N (λ decision s type. type ≡ by_side (slice_get decision dim) (s left) (s right)) cell store.old store.new) }
{
    store.acyclic();
    store.choice(dim, left, right)
}
