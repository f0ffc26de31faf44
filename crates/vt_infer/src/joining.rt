//! Cells that are made one.
ghost use Rattle.std.specs.Prelude.{◌≡◌, ◌<◌, IfOk, OnOk};
ghost use Rattle.vt_type.specs.Constants.{◌⇒◌};
ghost use Rattle.vt_store.specs.Stores.{cell_count};
ghost use Rattle.vt_infer.specs.Inferring.{IsJoint, IsEquated};

use crate::steps::{function_cell, open_cell};
use crate::work::Work;
use std::alloc::AllocError;
use vt_dec::{Context, NodeId};
use vt_store::CellId;
use vt_store::laws::most_general_solution;
use vt_unify::unify;

/// Makes two cells one.
pub(crate) fn equate<const N: usize>(
    work: &mut Work<N>,
    within: &Context<N>,
    one: CellId,
    other: CellId,
    node: NodeId,
) -> Result<(), AllocError>
    requires one { one < cell_count work.old.store }
    requires other { other < cell_count work.old.store }
    requires space { within.now.space ≡ work.old.store.space }
    requires pattern { work.old.pattern.space ≡ work.old.store.space }
    ensures equated { OnOk result (IsEquated N within.now one other node work.old.store work.new.store work.old.pattern work.new.pattern) }
    ensures environment { work.new.environment ≡ work.old.environment }
{
    // Each decision has a solution.
    most_general_solution();
    work.store.acyclic();
    unify(&mut work.store, &mut work.pattern, within, one, other, node)
}

/// What a function's cell gives, applied to an argument's.
pub(crate) fn applied<const N: usize>(
    work: &mut Work<N>,
    within: &Context<N>,
    function: CellId,
    argument: CellId,
    node: NodeId,
) -> Result<CellId, AllocError>
    requires function { function < cell_count work.old.store }
    requires argument { argument < cell_count work.old.store }
    requires space { within.now.space ≡ work.old.store.space }
    requires pattern { work.old.pattern.space ≡ work.old.store.space }
    ensures joint { IfOk result (λ cell. IsJoint N within.now (λ decision s type. s function ≡ (s argument ⇒ type)) node cell work.old.store work.new.store work.old.pattern work.new.pattern) }
    ensures environment { work.new.environment ≡ work.old.environment }
{
    // Each decision has a solution.
    most_general_solution();
    work.store.acyclic();
    let result = open_cell(&mut work.store)?;
    let arrow = function_cell(&mut work.store, argument, result)?;
    equate(work, within, function, arrow, node)?;
    Ok(result)
}
