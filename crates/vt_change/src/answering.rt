//! The change of one leaf.
ghost use Rattle.std.specs.Prelude.{◌≡◌, ℕ, ◌<◌, List, length, Some, slice_get, IfOk, IfSome, IsErrOf};
ghost use Rattle.vt_syntax.specs.declared.core_program.CoreProgram.{CoreProgram};
ghost use Rattle.vt_syntax.specs.declared.leaf.Leaf.{Leaf};
ghost use Rattle.vt_syntax.specs.Leaves.{AreLeaves};
ghost use Rattle.vt_syntax.specs.Programs.{whole};
ghost use Rattle.vt_syntax.specs.Selection.{IsPlainForm};
ghost use Rattle.vt_type.specs.Constants.{Constant};
ghost use Rattle.vt_change.specs.Curing.{StandsFor, IsAnswerFor, IsTooBig, IsSmall, AreFormed};

use crate::fault::ChangeFault;
use crate::typing::Varied;
use std::alloc::Global;
use vt_dec::{Decision, Dim, Fate, Side};
use vt_norm::{OutFault, read_pair};
use vt_type::ChangeLine;

/// The most nodes of a type that is read out.
pub const MOST_NODES: u64 = 4096;

/// The change of the leaf of this number, if it cures. `TooBig` comes where it does and a type of the
/// change has more than [`MOST_NODES`] nodes; `TooManyLeaves` never comes.
pub fn change_of(
    alloc: Global,
    varied: &Varied,
    leaf: u32,
) -> Result<Option<ChangeLine>, ChangeFault>
    requires leaf { leaf < length varied.now.leaves }
    ensures answer { (K : List Constant) (core : CoreProgram) (leaves : List Leaf) (one : Leaf) → StandsFor K core leaves varied.now → IsPlainForm (whole core).form → AreLeaves core leaves
        → slice_get leaves leaf ≡ Some one → IfOk result (IsAnswerFor K (whole core) leaf one) }
    ensures small { IfOk result (λ found. IfSome found IsSmall) }
    ensures formed { IfOk result (λ found. IfSome found AreFormed) }
    ensures too_big { (number : ℕ) → IsErrOf result (ChangeFault.TooBig number) → (number ≡ leaf)
        × ((K : List Constant) (core : CoreProgram) (leaves : List Leaf) (one : Leaf) → StandsFor K core leaves varied.now → IsPlainForm (whole core).form → AreLeaves core leaves
        → slice_get leaves leaf ≡ Some one → IsTooBig K (whole core) one) }
    ensures never_too_many { IsErrOf result ChangeFault.TooManyLeaves → ⊥ }
{
    let typed = varied.typed();
    let mut decision = Decision::all_left();
    decision.set(Dim(leaf), Side::Right);
    match typed.pattern.fate(&decision) {
        Fate::Dead(_) => return Ok(None),
        Fate::Alive => {}
    }
    let wanted = typed.leaf_cells.as_slice()[leaf as usize];
    let class = varied.leaves().as_slice()[leaf as usize].class;
    match read_pair(
        alloc,
        &typed.store,
        wanted,
        typed.main,
        &decision,
        MOST_NODES,
    ) {
        Ok(pair) => Ok(Some(ChangeLine {
            leaf,
            class,
            wanted: pair.wanted,
            result: pair.result,
        })),
        Err(OutFault::TooBig) => Err(ChangeFault::TooBig { leaf }),
        Err(OutFault::Memory) => Err(ChangeFault::Memory),
    }
}
