//! A program that is typed with each of its leaves left and replaced.
ghost use Rattle.std.specs.Prelude.{◌≡◌, ◌↔◌, ℕ, ◌*◌, ◌<◌, ◌≤◌, List, length, IfOk, IsErrOf};
ghost use Rattle.vt_dec.specs.declared.side.Space.TheVariants.{AtMost};
ghost use Rattle.vt_syntax.specs.declared.core_program.CoreProgram.{CoreProgram};
ghost use Rattle.vt_syntax.specs.declared.leaf.Leaf.{Leaf};
ghost use Rattle.vt_syntax.specs.Checking.{IsInCheckingOrder};
ghost use Rattle.vt_syntax.specs.Leaves.{AreLeaves};
ghost use Rattle.vt_syntax.specs.Programs.{whole};
ghost use Rattle.vt_syntax.specs.Scoping.{IsClosed};
ghost use Rattle.vt_syntax.specs.Selection.{IsPlainForm};
ghost use Rattle.vt_syntax.specs.Varying.{program_varied};
ghost use Rattle.vt_type.specs.Constants.{Constant};
ghost use Rattle.vt_infer.specs.Inferred.{IsInferred, AreLeafCells};
ghost use Rattle.vt_change.specs.Curing.{AreKept, IsFateOf, StandsFor};

use crate::fault::ChangeFault;
use crate::varying::vary_leaves;
use std::alloc::{AllocError, Global};
use std::marker::Model;
use vt_dec::{Decision, Fate, Space};
use vt_infer::{Typed, infer};
use vt_syntax::{CoreProgram, Leaves};
use vt_type::Constants;

/// The most leaves that a program may have: a decision has a dimension for each.
pub const MOST_LEAVES: usize = 2048;

/// The types of a program at once with no leaf changed, and with each one leaf a hole: what inference finds
/// out about the varied program where at most one dimension is `Right`.
#[derive(Drop)]
pub struct Varied {
    typed: Typed<32>,
    leaves: Leaves,
}

impl Model for Varied {
    ghost use Rattle.std.specs.Coded.{codes};
    ghost use Rattle.vt_change.specs.Curing.{TypedLeaves, AreKept};
    ghost use Rattle.vt_store.specs.contracts.diagram.Diagram as shape;
    ghost use Rattle.vt_store.specs.contracts.fates.Fates as fates;

    ghost Value = { TypedLeaves };

    ghost coded = { Prim.hlevel (codes, shape.the_row.coded, fates.the_row.coded) };

    ghost view = { λ v. record { typed = v.typed; leaves = v.leaves } };

    ghost invariant = { λ v. AreKept v.typed v.leaves };
}

impl Varied {
    /// The fate of the program with no leaf changed. It takes no memory.
    pub fn plain_fate(&self) -> Fate
        ensures fate { (K : List Constant) (core : CoreProgram) (leaves : List Leaf) → StandsFor K core leaves self.now → IsPlainForm (whole core).form → IsFateOf K (whole core) result }
    {
        self.typed.pattern.fate(&Decision::all_left())
    }

    /// The leaves of the program.
    pub fn leaves(&self) -> &Leaves
        ensures same { result.now ≡ self.now.leaves }
        ensures few { length self.now.leaves ≤ 2048 }
    {
        &self.leaves
    }

    /// What was found out about the varied program.
    pub fn typed(&self) -> &Typed<32>
        ensures same { result.now ≡ self.now.typed }
        ensures kept { AreKept self.now.typed self.now.leaves }
    {
        &self.typed
    }
}

/// Types a program with no leaf changed, and with each one leaf a hole, by one inference. `TooManyLeaves`
/// comes where there are more than [`MOST_LEAVES`].
pub fn candidates(
    alloc: Global,
    core: &CoreProgram,
    constants: &Constants,
    leaves: &Leaves,
) -> Result<Varied, ChangeFault>
    requires closed { IsClosed (length constants.now) (64 * 32) core.now }
    requires numbered { IsInCheckingOrder core.now }
    requires plain { IsPlainForm (whole core.now).form }
    requires leaves { AreLeaves core.now leaves.now }
    ensures stands { IfOk result (StandsFor constants.now core.now leaves.now) }
    ensures few { IfOk result (λ varied. length leaves.now ≤ 2048) }
    ensures too_many { IsErrOf result ChangeFault.TooManyLeaves → 2048 < length leaves.now }
    ensures never_too_big { (leaf : ℕ) → IsErrOf result (ChangeFault.TooBig leaf) → ⊥ }
{
    constants.coherent();
    if leaves.as_slice().len() > MOST_LEAVES {
        return Err(ChangeFault::TooManyLeaves);
    }
    let own = Leaves::new(Vec::from_slice(alloc, leaves.as_slice())?);
    match typed(alloc, core, constants, leaves) {
        Ok(typed) => Ok(Varied { typed, leaves: own }),
        Err(AllocError) => {
            drop(own);
            Err(ChangeFault::Memory)
        }
    }
}

// What inference finds out about the varied program.
fn typed(
    alloc: Global,
    core: &CoreProgram,
    constants: &Constants,
    leaves: &Leaves,
) -> Result<Typed<32>, AllocError>
    requires closed { IsClosed (length constants.now) (64 * 32) core.now }
    requires numbered { IsInCheckingOrder core.now }
    requires plain { IsPlainForm (whole core.now).form }
    requires leaves { AreLeaves core.now leaves.now }
    requires few { length leaves.now ≤ 2048 }
    ensures inferred { IfOk result (λ typed. IsInferred 32 constants.now (program_varied leaves.now core.now) (AtMost 1) typed) }
    ensures leaf_cells { IfOk result (λ typed. AreLeafCells 32 constants.now (program_varied leaves.now core.now) leaves.now (AtMost 1) typed) }
{
    let varied = vary_leaves(alloc, core, leaves)?;
    let typed = infer(alloc, &varied, constants, leaves, Space::AtMost(1));
    drop(varied);
    typed
}
