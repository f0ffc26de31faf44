//! All changes of a program.
ghost use Rattle.std.specs.Prelude.{◌≡◌, ℕ, ◌+◌, ◌*◌, ◌<◌, ◌≤◌, List, [], ◌∷◌, ◌++◌, length, IfOk, OnOk, IsErrOf};
ghost use Rattle.std.specs.List.{All};
ghost use Rattle.vt_syntax.specs.declared.core_program.CoreProgram.{CoreProgram};
ghost use Rattle.vt_syntax.specs.declared.leaf.Leaf.{Leaf};
ghost use Rattle.vt_syntax.specs.Checking.{IsInCheckingOrder};
ghost use Rattle.vt_syntax.specs.Leaves.{AreLeaves};
ghost use Rattle.vt_syntax.specs.Programs.{whole};
ghost use Rattle.vt_syntax.specs.Scoping.{IsClosed};
ghost use Rattle.vt_syntax.specs.Selection.{IsPlainForm};
ghost use Rattle.vt_type.specs.Constants.{Constant};
ghost use Rattle.vt_rules.specs.Changes.{IsChanges};
ghost use Rattle.vt_change.specs.declared.fault.ChangeFault.{ChangeFault};
ghost use Rattle.vt_change.specs.Curing.{AreFormed, IsSmall, StandsFor};
ghost use Rattle.vt_change.specs.Listed.{AreListed, IsFirstTooBig};

use crate::answering::change_of;
use crate::fault::ChangeFault;
use crate::ranking::rank;
use crate::typing::{Varied, candidates};
use std::alloc::Global;
use vt_syntax::{CoreProgram, Leaves};
use vt_type::{ChangeLine, Constants};

/// The changes of a program without choices: those of exactly the leaves that cure, in order. `TooManyLeaves`
/// comes where there are more than 2,048 leaves, and else `TooBig` with the first leaf for which
/// [`change_of`] gives it.
pub fn changes(
    alloc: Global,
    core: &CoreProgram,
    constants: &Constants,
    leaves: &Leaves,
) -> Result<Vec<ChangeLine>, ChangeFault>
    requires closed { IsClosed (length constants.now) (64 * 32) core.now }
    requires numbered { IsInCheckingOrder core.now }
    requires plain { IsPlainForm (whole core.now).form }
    requires leaves { AreLeaves core.now leaves.now }
    ensures changes { IfOk result (λ lines. IsChanges constants.now (whole core.now) leaves.now lines.items) }
    ensures small { IfOk result (λ lines. All IsSmall lines.items) }
    ensures formed { IfOk result (λ lines. All AreFormed lines.items) }
    ensures few { IfOk result (λ lines. length leaves.now ≤ 2048) }
    ensures too_many { IsErrOf result ChangeFault.TooManyLeaves → 2048 < length leaves.now }
    ensures too_big { (leaf : ℕ) → IsErrOf result (ChangeFault.TooBig leaf) → IsFirstTooBig constants.now (whole core.now) leaves.now leaf }
{
    let varied = candidates(alloc, core, constants, leaves)?;
    let found = listed(alloc, &varied);
    drop(varied);
    let mut lines = found?;
    match rank(&mut lines) {
        Ok(()) => Ok(lines),
        Err(_) => {
            drop(lines);
            Err(ChangeFault::Memory)
        }
    }
}

// The changes in the order of the leaves.
fn listed(alloc: Global, varied: &Varied) -> Result<Vec<ChangeLine>, ChangeFault>
    ensures listed { (K : List Constant) (core : CoreProgram) (leaves : List Leaf) → StandsFor K core leaves varied.now → IsPlainForm (whole core).form → AreLeaves core leaves
        → IfOk result (λ lines. AreListed K (whole core) leaves (length leaves) lines.items) }
    ensures too_big { (number : ℕ) → IsErrOf result (ChangeFault.TooBig number) → (K : List Constant) (core : CoreProgram) (leaves : List Leaf)
        → StandsFor K core leaves varied.now → IsPlainForm (whole core).form → AreLeaves core leaves → IsFirstTooBig K (whole core) leaves number }
    ensures never_too_many { IsErrOf result ChangeFault.TooManyLeaves → ⊥ }
{
    let mut lines = Vec::new(alloc);
    match list_all(alloc, varied, &mut lines) {
        Ok(()) => Ok(lines),
        Err(fault) => {
            drop(lines);
            Err(fault)
        }
    }
}

fn list_all(alloc: Global, varied: &Varied, lines: &mut Vec<ChangeLine>) -> Result<(), ChangeFault>
    requires none { lines.old.items ≡ [] }
    ensures listed { (K : List Constant) (core : CoreProgram) (leaves : List Leaf) → StandsFor K core leaves varied.now → IsPlainForm (whole core).form → AreLeaves core leaves
        → OnOk result (AreListed K (whole core) leaves (length leaves) lines.new.items) }
    ensures too_big { (number : ℕ) → IsErrOf result (ChangeFault.TooBig number) → (K : List Constant) (core : CoreProgram) (leaves : List Leaf)
        → StandsFor K core leaves varied.now → IsPlainForm (whole core).form → AreLeaves core leaves → IsFirstTooBig K (whole core) leaves number }
    ensures never_too_many { IsErrOf result ChangeFault.TooManyLeaves → ⊥ }
{
    let count = varied.leaves().as_slice().len() as u32;
    for leaf in 0..count {
        list_one(alloc, varied, leaf, lines)?;
    }
    Ok(())
}

// The change of one more leaf, if it cures.
fn list_one(
    alloc: Global,
    varied: &Varied,
    leaf: u32,
    lines: &mut Vec<ChangeLine>,
) -> Result<(), ChangeFault>
    requires leaf { leaf < length varied.now.leaves }
    ensures listed { (K : List Constant) (core : CoreProgram) (leaves : List Leaf) → StandsFor K core leaves varied.now → IsPlainForm (whole core).form → AreLeaves core leaves
        → AreListed K (whole core) leaves leaf lines.old.items → OnOk result (AreListed K (whole core) leaves (leaf + 1) lines.new.items) }
    ensures too_big { (number : ℕ) → IsErrOf result (ChangeFault.TooBig number) → (K : List Constant) (core : CoreProgram) (leaves : List Leaf)
        → StandsFor K core leaves varied.now → IsPlainForm (whole core).form → AreLeaves core leaves → AreListed K (whole core) leaves leaf lines.old.items → IsFirstTooBig K (whole core) leaves number }
    ensures never_too_many { IsErrOf result ChangeFault.TooManyLeaves → ⊥ }
{
    let found = match change_of(alloc, varied, leaf) {
        Ok(found) => found,
        Err(fault) => return Err(fault),
    };
    match found {
        None => Ok(()),
        Some(line) => {
            push_line(lines, line)?;
            Ok(())
        }
    }
}

fn push_line(lines: &mut Vec<ChangeLine>, line: ChangeLine) -> Result<(), ChangeFault>
    ensures ok { OnOk result (lines.new.items ≡ lines.old.items ++ line ∷ []) }
    ensures memory { (fault : ChangeFault) → IsErrOf result fault → fault ≡ ChangeFault.Memory }
{
    match lines.push(line) {
        Ok(()) => Ok(()),
        Err(_) => Err(ChangeFault::Memory),
    }
}
