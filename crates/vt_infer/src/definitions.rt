//! The definitions of a program, one after the other.
ghost use Rattle.std.specs.Prelude.{◌≡◌, true, length, IfOk, OnOk};
ghost use Rattle.vt_type.specs.Constants.{IsTable};
ghost use Rattle.vt_infer.specs.Gathering.{AreGathered, IsAddedWith, IsLookedOver};
ghost use Rattle.vt_infer.specs.Parts.{HasSolutions, IsDefinable, IsReached, Covers};

use crate::environment::Entry;
use crate::expression::expression;
use crate::holes::Holes;
use crate::joining::equate;
use crate::naming::generalise;
use crate::steps::open_cell;
use crate::typed::Marks;
use crate::work::Work;
use std::alloc::AllocError;
use vt_dec::Context;
use vt_store::laws::most_general_solution;
use vt_store::{CellId, Store};
use vt_syntax::{CoreDef, CoreProgram};
use vt_type::Constants;

/// All definitions of a program in the whole context: their names, their schemes and their marks.
pub(crate) fn definitions<const N: usize>(
    core: &CoreProgram,
    constants: &Constants,
    work: &mut Work<N>,
    marks: &mut Marks,
    holes: &mut Holes<N>,
    within: &Context<N>,
) -> Result<(), AllocError>
    requires table { IsTable constants.now }
    requires covers { Covers N within.now within.now.space }
    requires reached { IsReached N constants.now core.now within.now.space 0 work.old marks.old }
    requires gathered { AreGathered N constants.now core.now within.now.space 0 work.old holes.old }
    ensures reached { OnOk result (IsReached N constants.now core.now within.now.space (length core.now.defs) work.new marks.new) }
    ensures gathered { OnOk result (AreGathered N constants.now core.now within.now.space (length core.now.defs) work.new holes.new) }
    ensures asked { OnOk result (holes.new.asked ≡ holes.old.asked) }
{
    for def in core.defs.as_slice() {
        add(def, constants, work, marks, holes, within)?;
    }
    Ok(())
}

// One more definition: its name, its scheme and its mark.
fn add<const N: usize>(
    def: &CoreDef,
    constants: &Constants,
    work: &mut Work<N>,
    marks: &mut Marks,
    holes: &mut Holes<N>,
    within: &Context<N>,
) -> Result<(), AllocError>
    requires { IsDefinable N constants.now within.now def.now work.old }
    ensures { OnOk result (IsAddedWith N constants.now within.now def.now work.old work.new marks.old marks.new holes.old holes.new) }
{
    solvable(&work.store);
    let root = definition(def, constants, work, holes, within)?;
    solvable(&work.store);
    generalise(work, root)?;
    marks.push(def.node)?;
    Ok(())
}

// A cell for a definition. At each decision it has exactly the types of what the decision selects; a
// decision at which that has none is dead from now on, with the node that fails first.
fn definition<const N: usize>(
    def: &CoreDef,
    constants: &Constants,
    work: &mut Work<N>,
    holes: &mut Holes<N>,
    within: &Context<N>,
) -> Result<CellId, AllocError>
    requires { IsDefinable N constants.now within.now def.now work.old }
    ensures { IfOk result (λ cell. IsLookedOver N constants.now within.now def.now cell work.old work.new holes.old holes.new) }
{
    if def.recursive {
        let cell = looped(def, constants, work, holes, within)?;
        return Ok(cell);
    }
    let cell = expression(&def.body, constants, work, holes, within)?;
    Ok(cell)
}

// A recursive definition: within its own expression its name has one type.
fn looped<const N: usize>(
    def: &CoreDef,
    constants: &Constants,
    work: &mut Work<N>,
    holes: &mut Holes<N>,
    within: &Context<N>,
) -> Result<CellId, AllocError>
    requires recursive { def.now.recursive ≡ true }
    requires definable { IsDefinable N constants.now within.now def.now work.old }
    ensures { IfOk result (λ cell. IsLookedOver N constants.now within.now def.now cell work.old work.new holes.old holes.new) }
{
    let parameter = open_cell(&mut work.store)?;
    work.environment.push(Entry::Mono(parameter))?;
    let own = expression(&def.body, constants, work, holes, within)?;
    work.environment.pop();
    equate(work, within, own, parameter, def.node)?;
    Ok(parameter)
}

/// A store has a solution at each decision.
pub(crate) fn solvable<const N: usize>(store: &Store<N>)
    ensures { HasSolutions N store.now }
{
    most_general_solution();
    store.acyclic();
}
