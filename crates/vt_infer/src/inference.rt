//! The types of a program, at each decision of a space.
ghost use Rattle.std.specs.Prelude.{◌≡◌, ◌*◌, ◌≤◌, [], length, IfOk};
ghost use Rattle.vt_syntax.specs.Checking.{IsInCheckingOrder};
ghost use Rattle.vt_syntax.specs.Scoping.{IsClosed};
ghost use Rattle.vt_type.specs.Constants.{IsTable};
ghost use Rattle.vt_infer.specs.Inferred.{IsInferred, AreLeafCells};
ghost use Rattle.vt_infer.specs.Gathering.{AreFound, AreGathered};
ghost use Rattle.vt_infer.specs.Parts.{Covers, IsReached, IsStarted, typed_of};

use crate::definitions::{definitions, solvable};
use crate::environment::Environment;
use crate::expression::expression;
use crate::holes::Holes;
use crate::leaf_cells::leaf_cells;
use crate::naming::generalise;
use crate::typed::{LeafCells, Marks, Typed};
use crate::work::Work;
use std::alloc::{AllocError, Global};
use vt_dec::{Context, Space};
use vt_store::{CellId, Pattern, Store};
use vt_syntax::{CoreProgram, Leaves, last_node};
use vt_type::Constants;

/// The types of a program at each decision of a space: of its main expression, and of each part; and where
/// a leaf's number stands on a hole, of that hole together with the main expression.
pub fn infer<const N: usize>(
    alloc: Global,
    core: &CoreProgram,
    constants: &Constants,
    leaves: &Leaves,
    space: Space,
) -> Result<Typed<N>, AllocError>
    requires closed { IsClosed (length constants.now) (64 * N) core.now }
    requires numbered { IsInCheckingOrder core.now }
    requires width { N ≤ 64 }
    ensures inferred { IfOk result (λ typed. IsInferred N constants.now core.now space typed) }
    ensures leaf_cells { IfOk result (λ typed. AreLeafCells N constants.now core.now leaves.now space typed) }
{
    constants.coherent();
    let within = Context::whole(space);
    let mut work = started(alloc, space);
    let mut marks = Marks::new(Vec::new(alloc));
    match all(
        alloc, core, constants, leaves, &mut work, &mut marks, &within,
    ) {
        Ok((main, leaf_cells)) => finished(alloc, work, marks, main, leaf_cells),
        Err(fault) => {
            drop(marks);
            drop(work);
            Err(fault)
        }
    }
}

// Nothing is known yet: no cells, no names, and all decisions are alive.
fn started<const N: usize>(alloc: Global, space: Space) -> Work<N>
    ensures { IsStarted N space result }
{
    Work {
        store: Store::new(alloc, space),
        pattern: Pattern::alive(alloc, space),
        environment: Environment::new(alloc),
    }
}

// The cell of the main expression, and a cell for each leaf.
fn all<const N: usize>(
    alloc: Global,
    core: &CoreProgram,
    constants: &Constants,
    leaves: &Leaves,
    work: &mut Work<N>,
    marks: &mut Marks,
    within: &Context<N>,
) -> Result<(CellId, LeafCells), AllocError>
    requires table { IsTable constants.now }
    requires covers { Covers N within.now within.now.space }
    requires reached { IsReached N constants.now core.now within.now.space 0 work.old marks.old }
    requires width { N ≤ 64 }
    ensures inferred { IfOk result (λ found. IsInferred N constants.now core.now within.now.space (typed_of work.new marks.new found.0 found.1)) }
    ensures leaf_cells { IfOk result (λ found. AreLeafCells N constants.now core.now leaves.now within.now.space (typed_of work.new marks.new found.0 found.1)) }
{
    let mut holes = Holes::of(alloc, leaves.as_slice())?;
    match parts(core, constants, work, marks, &mut holes, within) {
        Ok(main) => {
            let cells = leaf_cells(alloc, &mut work.store, holes.met(), leaves.as_slice(), main);
            drop(holes);
            Ok((main, cells?))
        }
        Err(fault) => {
            drop(holes);
            Err(fault)
        }
    }
}

// All definitions, and then the main expression, whose cell it gives: as a part it has a scheme like
// them, the last one in the environment.
fn parts<const N: usize>(
    core: &CoreProgram,
    constants: &Constants,
    work: &mut Work<N>,
    marks: &mut Marks,
    holes: &mut Holes<N>,
    within: &Context<N>,
) -> Result<CellId, AllocError>
    requires table { IsTable constants.now }
    requires covers { Covers N within.now within.now.space }
    requires reached { IsReached N constants.now core.now within.now.space 0 work.old marks.old }
    requires gathered { AreGathered N constants.now core.now within.now.space 0 work.old holes.old }
    ensures inferred { IfOk result (λ main. IsInferred N constants.now core.now within.now.space (typed_of work.new marks.new main [])) }
    ensures found { IfOk result (λ main. AreFound N constants.now core.now within.now.space work.new.store work.new.pattern main holes.new) }
    ensures asked { IfOk result (λ main. holes.new.asked ≡ holes.old.asked) }
{
    definitions(core, constants, work, marks, holes, within)?;
    solvable(&work.store);
    let main = expression(&core.main, constants, work, holes, within)?;
    solvable(&work.store);
    generalise(work, main)?;
    marks.push(last_node(&core.main))?;
    Ok(main)
}

// What was found out, with the schemes that the environment holds.
fn finished<const N: usize>(
    alloc: Global,
    work: Work<N>,
    marks: Marks,
    main: CellId,
    leaf_cells: LeafCells,
) -> Result<Typed<N>, AllocError>
    ensures { IfOk result (λ typed. typed ≡ typed_of work.entry marks main leaf_cells) }
{
    let Work {
        store,
        pattern,
        environment,
    } = work;
    match environment.into_schemes(alloc) {
        Ok(schemes) => Ok(Typed {
            store,
            pattern,
            main,
            schemes,
            marks,
            leaf_cells,
        }),
        Err(fault) => {
            drop(leaf_cells);
            drop(marks);
            drop(pattern);
            drop(store);
            Err(fault)
        }
    }
}
