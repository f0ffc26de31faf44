//! The core of a program.
ghost use Rattle.std.specs.Prelude.{◌≡◌, ℕ, ◌≤◌, [], None, length, IfOk, MatchResult};
ghost use Rattle.vt_syntax.specs.Scoping.{IsClosed};
ghost use Rattle.vt_syntax.specs.Checking.{IsInCheckingOrder, HasDistinctNumbers};
ghost use Rattle.vt_syntax.specs.Leaves.{AreLeaves};
ghost use Rattle.vt_scope.specs.Faults.{program_events, dims_of, first_fault, IsFault};
ghost use Rattle.vt_scope.specs.Cores.{HasImplied, NamesNoImplied, IsCoreProgram};
ghost use Rattle.vt_scope.specs.Definitions.{AnswersDef, AnswersDefs};

use crate::ScopeFault;
use crate::expressions::{bound_part, expression};
use crate::scope::Scope;
use crate::walk::Walk;
use sqlite_items::Items;
use std::alloc::Global;
use vt_syntax::{Class, CoreDef, CoreDefs, CoreProgram, Def, Leaves, Program};
use vt_type::{Constants, Names, Tables};

/// A program in the core, the names that its numbers stand for, and the leaves of all alternatives by
/// their place in the text.
#[derive(Drop)]
pub struct Resolved {
    pub core: CoreProgram,
    pub tables: Tables,
    pub leaves: Leaves,
}

/// The core of a program over a table of constants, or what is refused first. Want of memory, or of
/// numbers for nodes, says nothing of the program.
pub fn resolve(
    alloc: Global,
    program: &Program,
    constants: &Constants,
) -> Result<Resolved, ScopeFault>
    ensures core { IfOk result (λ r. IsCoreProgram constants.now (dims_of program.now) program.now r.core r.leaves) }
    ensures dims { IfOk result (λ r. r.tables.dims ≡ dims_of program.now) }
    ensures datas { IfOk result (λ r. r.tables.datas ≡ []) }

    // Nothing is refused, or what comes first in the text.
    ensures fault { MatchResult result (λ _. first_fault [] (program_events constants.now program.now) ≡ None) (IsFault (first_fault [] (program_events constants.now program.now))) }
    ensures few { IfOk result (λ r. length r.tables.dims ≤ 64) }

    // A table that has the constants that no text writes, as that of the language does.
    ensures closed { IfOk result (λ r. HasImplied constants.now → IsClosed (length constants.now) (length r.tables.dims) r.core) }

    // The leaves are those of the core, where no name is that of a constant that no text writes.
    ensures leaves { IfOk result (λ r. NamesNoImplied constants.now → AreLeaves r.core r.leaves) }
    ensures numbered { IfOk result (λ r. IsInCheckingOrder r.core) }
    ensures distinct { IfOk result (λ r. HasDistinctNumbers r.core) }
{
    let mut walk = Walk {
        next: 1,
        scope: Scope::new(alloc),
        dims: Names::new(alloc),
        leaves: Items::new(alloc),
    };
    let defs = definitions(program.defs.as_slice(), alloc, constants, &mut walk)?;
    let main = expression(&program.main, alloc, constants, &mut walk)?;
    let leaves = Vec::from_slice(alloc, walk.leaves.as_slice())?;
    let Walk { dims, .. } = walk;
    Ok(Resolved {
        core: CoreProgram {
            defs,
            main: main.into_inner(),
        },
        tables: Tables {
            dims,
            datas: Names::new(alloc),
        },
        leaves: Leaves::new(leaves),
    })
}

fn definitions(
    defs: &[Def],
    alloc: Global,
    constants: &Constants,
    walk: &mut Walk,
) -> Result<CoreDefs, ScopeFault>
    ensures { AnswersDefs constants.now defs.now walk.old walk.new result }
{
    let mut cores = Vec::new(alloc);
    for def in defs {
        let core = definition(def, alloc, constants, walk)?;
        cores.push(core).map_err(|_| ScopeFault::Memory)?;
    }
    Ok(CoreDefs::new(cores))
}

fn definition(
    def: &Def,
    alloc: Global,
    constants: &Constants,
    walk: &mut Walk,
) -> Result<CoreDef, ScopeFault>
    ensures { AnswersDef constants.now def.now walk.old walk.new result }
{
    let recursive = def.recursive;
    let body = bound_part(&def.body, alloc, constants, walk, &def.name, recursive)?;
    let node = walk.number()?;
    walk.scope.push(alloc, &def.name, Class::Defined)?;
    let name = def.name.copied(alloc)?;
    Ok(CoreDef {
        name,
        name_span: def.name_span,
        node,
        recursive,
        body: body.into_inner(),
    })
}
