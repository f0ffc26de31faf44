//! Facts about the definitions alone, each the contract of a function with no body.
ghost use Rattle.vt_store.specs.Laws.{HaveMostGeneral, HaveOwnSolution, AreSolvedAlike};

/// Cells of which none contains itself have a solution, and all solutions are instances of one.
pub fn most_general_solution()
    ensures { HaveMostGeneral }
{}

/// They have one in which each open cell is a variable of its own.
pub fn own_solution()
    ensures { HaveOwnSolution }
{}

/// The solutions of a part are what the solutions of the whole give to its cells.
pub fn solutions_of_parts()
    ensures { AreSolvedAlike }
{}
