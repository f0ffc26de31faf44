//! Laws of the programs that tokens spell, and of the answer.
ghost use Rattle.vt_parse.specs.Laws.{HasOneProgram, IsAdmittedIfBegun, HasLeastDepth, HasOneAnswer};

/// Tokens spell at most one program, in one depth.
pub fn one_program()
    ensures { HasOneProgram }
{}

/// Where tokens spell a program, one that is admitted begins with them only if theirs is admitted.
pub fn admitted_if_begun()
    ensures { IsAdmittedIfBegun }
{}

/// Of the programs that begin with some tokens one is nested least.
pub fn least_depth()
    ensures { HasLeastDepth }
{}

/// Beside a fault of memory only one answer is right.
pub fn one_answer()
    ensures { HasOneAnswer }
{}
