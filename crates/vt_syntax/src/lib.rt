//! Programs as trees: as they are written, and in the core.
//!
//! A [`Program`] is what the tokens of a file spell; `specs/Spelling.antt` says which tokens spell which
//! program, in what depth. A [`CoreProgram`] is the same in nine forms. Both hold named choices;
//! `specs/Selection.antt` says what a decision selects. Read `specs/SurfaceTrees.antt` and
//! `specs/CoreTrees.antt` first: they give the forms as patterns, by which all definitions go.
#![tactic(auto)]

mod core_expr;
mod core_makers;
mod core_program;
mod expr;
mod expr_makers;
mod greatest;
mod holes;
mod leaf;
mod levels;
mod program;

pub use core_expr::{Core, Form, Lit};
pub use core_program::{CoreDef, CoreDefs, CoreProgram};
pub use expr::{Expr, ExprForm, Exprs, Op};
pub use greatest::last_node;
pub use holes::replace_leaf;
pub use leaf::{Class, Leaf, Leaves};
pub use levels::{left_level, level, right_level};
pub use program::{Def, Defs, Program};
