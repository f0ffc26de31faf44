use std::alloc::{AllocError, Global};
use std::marker::Model;
use vt_syntax::{Def, Defs};

/// The definitions that have been read, in order.
#[derive(Drop)]
pub struct Definitions {
    defs: Vec<Def>,
}

impl Model for Definitions {
    ghost use Rattle.std.specs.Prelude.{List};
    ghost use Rattle.std.specs.Coded.{codes};
    ghost use Rattle.vt_syntax.specs.declared.program.Def.{Def};
    ghost use Rattle.vt_syntax.specs.contracts.expr.Expr as shape;

    ghost Value = { List Def };

    ghost coded = { Prim.hlevel (codes, shape.the_row.coded) };

    ghost view = { λ d. d.defs.items };
}

impl Definitions {
    ghost use Rattle.std.specs.Prelude.{◌≡◌, [], ◌∷◌, ◌++◌, OnOk};

    pub fn new(alloc: Global) -> Definitions
        ensures { result ≡ [] }
    {
        let defs = Vec::new(alloc);
        Definitions { defs }
    }

    pub fn push(&mut self, def: Def) -> Result<(), AllocError>
        ensures { OnOk result (self.new ≡ self.old ++ def ∷ []) }
    {
        self.defs.push(def)?;
        Ok(())
    }

    pub fn into_defs(self) -> Defs
        ensures { result ≡ self }
    {
        let Definitions { defs } = self;
        Defs::new(defs)
    }
}
