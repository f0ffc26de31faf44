use std::alloc::AllocError;
use std::marker::Model;
use vt_dec::NodeId;
use vt_scheme::Scheme;
use vt_store::{CellId, Pattern, Store};

/// What inference found out about a program. There is a scheme and a mark for each definition, and for
/// the main expression last.
#[derive(Debug, Drop)]
pub struct Typed<const N: usize> {
    pub store: Store<N>,
    /// Which decisions select a program with a type, and else the node that fails first.
    pub pattern: Pattern<N>,
    /// The cell of the main expression.
    pub main: CellId,
    pub schemes: Schemes<N>,
    /// Up to which node a decision has to be alive for the part to have a type.
    pub marks: Marks,
    /// A cell for each leaf that was handed in.
    pub leaf_cells: LeafCells,
}

/// Schemes in order.
#[derive(Debug, Drop)]
pub struct Schemes<const N: usize> {
    schemes: Vec<Scheme<N>>,
}

impl<const N: usize> Model for Schemes<N> {
    ghost use Rattle.std.specs.Prelude.{List};
    ghost use Rattle.std.specs.Coded.{codes};
    ghost use Rattle.vt_scheme.specs.declared.scheme.Scheme.{Scheme};
    ghost use Rattle.vt_store.specs.contracts.diagram.Diagram as shape;

    ghost Value = { List (Scheme N) };

    ghost coded = { Prim.hlevel (codes, shape.the_row.coded) };

    ghost view = { λ s. s.schemes.items };
}

impl<const N: usize> Schemes<N> {
    ghost use Rattle.std.specs.Prelude.{◌≡◌};

    pub fn new(schemes: Vec<Scheme<N>>) -> Schemes<N>
        ensures { result ≡ schemes.entry.items }
    {
        Schemes { schemes }
    }

    pub fn as_slice(&self) -> &[Scheme<N>]
        ensures { result.now ≡ self.now }
    {
        self.schemes.as_slice()
    }
}

/// Nodes in the order of the parts that they are the marks of.
#[derive(Debug, Drop)]
pub struct Marks {
    marks: Vec<NodeId>,
}

impl Model for Marks {
    ghost use Rattle.std.specs.Prelude.{List, ℕ};

    ghost Value = { List ℕ };

    ghost view = { λ m. m.marks.items };
}

impl Marks {
    ghost use Rattle.std.specs.Prelude.{◌≡◌, [], ◌∷◌, ◌++◌, OnOk};

    pub fn new(marks: Vec<NodeId>) -> Marks
        ensures { result ≡ marks.items }
    {
        Marks { marks }
    }

    /// One more at the end.
    pub(crate) fn push(&mut self, mark: NodeId) -> Result<(), AllocError>
        ensures { OnOk result (self.new ≡ self.old ++ mark ∷ []) }
    {
        self.marks.push(mark)?;
        Ok(())
    }

    pub fn as_slice(&self) -> &[NodeId]
        ensures { result.now ≡ self.now }
    {
        self.marks.as_slice()
    }
}

/// Cells in the order of the leaves that they are of.
#[derive(Debug, Drop)]
pub struct LeafCells {
    cells: Vec<CellId>,
}

impl Model for LeafCells {
    ghost use Rattle.std.specs.Prelude.{List, ℕ};

    ghost Value = { List ℕ };

    ghost view = { λ l. l.cells.items };
}

impl LeafCells {
    ghost use Rattle.std.specs.Prelude.{◌≡◌};

    pub fn new(cells: Vec<CellId>) -> LeafCells
        ensures { result ≡ cells.items }
    {
        LeafCells { cells }
    }

    pub fn as_slice(&self) -> &[CellId]
        ensures { result.now ≡ self.now }
    {
        self.cells.as_slice()
    }
}
