//! Facts about the definitions alone, each the contract of a function with no body.

ghost use Rattle.std.specs.Prelude.{◌≡◌, ◌↔◌, List};
ghost use Rattle.vt_dec.specs.declared.side.Side.{Side};
ghost use Rattle.vt_dec.specs.Decisions.{Region, Admits, IsKept};

/// A context is described in one way: two contexts of one space that admit the same decisions decide
/// the same dimensions themselves.
pub fn one_description()
    ensures { (one other : Region) → IsKept one → IsKept other → one.space ≡ other.space → ((decision : List Side) → Admits one decision ↔ Admits other decision) → one ≡ other }
{}

/// A context always admits a decision.
pub fn always_some()
    ensures { (region : Region) → IsKept region → (decision : List Side) × Admits region decision }
{}
