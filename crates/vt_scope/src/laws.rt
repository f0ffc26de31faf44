//! Facts about the definitions alone, each the contract of a function with no body.

ghost use Rattle.vt_scope.specs.Erased.{HasOneCore, SelectionCommutes};

/// A program has at most one core and one list of leaves.
pub fn one_core()
    ensures { HasOneCore }
{}

/// Selecting from a program and taking its core may change places.
pub fn selection_commutes()
    ensures { SelectionCommutes }
{}
