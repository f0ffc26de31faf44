//! Laws about the definitions, each the contract of a function that does nothing.
ghost use Rattle.vt_type.specs.Laws.{RenamingsShareTheirForm, FormsAreCanonical};

/// The canonical form tells exactly whether two types are equal up to the names of variables.
pub fn same_up_to_renaming()
    ensures { RenamingsShareTheirForm }
{}

/// The canonical form of a canonical form is itself.
pub fn canonical_again()
    ensures { FormsAreCanonical }
{}
