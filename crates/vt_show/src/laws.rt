//! Laws about the texts of types, each the contract of a function that does nothing.
ghost use Rattle.vt_show.specs.Laws.{TextsSpellOneType, NormalFormsAreReadBack, NormalFormsAreReadAlone};

/// A text has at most one type.
pub fn one_spelling()
    ensures { TextsSpellOneType }
{}

/// To read the text of a normal form gives that normal form, and nothing else.
pub fn read_back()
    ensures back { NormalFormsAreReadBack }
    ensures alone { NormalFormsAreReadAlone }
{}
