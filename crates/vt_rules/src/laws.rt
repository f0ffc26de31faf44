//! Laws about the typing rules, each the contract of a function that does nothing.
ghost use Rattle.vt_rules.specs.Laws.{
  TypesAreWellFormed,
  IsClosedUnderSubstitution,
  SchemesAreTyped,
  TypedHaveSchemes,
  PrincipalTypesAgree,
  PrincipalPairsAgree,
  MeaningsAgree,
  ChangesAgree,
  MarkedAreTyped,
  TypedAreMarked,
  CuringAreMarked,
  PrefixesAreSelected,
  UpToAllIsTyping,
  UpToNextIsUpTo,
  LeastFailingExists,
  SomeFailingIsFirst,
  FirstFailingIsOne,
  FailingAreUntyped,
  FirstFailingIsJoin,
};

/// A type that an expression has is well formed, where those of its environment are.
pub fn types_are_well_formed()
    ensures { TypesAreWellFormed }
{}

/// Typing is closed under substitution, also of the types within entries of the environment.
pub fn closed_under_substitution()
    ensures { IsClosedUnderSubstitution }
{}

/// What has a type by choosing a scheme at each `let` has it by the rules.
pub fn schemes_are_typed()
    ensures { SchemesAreTyped }
{}

/// What has a type by the rules has it by choosing a scheme at each `let`, if each expression has a most
/// general type.
pub fn typed_have_schemes()
    ensures { TypedHaveSchemes }
{}

/// A program has one principal type, up to the names of variables.
pub fn one_principal_type()
    ensures { PrincipalTypesAgree }
{}

/// A program with a marked hole has one principal pair, up to the names of variables.
pub fn one_principal_pair()
    ensures { PrincipalPairsAgree }
{}

/// At each decision a program means one thing.
pub fn one_meaning()
    ensures { MeaningsAgree }
{}

/// A part of what a decision selects is what it selects from that part.
pub fn prefixes_are_selected()
    ensures { PrefixesAreSelected }
{}

/// A program has one list of changes.
pub fn one_list_of_changes()
    ensures { ChangesAgree }
{}

/// A typing with a marked hole is a typing.
pub fn marked_are_typed()
    ensures { MarkedAreTyped }
{}

/// In a typing of an expression in which a hole is written, that hole has a type.
pub fn typed_are_marked()
    ensures { TypedAreMarked }
{}

/// Where a leaf of a program cures, the hole that stands for it has a type.
pub fn curing_are_marked()
    ensures { CuringAreMarked }
{}

/// Typing up to a number that no node passes is typing.
pub fn up_to_all_is_typing()
    ensures { UpToAllIsTyping }
{}

/// A typing up to a number is one up to each smaller number.
pub fn up_to_next_is_up_to()
    ensures { UpToNextIsUpTo }
{}

/// Where a program has no typing up to a number there is a first failing node. Which one is found by
/// looking at one number after the other, so it has to be known of each whether there is a typing.
pub fn least_failing_exists()
    ensures { LeastFailingExists }
{}

/// Without that knowledge: where a program has no typing up to a number, it cannot be that no node up to
/// it is the first failing one.
pub fn some_failing_is_first()
    ensures { SomeFailingIsFirst }
{}

/// A program has at most one first failing node.
pub fn first_failing_is_one()
    ensures { FirstFailingIsOne }
{}

/// A program with a first failing node has no type.
pub fn failing_are_untyped()
    ensures { FailingAreUntyped }
{}

/// The first failing node of a program is an application or a `let rec`.
pub fn first_failing_is_join()
    ensures { FirstFailingIsJoin }
{}
