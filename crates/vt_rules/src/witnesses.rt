//! What the definitions say of small programs, each the contract of a function that does nothing. Beside
//! each statement, in `specs/Witnesses.antt`, stands which wrong definition it rules out.
ghost use Rattle.vt_rules.specs.Witnesses.{
  NumberOrItself,
  OneOrAll,
  SelfApplication,
  UnusedError,
  TwoRecursiveUses,
  TwoLaterUses,
  NumberApplied,
  NumberAppliedWithin,
  Endless,
  WrongSum,
  WrongUse,
  NumberAndTruth,
  PairWithError,
};

/// `fun x -> @A{x, 1}` is `'a -> @A{'a, Int}`.
pub fn number_or_itself()
    ensures { NumberOrItself }
{}

/// `fun y -> let f = fun z -> @A{if true then y else z, z} in (f 1, f true)` is `@A{!, 'a -> Int * Bool}`.
pub fn one_or_all()
    ensures { OneOrAll }
{}

/// `fun x -> x x` has no type.
pub fn self_application()
    ensures { SelfApplication }
{}

/// `let x = 1 true in 2` has no type.
pub fn unused_error()
    ensures { UnusedError }
{}

/// `let rec f = fun x -> f 1 in f true` has no type.
pub fn two_recursive_uses()
    ensures { TwoRecursiveUses }
{}

/// `let rec f = fun x -> x in (f 1, f true)` is `Int * Bool`.
pub fn two_later_uses()
    ensures { TwoLaterUses }
{}

/// In `1 true` the application fails first.
pub fn number_applied()
    ensures { NumberApplied }
{}

/// In `fun x -> 1 true` the application fails first.
pub fn number_applied_within()
    ensures { NumberAppliedWithin }
{}

/// In `let rec f = fun x -> f in 1` the `let rec` fails first.
pub fn endless()
    ensures { Endless }
{}

/// In `1 + true` the leaf `true` wants `Int`, with the result `Int`.
pub fn wrong_sum()
    ensures { WrongSum }
{}

/// In `def x = true; x + 1` the leaf `true` wants `'a`, with the result `Int`.
pub fn wrong_use()
    ensures { WrongUse }
{}

/// In `fun x -> (x + 1, not x)` the second `x` wants `Bool`, with the result `Int -> Int * Bool`.
pub fn number_and_truth()
    ensures { NumberAndTruth }
{}

/// `fun y -> (y, 1 true)` has one change: the leaf `1` wants `Bool -> 'a`, with the result `'b -> 'b * 'a`.
pub fn pair_with_error()
    ensures { PairWithError }
{}
