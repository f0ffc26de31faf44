//! Facts about the definitions alone, each the contract of a function with no body.

ghost use Rattle.vt_norm.specs.Laws.{IsSound, IsUnique, IsCongruent, AreSingleValued, IsSoundForTypes, IsUniqueForTypes, OneFormSelectsAlike, AlikeHaveOneForm, EqualAlternativesJoin, LeftIsDecided, RightIsDecided, ChoiceDistributes};

use std::marker::Brand;

/// A map from decisions to outcomes, and a set of decisions over which it is looked at.
pub trait Outcomes {
    ghost use Rattle.vt_type.specs.NormalForm.{Map, Decisions};

    ghost map: { Map };

    ghost set: { Decisions };
}

/// Any map and any set: the proof of a call at this type picks them.
impl Outcomes for Brand {
    ghost use Rattle.std.specs.Prelude.{◌≡◌, None};
    ghost use Rattle.vt_type.specs.NormalForm.{Total};

    ghost map = { λ decision outcome. outcome ≡ None };

    ghost set = { Total };
}

/// What a normal form selects is what the map says; a map has no second one; and it hangs on nothing
/// but the outcomes at the decisions of the set.
pub fn normal_form_of_map<M: Outcomes, N: Outcomes>()
    ensures sound { IsSound M.map M.set }
    ensures unique { IsUnique M.map M.set }
    ensures congruent { IsCongruent M.map M.set N.map N.set }
{}

/// A normal form of a type selects what the type does and is the only one, and it is one of exactly
/// those types that select the same.
pub fn normal_form_of_type()
    ensures single { AreSingleValued }
    ensures sound { IsSoundForTypes }
    ensures unique { IsUniqueForTypes }
    ensures alike { OneFormSelectsAlike }
    ensures one_form { AlikeHaveOneForm }
{}

/// Choices that select the same when they are written in another way.
pub fn equivalences()
    ensures joined { EqualAlternativesJoin }
    ensures left { LeftIsDecided }
    ensures right { RightIsDecided }
    ensures distributed { ChoiceDistributes }
{}
