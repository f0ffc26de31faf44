//! Pairs taken apart until a cell has to be bound.
ghost use Rattle.std.specs.Prelude.{◌≡◌, [], ◌∷◌, ◌++◌, None, IfOk, IfSome};
ghost use Rattle.std.specs.List.{All};
ghost use Rattle.std.specs.Option.{option_map};
ghost use Rattle.vt_unify.specs.Equations.{IsPosed};
ghost use Rattle.vt_unify.specs.Carried.{AreCarried};
ghost use Rattle.vt_unify.specs.Turns.{IsTurn, IsLifeOf, IsWorked};
ghost use Rattle.vt_unify.specs.Pairs.{IsKnown, AreKnown, equation_of, equations_in, region_of};
ghost use Rattle.vt_unify.specs.declared.life.Life.TheVariants.{Alive};

use crate::compare::{Comparison, compare};
use crate::life::{Life, life_of};
use crate::pairs::{Pair, Pairs};
use crate::replace::{push_halves, push_parts};
use crate::seen::Seen;
use std::alloc::AllocError;
use vt_dec::{Context, NodeId};
use vt_store::{Pattern, Store};

/// Takes pairs off the list, and kills the decisions at which one cannot be equal, until there is one
/// whose left cell is to be bound to its right one.
pub(crate) fn next_binding<const N: usize>(
    store: &Store<N>,
    pattern: &mut Pattern<N>,
    whole: &Context<N>,
    pairs: &mut Pairs<N>,
    node: NodeId,
) -> Result<Option<Pair>, AllocError>
    requires known { AreKnown pairs.old }
    requires posed { All (IsPosed N store.now) (equations_in whole.now pairs.old) }
    requires space { pattern.old.space ≡ store.now.space }
    ensures known { IfOk result (λ found. AreKnown pairs.new × IfSome found (IsKnown pairs.new.narrowed.items)) }
    ensures worked { IfOk result (λ found. IsWorked N node store.now pattern.old pattern.new (equations_in whole.now pairs.old) (equations_in whole.now pairs.new) (option_map (equation_of whole.now pairs.new.narrowed.items) found)) }
{
    store.acyclic();
    let mut seen = Seen::new(store.allocator());
    while let Some(pair) = pairs.pop() {
        let found = turn(store, pattern, whole, pairs, &pair, &mut seen, node)?;
        if found.is_some() {
            return Ok(found);
        }
    }
    Ok(None)
}

// One pair that was taken off the list. One that was taken apart before is not again.
fn turn<const N: usize>(
    store: &Store<N>,
    pattern: &mut Pattern<N>,
    whole: &Context<N>,
    pairs: &mut Pairs<N>,
    pair: &Pair,
    seen: &mut Seen,
    node: NodeId,
) -> Result<Option<Pair>, AllocError>
    requires known { AreKnown pairs.old }
    requires pair_known { IsKnown pairs.old.narrowed.items pair.now }
    requires posed { IsPosed N store.now (equation_of whole.now pairs.old.narrowed.items pair.now) }
    requires space { pattern.old.space ≡ store.now.space }
    requires carried { AreCarried N store.now pattern.old whole.now pairs.old.narrowed.items (equations_in whole.now pairs.old ++ equation_of whole.now pairs.old.narrowed.items pair.now ∷ []) seen.old }
    ensures known { IfOk result (λ found. AreKnown pairs.new × IfSome found (IsKnown pairs.new.narrowed.items)) }
    ensures turn { IfOk result (λ found. IsTurn N node store.now pattern.old pattern.new (equation_of whole.now pairs.old.narrowed.items pair.now) (equations_in whole.now pairs.old) (equations_in whole.now pairs.new) (option_map (equation_of whole.now pairs.new.narrowed.items) found)) }
    ensures carried { IfOk result (λ found. found ≡ None → AreCarried N store.now pattern.new whole.now pairs.new.narrowed.items (equations_in whole.now pairs.new) seen.new) }
{
    match life_of(pattern, pairs.context(whole, pair)) {
        Life::Split(dim) => {
            push_halves(pairs, whole, pair, dim)?;
            Ok(None)
        }
        Life::Dead => Ok(None),
        Life::Alive => turn_alive(store, pattern, whole, pairs, pair, seen, node),
    }
}

// `turn` where all decisions of the pair are alive.
fn turn_alive<const N: usize>(
    store: &Store<N>,
    pattern: &mut Pattern<N>,
    whole: &Context<N>,
    pairs: &mut Pairs<N>,
    pair: &Pair,
    seen: &mut Seen,
    node: NodeId,
) -> Result<Option<Pair>, AllocError>
    requires known { AreKnown pairs.old }
    requires pair_known { IsKnown pairs.old.narrowed.items pair.now }
    requires posed { IsPosed N store.now (equation_of whole.now pairs.old.narrowed.items pair.now) }
    requires space { pattern.old.space ≡ store.now.space }
    requires alive { IsLifeOf N pattern.old (region_of whole.now pairs.old.narrowed.items pair.now.context) Alive }
    requires carried { AreCarried N store.now pattern.old whole.now pairs.old.narrowed.items (equations_in whole.now pairs.old ++ equation_of whole.now pairs.old.narrowed.items pair.now ∷ []) seen.old }
    ensures known { IfOk result (λ found. AreKnown pairs.new × IfSome found (IsKnown pairs.new.narrowed.items)) }
    ensures turn { IfOk result (λ found. IsTurn N node store.now pattern.old pattern.new (equation_of whole.now pairs.old.narrowed.items pair.now) (equations_in whole.now pairs.old) (equations_in whole.now pairs.new) (option_map (equation_of whole.now pairs.new.narrowed.items) found)) }
    ensures carried { IfOk result (λ found. found ≡ None → AreCarried N store.now pattern.new whole.now pairs.new.narrowed.items (equations_in whole.now pairs.new) seen.new) }
{
    store.acyclic();
    let within = pairs.context(whole, pair);
    let found = match compare(store, within, pair.left, pair.right) {
        Ok(found) => found,
        Err(error) => return Err(error),
    };
    match found {
        Comparison::Split(dim) => {
            push_halves(pairs, whole, pair, dim)?;
            Ok(None)
        }
        Comparison::Equal => Ok(None),
        Comparison::Differ => {
            pattern.mask(within, node)?;
            Ok(None)
        }
        Comparison::Open(left, right) => Ok(Some(Pair {
            left,
            right,
            ..*pair
        })),
        Comparison::Parts(lefts, rights) => {
            let added = seen.insert(pair)?;
            if !added {
                return Ok(None);
            }
            push_parts(pairs, pair.context, lefts, rights)?;
            Ok(None)
        }
    }
}
