ghost use Rattle.std.specs.Prelude.{◌*◌, ◌<◌};

use std::alloc::{AllocError, Global};
use vt_dec::{Context, Decision, Dim, Side, Space};
use vt_diagram::{DiagramId, Entry, Table};

// The decision that takes the right of this dimension alone.
fn right_of<const N: usize>(dim: Dim) -> Decision<N>
    requires { dim < 64 * N }
{
    let mut decision = Decision::all_left();
    decision.set(dim, Side::Right);
    decision
}

fn stands_once(table: &mut Table<1>) -> Result<bool, AllocError> {
    let is_new = table.size() == 1;
    let zero = table.leaf(0)?;
    let takes_none = zero == table.zero() && table.size() == 1;
    let five = table.leaf(5)?;
    let choice = table.choice(Dim(3), zero, five)?;
    let again = table.choice(Dim(3), zero, five)?;
    let joined = table.choice(Dim(3), five, five)?;
    Ok(
        is_new
            && takes_none
            && five == DiagramId(1)
            && table.is_same(choice, again)
            && choice == DiagramId(2)
            && joined == five
            && table.size() == 3
            && table.top(choice) == Entry::Choice(Dim(3), zero, five)
            && table.value(choice, &Decision::all_left()) == 0
            && table.value(choice, &right_of(Dim(3))) == 5,
    )
}

#[test]
fn a_diagram_stands_once(rt: HostRuntime) {
    let mut table = Table::<1>::new(rt.alloc());
    assert!(rt; matches!(stands_once(&mut table), Ok(true)));
}

fn costs_one_choice(table: &mut Table<32>) -> Result<bool, AllocError> {
    let space = Space::AtMost(1);
    let Some(right) = Context::whole(space).with(Dim(2047), Side::Right) else {
        return Ok(false);
    };
    let region = table.of(&right)?;
    let size = table.size();
    let on = table.on(Dim(2047), Side::Right)?;
    Ok(
        size == 3
            && region == on
            && table.value(region, &right_of(Dim(2047))) == 1
            && table.value(region, &Decision::all_left()) == 0,
    )
}

#[test]
fn one_decided_dimension_costs_one_choice(rt: HostRuntime) {
    let mut table = Table::<32>::new(rt.alloc());
    assert!(rt; matches!(costs_one_choice(&mut table), Ok(true)));
}

// In All the two dimensions can both be Right, in AtMost(1) they cannot.
fn are_apart_in_budget(table: &mut Table<1>) -> Result<bool, AllocError> {
    let first = table.on(Dim(0), Side::Right)?;
    let second = table.on(Dim(1), Side::Right)?;
    let all = table.both(Space::All, first, second)?;
    let few = table.both(Space::AtMost(1), first, second)?;
    let is_member = match table.member(Space::All, all) {
        Some(decision) => {
            decision.side(Dim(0)) == Side::Right && decision.side(Dim(1)) == Side::Right
        }
        None => false,
    };
    Ok(
        is_member
            && table.member(Space::AtMost(1), all).is_none()
            && table.is_empty(Space::AtMost(1), all)
            && !table.is_empty(Space::All, all)
            && few == table.zero(),
    )
}

#[test]
fn a_budget_keeps_regions_apart(rt: HostRuntime) {
    let mut table = Table::<1>::new(rt.alloc());
    assert!(rt; matches!(are_apart_in_budget(&mut table), Ok(true)));
}

// 7 is written on the right of dimension 1, and then 9 on the right of dimension 0.
fn is_written(table: &mut Table<1>) -> Result<bool, AllocError> {
    let space = Space::All;
    let first = table.on(Dim(0), Side::Right)?;
    let second = table.on(Dim(1), Side::Right)?;
    let seven = table.write(space, second, 7, DiagramId(0))?;
    let nine = table.write(space, first, 9, seven)?;
    let either = table.either(space, first, second)?;
    let alone = table.without(space, either, first)?;
    let kept = table.same(space, seven, nine)?;
    let out = table.without(space, kept, second)?;
    let mut both = right_of(Dim(0));
    both.set(Dim(1), Side::Right);
    Ok(
        table.value(nine, &Decision::all_left()) == 0
            && table.value(nine, &right_of(Dim(0))) == 9
            && table.value(nine, &right_of(Dim(1))) == 7
            && table.value(nine, &both) == 9
            && table.value(alone, &right_of(Dim(1))) == 1
            && table.value(alone, &both) == 0
            && table.value(kept, &right_of(Dim(1))) == 1
            && table.value(kept, &right_of(Dim(0))) == 0
            && table.value(out, &Decision::all_left()) == 1,
    )
}

#[test]
fn a_value_is_written_in_a_region_alone(rt: HostRuntime) {
    let mut table = Table::<1>::new(rt.alloc());
    assert!(rt; matches!(is_written(&mut table), Ok(true)));
}

// The values 1 and 0 of one table are 4 and 3 in another one; a value that has no name stays.
fn is_renamed(
    table: &mut Table<1>,
    other: &mut Table<1>,
    alloc: Global,
) -> Result<bool, AllocError> {
    let right = table.on(Dim(2), Side::Right)?;
    let named = other.renamed(alloc, table, right, &[3, 4])?;
    let kept = other.renamed(alloc, table, right, &[3])?;
    Ok(
        other.value(named, &Decision::all_left()) == 3
            && other.value(named, &right_of(Dim(2))) == 4
            && other.value(kept, &right_of(Dim(2))) == 1,
    )
}

#[test]
fn a_diagram_of_another_table_is_renamed(rt: HostRuntime) {
    let mut table = Table::<1>::new(rt.alloc());
    let mut other = Table::<1>::new(rt.alloc());
    assert!(rt; matches!(is_renamed(&mut table, &mut other, rt.alloc()), Ok(true)));
}

// Where dimension 0 is Right, the diagram that is 7 on the right of dimension 1 has two values.
fn is_parted(table: &mut Table<1>, alloc: Global) -> Result<bool, AllocError> {
    let first = table.on(Dim(0), Side::Right)?;
    let second = table.on(Dim(1), Side::Right)?;
    let seven = table.write(Space::All, second, 7, DiagramId(0))?;
    let parts = table.parts(alloc, &Context::whole(Space::All), first, seven)?;
    Ok(parts.len() == 2 && parts[0].value == 0 && parts[1].value == 7)
}

#[test]
fn a_region_has_a_part_for_each_value(rt: HostRuntime) {
    let mut table = Table::<1>::new(rt.alloc());
    assert!(rt; matches!(is_parted(&mut table, rt.alloc()), Ok(true)));
}
