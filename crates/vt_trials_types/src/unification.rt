ghost use Rattle.std.specs.Prelude.{◌≡◌, ◌*◌, ◌<◌, ◌≤◌, IfOk, OnOk, replicate, slice_set};
ghost use Rattle.vt_dec.specs.declared.side.Side.TheVariants.{Left, Right};
ghost use Rattle.vt_dec.specs.declared.side.Space.TheVariants.{All};
ghost use Rattle.vt_store.specs.Stores.{cell_count};

use std::alloc::AllocError;
use vt_dec::{Context, Decision, Dim, Fate, NodeId, Side, Space};
use vt_store::{CellId, Look, Pattern, Store};
use vt_type::Head;
use vt_unify::unify;

fn is_head(look: Look<'_>, wanted: Head) -> bool {
    match look {
        Look::Con(head, kids) => head == wanted && kids.is_empty(),
        Look::Open(_) => false,
    }
}

// The decision that takes the right of this dimension alone.
fn right_of(dim: Dim) -> Decision<1>
    requires { dim < 64 }
    ensures { result ≡ slice_set (replicate (64 * 1) Left) dim Right }
{
    let mut decision = Decision::all_left();
    decision.set(dim, Side::Right);
    decision
}

// The fates at which the two cells are equal in the context, where all is alive before.
fn unified(
    store: &mut Store<1>,
    within: &Context<1>,
    x: CellId,
    y: CellId,
    node: NodeId,
) -> Result<Pattern<1>, AllocError>
    requires x { x < cell_count store.old }
    requires y { y < cell_count store.old }
    requires store { store.old.space ≡ All }
    requires within { within.now.space ≡ All }
    ensures pattern { IfOk result (λ pattern. pattern.space ≡ All) }
    ensures store { OnOk result (store.new.space ≡ All) }
    ensures cells { OnOk result (cell_count store.new ≡ cell_count store.old) }
{
    let mut pattern = Pattern::alive(store.allocator(), Space::All);
    unify(store, &mut pattern, within, x, y, node)?;
    Ok(pattern)
}

// The fates at two decisions, all left and the right of this dimension, once the cells are equal.
fn fates(
    store: &mut Store<1>,
    x: CellId,
    y: CellId,
    node: NodeId,
    dim: Dim,
) -> Result<(Fate, Fate), AllocError>
    requires x { x < cell_count store.old }
    requires y { y < cell_count store.old }
    requires store { store.old.space ≡ All }
    requires dim { dim < 64 }
    ensures store { OnOk result (store.new.space ≡ All) }
    ensures cells { OnOk result (cell_count store.new ≡ cell_count store.old) }
{
    let pattern = unified(store, &Context::whole(Space::All), x, y, node)?;
    let fates = (
        pattern.fate(&Decision::all_left()),
        pattern.fate(&right_of(dim)),
    );
    drop(pattern);
    Ok(fates)
}

fn open_becomes_int(store: &mut Store<1>) -> Result<bool, AllocError>
    requires { store.old.space ≡ All }
{
    let open = store.fresh()?;
    let int = store.con(Head::Int, &[])?;
    let fates = fates(store, open, int, NodeId(1), Dim(0))?;
    Ok(
        fates == (Fate::Alive, Fate::Alive)
            && is_head(store.look(open, &Decision::all_left()), Head::Int),
    )
}

#[test]
fn an_open_cell_becomes_the_other_one(rt: HostRuntime) {
    let mut store = Store::<1>::new(rt.alloc(), Space::All);
    assert!(rt; matches!(open_becomes_int(&mut store), Ok(true)));
}

// The fates, on the left and the right of the first dimension, of two heads that differ on its left.
fn fates_of_heads(store: &mut Store<1>, lefts: &Context<1>) -> Result<(Fate, Fate), AllocError>
    requires store { store.old.space ≡ All }
    requires lefts { lefts.now.space ≡ All }
{
    let int = store.con(Head::Int, &[])?;
    let bool = store.con(Head::Bool, &[])?;
    let pattern = unified(store, lefts, int, bool, NodeId(7))?;
    let fates = (
        pattern.fate(&Decision::all_left()),
        pattern.fate(&right_of(Dim(0))),
    );
    drop(pattern);
    Ok(fates)
}

#[test]
fn heads_that_differ_kill_their_context_alone(rt: HostRuntime) {
    let mut store = Store::<1>::new(rt.alloc(), Space::All);
    let lefts = Context::<1>::whole(Space::All).with(Dim(0), Side::Left);
    assert!(rt; lefts.is_some());
    if let Some(lefts) = lefts {
        let fates = fates_of_heads(&mut store, &lefts);
        assert!(rt; matches!(fates, Ok((Fate::Dead(NodeId(7)), Fate::Alive))));
    }
}

fn fates_of_endless(store: &mut Store<1>) -> Result<(Fate, Fate), AllocError>
    requires { store.old.space ≡ All }
{
    let open = store.fresh()?;
    let list = store.con(Head::List, &[open])?;
    fates(store, open, list, NodeId(3), Dim(0))
}

#[test]
fn a_cell_is_never_a_list_of_itself(rt: HostRuntime) {
    let mut store = Store::<1>::new(rt.alloc(), Space::All);
    let fates = fates_of_endless(&mut store);
    assert!(rt; matches!(fates, Ok((Fate::Dead(NodeId(3)), Fate::Dead(NodeId(3))))));
}

// Choices, each by a dimension of its own, between two cells that both lead to the one before.
fn chain(store: &mut Store<1>, first: CellId) -> Result<CellId, AllocError>
    requires { first < cell_count store.old }
    ensures last { IfOk result (λ last. last < cell_count store.new) }
    ensures grows { OnOk result (cell_count store.old ≤ cell_count store.new) }
    ensures space { OnOk result (store.new.space ≡ store.old.space) }
{
    let mut last = first;
    for number in 0..40 {
        let left = store.choice(Dim(60), last, last)?;
        let right = store.choice(Dim(61), last, last)?;
        last = store.choice(Dim(number), left, right)?;
    }
    Ok(last)
}

fn chain_becomes_int(store: &mut Store<1>) -> Result<bool, AllocError>
    requires { store.old.space ≡ All }
{
    let first = store.fresh()?;
    let last = chain(store, first)?;
    let int = store.con(Head::Int, &[])?;
    let fates = fates(store, last, int, NodeId(2), Dim(20))?;
    Ok(
        fates == (Fate::Alive, Fate::Alive)
            && is_head(store.look(first, &right_of(Dim(20))), Head::Int)
            && is_head(store.look(last, &right_of(Dim(20))), Head::Int),
    )
}

#[test]
fn a_chain_of_choices_is_one_way(rt: HostRuntime) {
    let mut store = Store::<1>::new(rt.alloc(), Space::All);
    assert!(rt; matches!(chain_becomes_int(&mut store), Ok(true)));
}

fn chain_becomes_bool_on_left(store: &mut Store<1>) -> Result<bool, AllocError>
    requires { store.old.space ≡ All }
{
    let open = store.fresh()?;
    let int = store.con(Head::Int, &[])?;
    let bool = store.con(Head::Bool, &[])?;
    let either = store.choice(Dim(50), open, int)?;
    let last = chain(store, either)?;
    let fates = fates(store, last, bool, NodeId(4), Dim(50))?;
    Ok(
        fates == (Fate::Alive, Fate::Dead(NodeId(4)))
            && is_head(store.look(open, &Decision::all_left()), Head::Bool),
    )
}

#[test]
fn links_that_part_split_the_context(rt: HostRuntime) {
    let mut store = Store::<1>::new(rt.alloc(), Space::All);
    assert!(rt; matches!(chain_becomes_bool_on_left(&mut store), Ok(true)));
}

// Pairs, each of the one before twice.
fn tower(store: &mut Store<1>, first: CellId) -> Result<CellId, AllocError>
    requires { first < cell_count store.old }
    ensures last { IfOk result (λ last. last < cell_count store.new) }
    ensures grows { OnOk result (cell_count store.old ≤ cell_count store.new) }
    ensures space { OnOk result (store.new.space ≡ store.old.space) }
{
    let mut last = first;
    for _ in 0..40 {
        last = store.con(Head::Pair, &[last, last])?;
    }
    Ok(last)
}

fn fates_of_towers(store: &mut Store<1>) -> Result<(Fate, Fate), AllocError>
    requires { store.old.space ≡ All }
{
    let one = store.fresh()?;
    let left = tower(store, one)?;
    let other = store.fresh()?;
    let right = tower(store, other)?;
    fates(store, left, right, NodeId(5), Dim(0))
}

#[test]
fn towers_of_shared_pairs_are_compared_once(rt: HostRuntime) {
    let mut store = Store::<1>::new(rt.alloc(), Space::All);
    let fates = fates_of_towers(&mut store);
    assert!(rt; matches!(fates, Ok((Fate::Alive, Fate::Alive))));
}

// The fates of a tower and a cell that it does not contain, and of the tower and the cell that it stands on.
fn fates_of_contained(store: &mut Store<1>) -> Result<((Fate, Fate), (Fate, Fate)), AllocError>
    requires { store.old.space ≡ All }
{
    let first = store.fresh()?;
    let other = store.fresh()?;
    let last = tower(store, first)?;
    let apart = fates(store, other, last, NodeId(8), Dim(0))?;
    let within = fates(store, first, last, NodeId(9), Dim(0))?;
    Ok((apart, within))
}

#[test]
fn shared_cells_are_searched_once(rt: HostRuntime) {
    let mut store = Store::<1>::new(rt.alloc(), Space::All);
    match fates_of_contained(&mut store) {
        Ok((apart, within)) => {
            assert!(rt; apart == (Fate::Alive, Fate::Alive));
            assert!(rt; within == (Fate::Dead(NodeId(9)), Fate::Dead(NodeId(9))));
        }
        Err(_) => assert!(rt; false, "memory ran out"),
    }
}
