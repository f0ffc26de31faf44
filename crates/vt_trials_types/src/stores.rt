ghost use Rattle.std.specs.Prelude.{◌≡◌, ◌<◌, IfOk};
ghost use Rattle.vt_dec.specs.declared.side.Space.TheVariants.{All};
ghost use Rattle.vt_store.specs.Stores.{cell_count};

use std::alloc::AllocError;
use std::test::Fail;
use vt_dec::{Context, Decision, Dim, Fate, NodeId, Side, Space};
use vt_store::{CellId, CellList, End, Look, Pattern, Store, laws};
use vt_type::Head;

fn is_int(look: Look<'_>) -> bool {
    match look {
        Look::Con(Head::Int, kids) => kids.is_empty(),
        _ => false,
    }
}

fn looks_through(store: &mut Store<1>) -> Result<bool, AllocError>
    requires { store.old.space ≡ All }
{
    let open = store.fresh()?;
    let int = store.con(Head::Int, &[])?;
    let either = store.choice(Dim(0), open, int)?;
    let whole = Context::whole(Space::All);
    let is_split = store.splits(either, &whole) == Some(Dim(0));
    store.bind(open, &whole, int)?;
    Ok(is_split && is_int(store.look(either, &Decision::all_left())))
}

#[test]
fn a_bound_cell_is_looked_through(rt: HostRuntime) {
    let mut store = Store::<1>::new(rt.alloc(), Space::All);
    assert!(rt; matches!(looks_through(&mut store), Ok(true)));
    assert!(rt; store.space() == Space::All);
    let _alloc = store.allocator();
    laws::most_general_solution();
    laws::own_solution();
    laws::solutions_of_parts();
}

fn kills_the_context_alone(pattern: &mut Pattern<1>, right: &Context<1>) -> Result<bool, AllocError>
    requires pattern { pattern.old.space ≡ All }
    requires right { right.now.space ≡ All }
{
    pattern.mask(right, NodeId(4))?;
    let left = Decision::all_left();
    let mut other = left;
    other.set(Dim(0), Side::Right);
    let whole = Context::whole(Space::All);
    Ok(
        pattern.fate(&left) == Fate::Alive
            && pattern.fate(&other) == Fate::Dead(NodeId(4))
            && pattern.splits(&whole) == Some(Dim(0))
            && pattern.splits(right).is_none(),
    )
}

#[test]
fn a_mask_kills_the_context_alone(rt: HostRuntime) {
    let mut pattern = Pattern::alive(rt.alloc(), Space::All);
    let right = Context::<1>::whole(Space::All).with(Dim(0), Side::Right);
    assert!(rt; right.is_some());
    if let Some(right) = right {
        assert!(rt; matches!(kills_the_context_alone(&mut pattern, &right), Ok(true)));
    }
}

#[test]
fn reserved_room_takes_new_cells(rt: HostRuntime) {
    let mut store = Store::<1>::new(rt.alloc(), Space::All);
    assert!(rt; store.reserve(2).is_ok());
    assert!(rt; store.fresh().is_ok());
    assert!(rt; store.fresh().is_ok());
}

fn appends(store: &mut Store<1>, other: &mut Store<1>) -> Result<bool, AllocError>
    requires empty { cell_count store.old ≡ 0 }
    requires space { store.old.space ≡ All }
    requires other { other.old.space ≡ All }
{
    let open = store.fresh()?;
    let _int = other.con(Head::Int, &[])?;
    let by = store.append(other)?;
    let left = Decision::all_left();
    Ok(
        by == 1
            && matches!(store.end(CellId(1), &left), End::Con(Head::Int, _))
            && matches!(store.end(open, &left), End::Open),
    )
}

#[test]
fn appended_cells_come_after_the_old(rt: HostRuntime) {
    let mut store = Store::<1>::new(rt.alloc(), Space::All);
    let mut other = Store::<1>::new(rt.alloc(), Space::All);
    assert!(rt; matches!(appends(&mut store, &mut other), Ok(true)));
}

// How many cells the part of a list of an open cell has, where one more stands apart, and how many it names.
fn part_sizes(store: &mut Store<1>) -> Result<(usize, usize), AllocError> {
    let _apart = store.fresh()?;
    let open = store.fresh()?;
    let root = store.con(Head::List, &[open])?;
    let part = store.part(store.allocator(), &[], root)?;
    let sizes = (part.store.count(), part.cells.as_slice().len());
    drop(part);
    Ok(sizes)
}

#[test]
fn a_part_has_what_its_cells_lead_to(rt: HostRuntime) {
    let mut store = Store::<1>::new(rt.alloc(), Space::All);
    assert!(rt; matches!(part_sizes(&mut store), Ok((2, 0))));
}

#[test]
fn a_list_of_cells_gives_its_cells(rt: HostRuntime) -> Result<(), Fail> {
    let cells = CellList::new(Vec::from_slice(rt.alloc(), &[CellId(3), CellId(1)])?);
    assert!(rt; cells.as_slice() == [CellId(3), CellId(1)].as_slice());
    Ok(())
}

// A list of an open cell, or one of another.
fn either_list(store: &mut Store<1>) -> Result<CellId, AllocError>
    ensures { IfOk result (λ cell. cell < cell_count store.new) }
{
    let one = store.fresh()?;
    let other = store.fresh()?;
    let left = store.con(Head::List, &[one])?;
    let right = store.con(Head::List, &[other])?;
    store.choice(Dim(0), left, right)
}

fn straightened_size(store: &Store<1>) -> Result<usize, AllocError> {
    let straight = store.straightened(store.allocator())?;
    let size = straight.store.count();
    drop(straight);
    Ok(size)
}

fn shared_size(store: &Store<1>) -> Result<usize, AllocError> {
    let shared = store.shared(store.allocator())?;
    let size = shared.store.count();
    drop(shared);
    Ok(size)
}

// How many cells the narrowed part of the cell has, and how many once it is straight, and once it is shared.
fn narrowed_sizes(store: &Store<1>, root: CellId) -> Result<(usize, usize, usize), AllocError>
    requires { root < cell_count store.now }
{
    let part = store.part(store.allocator(), &[], root)?;
    let narrowed = part.narrowed(store.allocator())?;
    let size = narrowed.store.count();
    let straight = straightened_size(&narrowed.store);
    let shared = shared_size(&narrowed.store);
    drop(narrowed);
    Ok((size, straight?, shared?))
}

fn all_sizes(store: &mut Store<1>) -> Result<(usize, usize, usize), AllocError> {
    let root = either_list(store)?;
    narrowed_sizes(store, root)
}

#[test]
fn a_part_is_narrowed_and_straightened(rt: HostRuntime) {
    let mut store = Store::<1>::new(rt.alloc(), Space::All);
    assert!(rt; matches!(all_sizes(&mut store), Ok((5, 5, 5))));
}
