ghost use Rattle.std.specs.Prelude.{◌≡◌, ◌<◌, ◌≤◌, IfOk, OnOk};
ghost use Rattle.vt_store.specs.Stores.{cell_count};

use std::alloc::AllocError;
use vt_dec::{Decision, Dim, Space};
use vt_scheme::{Copied, freeze, instance};
use vt_store::{CellId, Look, Store};
use vt_type::Head;

/// The copy is a function from its one mono to itself, and this mono is open and not the old one.
fn is_apart(store: &Store<1>, copied: &Copied, old: CellId) -> bool {
    let left = Decision::all_left();
    let mono = match copied.monos.as_slice().first() {
        Some(mono) => *mono,
        None => return false,
    };
    let count = store.count();
    if count <= mono.0 || count <= copied.root.0 || !left.in_space(store.space()) {
        return false;
    }
    let is_open = match store.look(mono, &left) {
        Look::Open(last) => last == mono,
        Look::Con(_, _) => false,
    };
    let is_function = match store.look(copied.root, &left) {
        Look::Con(Head::Fun, kids) => kids == [mono, mono].as_slice(),
        _ => false,
    };
    mono != old && is_open && is_function
}

// The cell of a copy of what is frozen of a function from the mono to itself.
fn copied(store: &mut Store<1>, mono: CellId) -> Result<Copied, AllocError>
    requires { mono < cell_count store.old }
{
    let root = store.con(Head::Fun, &[mono, mono])?;
    let scheme = freeze(store.allocator(), store, &[mono], root)?;
    let copied = instance(store, &scheme);
    drop(scheme);
    copied
}

fn copy_is_apart(store: &mut Store<1>) -> Result<bool, AllocError> {
    let mono = store.fresh()?;
    let copied = copied(store, mono)?;
    let apart = is_apart(store, &copied, mono);
    drop(copied);
    Ok(apart)
}

#[test]
fn a_copy_has_cells_of_its_own(rt: HostRuntime) {
    let mut store = Store::<1>::new(rt.alloc(), Space::All);
    assert!(rt; matches!(copy_is_apart(&mut store), Ok(true)));
}

// How many cells are frozen with the root.
fn size(store: &Store<1>, root: CellId) -> Result<usize, AllocError>
    requires { root < cell_count store.now }
{
    let scheme = freeze(store.allocator(), store, &[], root)?;
    let size = scheme.cells.count();
    drop(scheme);
    Ok(size)
}

fn size_of_list(store: &mut Store<1>) -> Result<usize, AllocError> {
    let left = store.fresh()?;
    let _apart = store.fresh()?;
    let right = store.con(Head::Int, &[])?;
    let either = store.choice(Dim(0), left, right)?;
    let root = store.con(Head::List, &[either])?;
    size(store, root)
}

#[test]
fn a_scheme_has_what_its_root_leads_to(rt: HostRuntime) {
    let mut store = Store::<1>::new(rt.alloc(), Space::All);
    assert!(rt; matches!(size_of_list(&mut store), Ok(4)));
}

// The root of a copy of what is frozen with the root.
fn copy_of(store: &mut Store<1>, root: CellId) -> Result<CellId, AllocError>
    requires { root < cell_count store.old }
    ensures copy { IfOk result (λ copy. copy < cell_count store.new) }
    ensures grows { OnOk result (cell_count store.old ≤ cell_count store.new) }
{
    let scheme = freeze(store.allocator(), store, &[], root)?;
    let copied = instance(store, &scheme);
    drop(scheme);
    Ok(copied?.root)
}

// The pair of two copies of what is frozen with the root.
fn pair_of_copies(store: &mut Store<1>, root: CellId) -> Result<CellId, AllocError>
    requires { root < cell_count store.old }
    ensures { IfOk result (λ pair. pair < cell_count store.new) }
{
    let one = copy_of(store, root)?;
    let other = copy_of(store, root)?;
    store.con(Head::Pair, &[one, other])
}

fn size_of_copies(store: &mut Store<1>) -> Result<usize, AllocError> {
    let number = store.con(Head::Int, &[])?;
    let truth = store.con(Head::Bool, &[])?;
    let mut root = store.con(Head::Pair, &[number, truth])?;
    for _ in 0..20 {
        root = pair_of_copies(store, root)?;
    }
    size(store, root)
}

#[test]
fn equal_cells_of_a_scheme_are_one(rt: HostRuntime) {
    let mut store = Store::<1>::new(rt.alloc(), Space::All);
    assert!(rt; matches!(size_of_copies(&mut store), Ok(23)));
}

fn size_of_same_sides(store: &mut Store<1>) -> Result<usize, AllocError> {
    let one = store.fresh()?;
    let other = store.fresh()?;
    let left = store.con(Head::Fun, &[one, one])?;
    let right = store.con(Head::Fun, &[other, other])?;
    let root = store.choice(Dim(0), left, right)?;
    size(store, root)
}

#[test]
fn sides_that_say_the_same_are_one(rt: HostRuntime) {
    let mut store = Store::<1>::new(rt.alloc(), Space::All);
    assert!(rt; matches!(size_of_same_sides(&mut store), Ok(2)));
}

fn size_of_other_sides(store: &mut Store<1>) -> Result<usize, AllocError> {
    let one = store.fresh()?;
    let other = store.fresh()?;
    let left = store.con(Head::Fun, &[one, one])?;
    let right = store.con(Head::Fun, &[other, one])?;
    let root = store.choice(Dim(0), left, right)?;
    size(store, root)
}

#[test]
fn sides_that_differ_stay_apart(rt: HostRuntime) {
    let mut store = Store::<1>::new(rt.alloc(), Space::All);
    assert!(rt; matches!(size_of_other_sides(&mut store), Ok(5)));
}
