ghost use Rattle.std.specs.Prelude.{◌≡◌, ◌<◌, ◌≤◌, IfOk};
ghost use Rattle.vt_dec.specs.declared.side.Space.TheVariants.{All};
ghost use Rattle.vt_store.specs.Stores.{cell_count};

use crate::spelling::{prefix, read, same};
use std::alloc::AllocError;
use vt_dec::{Context, Decision, Dim, NodeId, Side, Space};
use vt_norm::{OutFault, read_out, read_pair};
use vt_store::{CellId, Pattern, Store};
use vt_type::Head;

// Whether the cell reads as the type that the text spells, where all is alive.
fn reads_as(store: &Store<1>, cell: CellId, text: &str, limit: u64) -> Result<bool, OutFault>
    requires cell { cell < cell_count store.now }
    requires space { store.now.space ≡ All }
{
    let pattern = Pattern::alive(store.allocator(), Space::All);
    shows(store, cell, &pattern, NodeId(0), text, limit)
}

// Whether the type of the text is read out of the cell up to the mark.
fn shows(
    store: &Store<1>,
    cell: CellId,
    pattern: &Pattern<1>,
    mark: NodeId,
    text: &str,
    limit: u64,
) -> Result<bool, OutFault>
    requires cell { cell < cell_count store.now }
    requires space { store.now.space ≡ All }
    requires pattern { pattern.now.space ≡ All }
{
    let found = read_out(store.allocator(), store, cell, pattern, mark, limit)?;
    match read(store.allocator(), text) {
        Ok(wanted) => {
            let is_read = same(&found, &wanted);
            drop(found);
            drop(wanted);
            Ok(is_read)
        }
        Err(_) => {
            drop(found);
            Err(OutFault::Memory)
        }
    }
}

// A function from a variable or an integer, by the first dimension, to the variable.
fn variable_or_int(store: &mut Store<1>) -> Result<CellId, AllocError>
    ensures cell { IfOk result (λ cell. cell < cell_count store.new) }
    ensures space { store.new.space ≡ store.old.space }
{
    let open = store.fresh()?;
    let int = store.con(Head::Int, &[])?;
    let either = store.choice(Dim(0), open, int)?;
    store.con(Head::Fun, &[either, open])
}

fn function_reads(store: &mut Store<1>, limit: u64) -> Result<bool, OutFault>
    requires { store.old.space ≡ All }
{
    let cell = variable_or_int(store)?;
    reads_as(store, cell, "@A{'a, Int} -> @A{'a, 'b}", limit)
}

// Its normal form has seven nodes.
#[test]
fn a_choice_is_read_out_with_canonical_names(rt: HostRuntime) {
    let mut store = Store::<1>::new(rt.alloc(), Space::All);
    assert!(rt; matches!(function_reads(&mut store, 7), Ok(true)));
    let mut store = Store::<1>::new(rt.alloc(), Space::All);
    assert!(rt; matches!(function_reads(&mut store, 6), Err(OutFault::TooBig)));
}

// An integer, where the right of the first dimension is dead at the fourth node, reads so up to the mark.
fn int_reads(store: &mut Store<1>, mark: NodeId, text: &str) -> Result<bool, OutFault>
    requires { store.old.space ≡ All }
{
    let cell = store.con(Head::Int, &[])?;
    let mut pattern = Pattern::alive(store.allocator(), Space::All);
    if let Some(right) = Context::<1>::whole(Space::All).with(Dim(0), Side::Right) {
        pattern.mask(&right, NodeId(4))?;
    }
    shows(store, cell, &pattern, mark, text, 10)
}

#[test]
fn what_is_dead_is_an_error_up_to_the_mark(rt: HostRuntime) {
    let mut store = Store::<1>::new(rt.alloc(), Space::All);
    assert!(rt; matches!(int_reads(&mut store, NodeId(4), "@A{Int, !}"), Ok(true)));
    let mut store = Store::<1>::new(rt.alloc(), Space::All);
    assert!(rt; matches!(int_reads(&mut store, NodeId(3), "Int"), Ok(true)));
}

// Choices that come together again, one after another, so that there are 2^count ways to one cell.
fn chain(store: &mut Store<1>, count: u32) -> Result<CellId, AllocError>
    requires { count ≤ 64 }
    ensures cell { IfOk result (λ cell. cell < cell_count store.new) }
    ensures space { store.new.space ≡ store.old.space }
{
    if count == 0 {
        return store.fresh();
    }
    let cell = chain(store, count - 1)?;
    let copy = store.choice(Dim(0), cell, cell)?;
    store.choice(Dim(count - 1), cell, copy)
}

// Pairs of one cell, each pair a child of the next one twice.
fn doubled(store: &mut Store<1>, count: u32) -> Result<CellId, AllocError>
    ensures cell { IfOk result (λ cell. cell < cell_count store.new) }
    ensures space { store.new.space ≡ store.old.space }
{
    if count == 0 {
        return store.con(Head::Int, &[]);
    }
    let cell = doubled(store, count - 1)?;
    store.con(Head::Pair, &[cell, cell])
}

fn chain_is_a_variable(store: &mut Store<1>) -> Result<bool, OutFault>
    requires { store.old.space ≡ All }
{
    let cell = chain(store, 64)?;
    reads_as(store, cell, "'a", 10)
}

fn doubled_is_read(store: &mut Store<1>) -> Result<bool, OutFault>
    requires { store.old.space ≡ All }
{
    let cell = doubled(store, 40)?;
    reads_as(store, cell, "Int", 4096)
}

#[test]
fn what_is_shared_is_cheap(rt: HostRuntime) {
    let mut store = Store::<1>::new(rt.alloc(), Space::All);
    assert!(rt; matches!(chain_is_a_variable(&mut store), Ok(true)));
    let mut store = Store::<1>::new(rt.alloc(), Space::All);
    assert!(rt; matches!(doubled_is_read(&mut store), Err(OutFault::TooBig)));
}

// A variable and a list of it have one name for it, the place in the pair of the two.
fn list_in_pair(store: &mut Store<1>) -> Result<String, OutFault>
    requires { store.old.space ≡ All }
{
    let open = store.fresh()?;
    let list = store.con(Head::List, &[open])?;
    let left = Decision::all_left();
    let pair = read_pair(store.allocator(), store, open, list, &left, 2)?;
    let text = prefix(store.allocator(), &pair.result);
    drop(pair);
    Ok(text?)
}

#[test]
fn a_pair_is_read_with_common_names(rt: HostRuntime) {
    let mut store = Store::<1>::new(rt.alloc(), Space::All);
    match list_in_pair(&mut store) {
        Ok(text) => assert_eq!(rt; text.as_str(), "List '0"),
        Err(_) => assert!(rt; false, "it is read"),
    }
}
