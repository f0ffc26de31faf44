//! The order of changes.
ghost use Rattle.std.specs.Prelude.{◌≡◌, ◌+◌, ◌<◌, min, IsPermutation, MatchOption, OnOk};
ghost use Rattle.vt_type.specs.Plain.{plain_nodes, kids_nodes};
ghost use Rattle.vt_change.specs.Ranking.{standing, CanBeCounted, AreRanked};

use std::alloc::AllocError;
use vt_type::{ChangeLine, Plain, PlainKids};

/// Orders changes by class, then by the number of nodes of the wanted type, then by the number of the
/// leaf. On an error they are the same changes in some order.
pub fn rank(lines: &mut Vec<ChangeLine>) -> Result<(), AllocError>
    requires counted { CanBeCounted lines.old.items }
    ensures same { IsPermutation lines.old.items lines.new.items }
    ensures ranked { OnOk result (AreRanked lines.new.items) }
{
    lines.sort_by_key(standing_of)?;
    Ok(())
}

// By what changes are ordered, the first field first.
#[derive(Clone, Copy, Debug, PartialEq, Eq, PartialOrd, Ord)]
pub(crate) struct Standing {
    class: u8,
    nodes: u32,
    leaf: u32,
}

fn standing_of(line: &ChangeLine) -> Standing
    ensures { result ≡ standing line.now }
{
    Standing {
        class: line.class,
        nodes: counted(&line.wanted),
        leaf: line.leaf,
    }
}

// The number of nodes, or the greatest number where they are more.
fn counted(plain: &Plain) -> u32
    ensures { result ≡ min (plain_nodes plain.now) 4294967295 }
{
    match left_of(plain, u32::MAX) {
        Some(spare) => u32::MAX - spare,
        None => u32::MAX,
    }
}

// What is left of the room once each node has taken one.
#[cycle(nodes)]
fn left_of(plain: &Plain, room: u32) -> Option<u32>
    ensures { MatchOption result (room < plain_nodes plain.now) (λ spare. spare + plain_nodes plain.now ≡ room) }
{
    let room = room.checked_sub(1)?;
    match plain {
        Plain::Var(_) => Some(room),
        Plain::Con(_, kids) => left_of_kids(kids, room),
    }
}

#[cycle(nodes)]
fn left_of_kids(kids: &PlainKids, room: u32) -> Option<u32>
    ensures { MatchOption result (room < kids_nodes kids.now) (λ spare. spare + kids_nodes kids.now ≡ room) }
{
    match kids {
        PlainKids::Nil => Some(room),
        PlainKids::More(kid, rest) => {
            let room = left_of(kid.get(), room)?;
            left_of_kids(rest.get(), room)
        }
    }
}
