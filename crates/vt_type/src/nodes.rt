//! How large a variational type is.
ghost use Rattle.std.specs.Prelude.{◌≡◌, ◌+◌, ◌<◌, ◌≤◌, MatchOption};
ghost use Rattle.vt_type.specs.Variational.{nodes, vkids_nodes};

use crate::{VKids, VType};

impl VType {
    /// The number of nodes, or nothing where there are more than `limit`. It looks at no more than
    /// `limit + 1` nodes.
    pub fn nodes_within(&self, limit: u64) -> Option<u64>
        ensures { MatchOption result (limit < nodes self.now) (λ count. (count ≡ nodes self.now) × (count ≤ limit)) }
    {
        let spare = spare_after(self, limit)?;
        Some(limit - spare)
    }
}

// What is left of the room once each node has taken one.
#[cycle(nodes)]
fn spare_after(vtype: &VType, room: u64) -> Option<u64>
    ensures { MatchOption result (room < nodes vtype.now) (λ spare. spare + nodes vtype.now ≡ room) }
{
    let room = room.checked_sub(1)?;
    match vtype {
        VType::Var(_) => Some(room),
        VType::Err => Some(room),
        VType::Con(_, kids) => spare_after_kids(kids, room),
        VType::Choice(_, left, right) => {
            let room = spare_after(left.get(), room)?;
            spare_after(right.get(), room)
        }
    }
}

#[cycle(nodes)]
fn spare_after_kids(kids: &VKids, room: u64) -> Option<u64>
    ensures { MatchOption result (room < vkids_nodes kids.now) (λ spare. spare + vkids_nodes kids.now ≡ room) }
{
    match kids {
        VKids::Nil => Some(room),
        VKids::More(first, others) => {
            let room = spare_after(first.get(), room)?;
            spare_after_kids(others.get(), room)
        }
    }
}
