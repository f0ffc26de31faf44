ghost use Rattle.std.specs.Prelude.{◌≡◌, ◌^◌, ◌≤◌, ◌↔◌, List, ℕ, None, IfOk, IsErrOf, IsSome, OnErr, OnOk};
ghost use Rattle.std.specs.IoError.{error_kind};
ghost use Rattle.vt_io.specs.Counts.{Rose, Advances};
ghost use Rattle.vt_io.specs.Fetched.{IsFetched};
ghost use Rattle.vt_io.specs.Host.{not_told, one_count};
ghost use Rattle.vt_io.specs.Memory.{raised};

use crate::{Bytes, FetchFault, Fetched, Files};
use std::alloc::Global;
use std::io::{ErrorKind, Read};
use std::marker::Model;
use std::{fs, io, rt};

/// The files of the real system. It tells nothing of what they hold. One count of failures serves
/// every name, and each `Err` raises it, also where memory ran out.
#[derive(Drop)]
pub struct HostFiles<'a, R> {
    runtime: &'a R,
    faults: u64,
}

impl<'a, R> Model for HostFiles<'a, R> {
    ghost use Rattle.std.specs.Prelude.{ℕ};

    ghost Value = { ℕ };

    ghost view = { λ f. f.faults };
}

impl<'a, R: rt::Files> HostFiles<'a, R> {
    /// The files of this runtime, none of which has failed yet.
    pub fn new(runtime: &'a R) -> HostFiles<'a, R>
        ensures { result ≡ 0 }
    {
        HostFiles { runtime, faults: 0 }
    }
}

impl<'a, R: rt::Files> Files for HostFiles<'a, R> {
    ghost held = { not_told };

    ghost faults = { one_count };

    ghost fetches = { λ _. None };

    ghost calm = { λ _. ⊥ };

    fn fetch(&mut self, alloc: Global, name: &str, limit: usize) -> Result<Fetched, FetchFault>
        requires { limit ≤ 2 ^ 31 }
        ensures fetched { IfOk result (IsFetched (not_told self.old name.now) limit) }
        ensures failed { IsErrOf result FetchFault.Failed → Rose (one_count self.old name.now) (one_count self.new name.now) }

        ensures same { (other : List ℕ) → not_told self.new other ≡ not_told self.old other }
        ensures never_falls { (other : List ℕ) → one_count self.old other ≤ one_count self.new other }
        ensures counted { Advances None None }

        ensures stays_calm { ⊥ → ⊥ }
        ensures no_fault { ⊥ → (other : List ℕ) → IsSome (not_told self.old other) → one_count self.new other ≡ one_count self.old other }

        // Each `Err` is counted, and nothing else.
        ensures ok { OnOk result (self.new ≡ self.old) }
        ensures err { OnErr result (self.new ≡ raised self.old) }
    {
        let fetched = read_file(self.runtime, alloc, name, limit);
        if fetched.is_err() {
            self.faults = self.faults.saturating_add(1);
        }
        fetched
    }

    ghost room_to_count = { λ _ _ never. absurd never };
}

fn read_file<R: rt::Files>(
    runtime: &R,
    alloc: Global,
    name: &str,
    limit: usize,
) -> Result<Fetched, FetchFault>
    requires { limit ≤ 2 ^ 31 }
    ensures { IfOk result (IsFetched None limit) }
{
    let mut file = fs::open(runtime, name).map_err(fault_of)?;
    read_within(alloc, &mut file, limit)
}

const CHUNK: usize = 8192;

// Reads to the end, or until there is one byte more than the limit.
fn read_within<R: Read>(alloc: Global, reader: &mut R, limit: usize) -> Result<Fetched, FetchFault>
    requires { limit ≤ 2 ^ 31 }
    ensures { IfOk result (IsFetched (R.remaining reader.old) limit) }
{
    let mut bytes = Vec::new(alloc);
    let mut chunk = [0u8; CHUNK];
    while bytes.len() <= limit {
        let most = CHUNK.min(limit + 1 - bytes.len());
        let count = reader.read(&mut chunk[..most]).map_err(fault_of)?;
        if count == 0 {
            return Ok(Fetched::Whole(Bytes::new(bytes)));
        }
        bytes
            .extend_from_slice(&chunk[..count])
            .map_err(|_| FetchFault::Memory)?;
    }
    Ok(Fetched::TooLong)
}

fn fault_of(error: io::Error) -> FetchFault
    ensures { (result ≡ FetchFault.Memory) ↔ (error_kind error ≡ ErrorKind.OutOfMemory) }
{
    if error.kind() == ErrorKind::OutOfMemory {
        FetchFault::Memory
    } else {
        FetchFault::Failed
    }
}
