ghost use Rattle.std.specs.Prelude.{◌≡◌, ◌≤◌, ◌↔◌, [], None, Some, IfOk, IfSome, IsOk, IsTrue, OnErr, OnOk, length};
ghost use Rattle.vt_io.specs.Counts.{Rose, Advances};
ghost use Rattle.vt_io.specs.Memory.{raised, told};
ghost use Rattle.vt_io.specs.MemorySink.{after_put, allowance, is_set_to_fail, sure_of, takes_all};
ghost use Rattle.vt_io.specs.Written.{GrowsBy, GrowsByPrefix};

use crate::{Sink, SinkFailed};
use std::alloc::{AllocError, Global};
use std::marker::Model;

/// A sink in memory with a room that is set when it is made. A put past the room takes the bytes
/// that fit and fails. All memory is taken when it is made, so no put asks for any.
#[derive(Debug, Drop)]
pub struct MemSink {
    bytes: Vec<u8>,
    room: usize,
    faults: u64,
    puts: u64,
    failing: Option<(u64, usize)>,
}

impl Model for MemSink {
    ghost use Rattle.std.specs.Prelude.{◌+◌, ◌≤◌, vec_len};
    ghost use Rattle.std.specs.Vec.{vec_capacity};
    ghost use Rattle.vt_io.specs.MemorySink.{MemorySink};

    ghost Value = { MemorySink };

    ghost view = { λ s. record { written = s.bytes.items; room = s.room; faults = s.faults; puts = s.puts; failing = s.failing } };

    // What still fits is there already.
    ghost invariant = { λ s. vec_len s.bytes + s.room ≤ vec_capacity s.bytes };
}

impl MemSink {
    /// An empty sink that takes this many bytes.
    pub fn with_room(alloc: Global, room: usize) -> Result<MemSink, AllocError>
        ensures { IfOk result (λ sink. sink ≡ record { written = []; room = room; faults = 0; puts = 0; failing = None }) }
    {
        Ok(MemSink {
            bytes: Vec::with_capacity(alloc, room)?,
            room,
            faults: 0,
            puts: 0,
            failing: None,
        })
    }

    /// Makes the put of this number take at most `taken` bytes and fail; the first put has the
    /// number 1. A later call replaces it.
    pub fn fail_at(&mut self, call: u64, taken: usize)
        ensures { self.new ≡ record self.old { failing = Some (call, taken) } }
    {
        self.failing = Some((call, taken));
    }

    /// All that was written.
    pub fn bytes(&self) -> &[u8]
        ensures { result.now ≡ self.now.written }
    {
        self.bytes.as_slice()
    }

    // How many bytes the next put may take.
    fn allowance(&self) -> usize
        ensures within { result ≤ self.now.room }
        ensures value { result ≡ allowance self.now }
    {
        match self.failing {
            Some((call, taken)) if call == self.puts.saturating_add(1) => self.room.min(taken),
            _ => self.room,
        }
    }

    fn is_set_to_fail(&self) -> bool
        ensures { result ≡ is_set_to_fail self.now }
    {
        match self.failing {
            Some((call, _)) => call == self.puts.saturating_add(1),
            None => false,
        }
    }
}

impl Sink for MemSink {
    ghost written = { λ s. Some s.written };

    ghost faults = { λ s. s.faults };

    ghost puts = { λ s. told s.puts };

    ghost sure = { sure_of };

    fn put(&mut self, bytes: &[u8]) -> Result<(), SinkFailed>
        ensures written { OnOk result (GrowsBy (Some self.old.written) (Some self.new.written) bytes.now) }
        ensures cut_off { OnErr result (GrowsByPrefix (Some self.old.written) (Some self.new.written) bytes.now) }
        ensures failed { OnErr result (Rose self.old.faults self.new.faults) }

        ensures never_falls { self.old.faults ≤ self.new.faults }
        ensures counted { Advances (told self.old.puts) (told self.new.puts) }
        ensures sure { IfSome (sure_of self.old) (λ room. length bytes.now ≤ room → Rose self.old.faults self.new.faults → ⊥) }

        // Which puts fail, and all that a put changes.
        ensures exact { IsOk result ↔ IsTrue (takes_all self.old (length bytes.now)) }
        ensures after { self.new ≡ after_put self.old bytes.now }
    {
        let complete = !self.is_set_to_fail() && bytes.len() <= self.room;
        let count = self.allowance().min(bytes.len());
        // There is room for these, so this takes no memory.
        self.bytes.extend_from_slice(&bytes[..count]).unwrap();
        self.room -= count;
        self.puts = self.puts.saturating_add(1);
        if complete {
            return Ok(());
        }
        self.faults = self.faults.saturating_add(1);
        Err(SinkFailed)
    }
}
