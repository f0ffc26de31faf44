ghost use Rattle.std.specs.Prelude.{◌≡◌, ◌≤◌, None, IfSome, OnErr, OnOk, length};
ghost use Rattle.std.specs.Io.KnownBytes.{Appends};
ghost use Rattle.vt_io.specs.Counts.{Rose, Advances};
ghost use Rattle.vt_io.specs.Host.{never_sure};
ghost use Rattle.vt_io.specs.Memory.{raised};
ghost use Rattle.vt_io.specs.Written.{GrowsBy, GrowsByPrefix};

use crate::{Sink, SinkFailed};
use std::io;
use std::io::{Print, Write};
use std::marker::Model;

/// Standard output. It tells nothing of what was written. Each `Err` raises its count of failures.
#[derive(Drop)]
pub struct HostSink<'a, R> {
    runtime: &'a R,
    faults: u64,
}

impl<'a, R> Model for HostSink<'a, R> {
    ghost use Rattle.std.specs.Prelude.{ℕ};

    ghost Value = { ℕ };

    ghost view = { λ s. s.faults };
}

impl<'a, R: Print> HostSink<'a, R> {
    /// A sink that has not failed yet.
    pub fn new(runtime: &'a R) -> HostSink<'a, R>
        ensures { result ≡ 0 }
    {
        HostSink { runtime, faults: 0 }
    }
}

impl<'a, R: Print> Sink for HostSink<'a, R> {
    ghost written = { λ _. None };

    ghost faults = { λ count. count };

    ghost puts = { λ _. None };

    ghost sure = { never_sure };

    fn put(&mut self, bytes: &[u8]) -> Result<(), SinkFailed>
        ensures written { OnOk result (GrowsBy None None bytes.now) }
        ensures cut_off { OnErr result (GrowsByPrefix None None bytes.now) }
        ensures failed { OnErr result (Rose self.old self.new) }

        ensures never_falls { self.old ≤ self.new }
        ensures counted { Advances None None }
        ensures sure { IfSome (never_sure self.old) (λ room. length bytes.now ≤ room → Rose self.old self.new → ⊥) }

        // Each `Err` is counted, and nothing else.
        ensures ok { OnOk result (self.new ≡ self.old) }
        ensures err { OnErr result (self.new ≡ raised self.old) }
    {
        let written = write_whole(&mut io::writer(self.runtime), bytes);
        if written.is_err() {
            self.faults = self.faults.saturating_add(1);
        }
        written
    }
}

// Writes all the bytes, or fails at the first error. A write that takes nothing would be asked
// again for ever, so it is an error too.
fn write_whole<W: Write>(writer: &mut W, bytes: &[u8]) -> Result<(), SinkFailed>
    ensures { OnOk result (Appends (W.contents writer.old) (W.contents writer.new) bytes.now) }
{
    let mut left = bytes;
    while !left.is_empty() {
        match writer.write(left) {
            Ok(0) | Err(_) => return Err(SinkFailed),
            Ok(count) => left = &left[count..],
        }
    }
    Ok(())
}
