ghost use Rattle.std.specs.Prelude.{◌≡◌, ◌≤◌, List, ℕ, Option, length, IfSome, OnOk, OnErr};
ghost use Rattle.vt_io.specs.Counts.{Rose, Advances};
ghost use Rattle.vt_io.specs.Written.{GrowsBy, GrowsByPrefix};

use thiserror::Error;

/// A put that wrote only a prefix of its bytes.
#[derive(Debug, Drop, Error)]
#[error("the output could not be written")]
pub struct SinkFailed;

/// Where bytes are written.
pub trait Sink {
    /// The bytes written so far, where this is told.
    ghost written: { Self → Option (List ℕ) };

    /// How often a put failed, up to the last value of a counter of 64 bits.
    ghost faults: { Self → ℕ };

    /// How many puts there were so far, where this is told.
    ghost puts: { Self → Option ℕ };

    /// How many bytes the next put is sure to take, where this is told.
    ghost sure: { Self → Option ℕ };

    /// Writes all the bytes, or a prefix of them.
    fn put(&mut self, bytes: &[u8]) -> Result<(), SinkFailed>
        ensures written { OnOk result (GrowsBy (written self.old) (written self.new) bytes.now) }
        ensures cut_off { OnErr result (GrowsByPrefix (written self.old) (written self.new) bytes.now) }
        ensures failed { OnErr result (Rose (faults self.old) (faults self.new)) }

        ensures never_falls { faults self.old ≤ faults self.new }
        ensures counted { Advances (puts self.old) (puts self.new) }
        ensures sure { IfSome (sure self.old) (λ room. length bytes.now ≤ room → Rose (faults self.old) (faults self.new) → ⊥) };
}
