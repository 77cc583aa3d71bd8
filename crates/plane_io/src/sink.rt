ghost use Rattle.std.specs.Prelude.{ℕ, List, Option, OnOk, OnErr};
ghost use Rattle.plane_words.specs.Causes.{HasCause};
ghost use Rattle.plane_words.specs.Growth.{Grows, GrowsByFront};

use crate::Failed;

/// A place that bytes are written to, one after the other.
pub trait Sink {
    /// The bytes that were written so far, where the sink tells them.
    ghost held: { Self → Option (List ℕ) };

    /// A count that rises at least where a call fails, never falls, and stands still at 2^64 - 1.
    ghost faults: { Self → ℕ };

    /// Writes all of the bytes. Where that fails, a front of them was written, perhaps none of
    /// them.
    fn write(&mut self, bytes: &[u8]) -> Result<(), Failed>
        ensures ok { OnOk result (Grows (held self.old) (held self.new) bytes.now) }
        ensures err { OnErr result (GrowsByFront (held self.old) (held self.new) bytes.now) }
        ensures cause { HasCause (faults self.old) (faults self.new) result };
}
