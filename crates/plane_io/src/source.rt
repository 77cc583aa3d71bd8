ghost use Rattle.std.specs.Prelude.{◌≡◌, ◌≤◌, ◌<◌, ℕ, List, [], length, take, Option, OnOk, IfOk};
ghost use Rattle.std.specs.Prelude.{IfSome, Ok};
ghost use Rattle.plane_words.specs.Causes.{HasCause};
ghost use Rattle.plane_words.specs.Growth.{Gives};

use crate::Failed;

/// A stream of bytes that is read from front to back.
pub trait Source {
    /// The bytes that are left, where the source tells them.
    ghost left: { Self → Option (List ℕ) };

    /// A count that rises at least where a call fails, never falls, and stands still at 2^64 - 1.
    ghost faults: { Self → ℕ };

    /// Reads some bytes into the front of `into`, which is not empty, and answers how many. 0 means
    /// the end.
    fn read(&mut self, into: &mut [u8]) -> Result<usize, Failed>
        requires { 0 < length into.old }
        ensures fits { IfOk result (λ count. count ≤ length into.new) }
        ensures gives { IfOk result (λ count.
            Gives (left self.old) (left self.new) (take count into.new)) }
        ensures end { result ≡ Ok 0 → IfSome (left self.old) (λ bytes. bytes ≡ []) }
        ensures cause { HasCause (faults self.old) (faults self.new) result };
}
