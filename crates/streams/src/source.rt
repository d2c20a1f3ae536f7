ghost use Rattle.std.specs.Prelude.{◌<◌, ◌≤◌, List, ℕ, Option, length, IfOk};
ghost use Rattle.std.specs.Io.KnownBytes.{ReadConsumes};
ghost use Rattle.streams.specs.Causes.{HasCause};

use crate::failed::Failed;

/// Where bytes come from. A source may tell which bytes it has left, and it counts its faults.
pub trait Source {
    /// The bytes that are left, where the source tells them.
    ghost left: { Self → Option (List ℕ) };

    /// How often a read has failed. It never falls, and stands still at 2^64 - 1.
    ghost faults: { Self → ℕ };

    /// Puts the next bytes into the front of `into`, and answers how many. It answers 0 only at the end of
    /// the bytes. Where it fails it took none, and its count of faults rose.
    fn read(&mut self, into: &mut [u8]) -> Result<usize, Failed>
        requires { 0 < length into.old }
        ensures bound { IfOk result (λ n. n ≤ length into.old) }
        ensures bytes { ReadConsumes (left self.old) (left self.new) result into.new }
        ensures cause { HasCause (faults self.old) (faults self.new) result };
}
