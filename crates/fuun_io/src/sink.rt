// Where bytes go.
ghost use Rattle.std.specs.Prelude.{◌≡◌, ℕ, ◌<◌, ◌≤◌, List, Option, length, take, OnErr, IfOk};
ghost use Rattle.fuun_io.specs.Counts.{HasCause};
ghost use Rattle.fuun_io.specs.Written.{appended};

use crate::Failed;

/// Bytes written one after another.
pub trait Sink {
    /// The bytes written so far, where they are told.
    ghost bytes: { Self → Option (List ℕ) };

    /// How many faults were counted so far, up to `u64::MAX`.
    ghost faults: { Self → ℕ };

    /// Writes a front of the piece, at least one byte, and answers how many. A device that takes none is
    /// answered as `Failed`.
    fn put(&mut self, piece: &[u8]) -> Result<usize, Failed>
        requires { 0 < length piece.now }
        ensures some { IfOk result (λ count. 1 ≤ count) }
        ensures bound { IfOk result (λ count. count ≤ length piece.now) }
        ensures put { IfOk result (λ count. bytes self.new ≡ appended (bytes self.old) (take count piece.now)) }
        ensures none_put { OnErr result (bytes self.new ≡ bytes self.old) }
        ensures cause { HasCause (faults self.old) (faults self.new) result };
}
