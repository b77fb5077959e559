//! What bytes are written to.

ghost use Rattle.std.specs.Prelude.{◌≡◌, ℕ, ◌^◌, ◌<◌, ◌≤◌, List, length, take, Option, IfOk, OnOk, OnErr};
ghost use Rattle.std.specs.Io.KnownBytes.{Appends, Keeps};
ghost use Rattle.b3_io.specs.Faults.{Rose};

use super::Failed;

/// What bytes are written to, in order.
///
/// Contracts see two values. `held` is the bytes that it has taken, where the sink tells them.
/// `faults` is the number of writes that have failed, which never falls and stays at 2^64 - 1 once
/// it is there.
pub trait Sink {
    ghost held: { Self → Option (List ℕ) };

    ghost faults: { Self → ℕ };

    /// Takes the first bytes of `piece` and says how many: at least 1 of a piece that isn't empty.
    /// It is refused for a failure outside or want of room, which is counted and takes no byte.
    fn write(&mut self, piece: &[u8]) -> Result<usize, Failed>
        ensures bound { IfOk result (λ n. n ≤ length piece.now) }
        ensures bytes { IfOk result (λ n.
            Appends (held self.old) (held self.new) (take n piece.now)) }
        ensures progress { IfOk result (λ n. 0 < length piece.now → 0 < n) }
        ensures steady { OnOk result (faults self.new ≡ faults self.old) }
        ensures none_taken { OnErr result (Keeps (held self.old) (held self.new)) }
        ensures cause { OnErr result (Rose (faults self.old) (faults self.new)) }
        ensures never_falls { faults self.old ≤ faults self.new };

    ghost counted: { (s : Self) → faults s < 2 ^ 64 };
}
