//! What bytes are read from.

ghost use Rattle.std.specs.Prelude.{◌≡◌, ℕ, ◌^◌, ◌<◌, ◌≤◌, List, length, take, Option, IfOk, OnOk, OnErr};
ghost use Rattle.std.specs.Io.KnownBytes.{Consumes, Keeps, IsAtEnd};
ghost use Rattle.b3_io.specs.Faults.{Rose};

/// A read or a write failed. It moved no byte.
#[derive(Clone, Copy, Debug, PartialEq, Eq)]
pub struct Failed;

/// What bytes are read from, in order, each once.
///
/// Contracts see two values. `left` is the bytes still to come, where the source tells them.
/// `faults` is the number of reads that have failed, which never falls and stays at 2^64 - 1 once
/// it is there.
pub trait Source {
    ghost left: { Self → Option (List ℕ) };

    ghost faults: { Self → ℕ };

    /// Reads the next bytes into the front of `into` and says how many. 0 bytes in a slice that
    /// isn't empty mean the end. It is refused for a failure outside alone, which is counted and
    /// takes no byte.
    fn read(&mut self, into: &mut [u8]) -> Result<usize, Failed>
        ensures bound { IfOk result (λ n. n ≤ length into.new) }
        ensures bytes { IfOk result (λ n.
            Consumes (left self.old) (left self.new) (take n into.new)) }
        ensures end { IfOk result (λ n. n ≡ 0 → 0 < length into.new → IsAtEnd (left self.old)) }
        ensures steady { OnOk result (faults self.new ≡ faults self.old) }
        ensures none_lost { OnErr result (Keeps (left self.old) (left self.new)) }
        ensures cause { OnErr result (Rose (faults self.old) (faults self.new)) }
        ensures never_falls { faults self.old ≤ faults self.new };

    ghost counted: { (s : Self) → faults s < 2 ^ 64 };
}
