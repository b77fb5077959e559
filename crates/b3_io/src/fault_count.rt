//! A count of failures in 64 bits.

ghost use Rattle.std.specs.Prelude.{◌≡◌, ◌+◌, ◌-◌, ◌^◌, ◌<◌, ◌≤◌, min};
ghost use Rattle.b3_io.specs.Faults.{Rose};

/// How many calls of a source or a sink have failed. It never falls, and stays at 2^64 - 1 once it
/// is there.
#[derive(Drop)]
pub(crate) struct FaultCount {
    /// The number of failed calls.
    pub(crate) count: u64,
    ghost counted: { count < 2 ^ 64 },
}

impl FaultCount {
    /// No failure so far.
    pub(crate) fn new() -> FaultCount
        ensures { result.count ≡ 0 }
    {
        FaultCount { count: 0 }
    }

    /// Counts one more failure.
    pub(crate) fn rise(&mut self)
        ensures value { self.new.count ≡ min (self.old.count + 1) (2 ^ 64 - 1) }
        ensures rose { Rose self.old.count self.new.count }
        ensures never_falls { self.old.count ≤ self.new.count }
    {
        self.count = self.count.saturating_add(1);
    }
}
