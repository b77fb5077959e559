//! A source in memory that fails as a script says.

ghost use Rattle.std.specs.Prelude.{◌≡◌, ◌+◌, ◌-◌, ◌^◌, ◌<◌, ◌≤◌, [], ◌++◌, length, take, min, true, false, Some, Ok, IsErr, IfOk, OnOk, OnErr};
ghost use Rattle.b3_io.specs.Faults.{Rose};
ghost use Rattle.b3_io.specs.Script.{fails_at};

use super::{Failed, FaultCount, Script, Source};
use b3_base::{Bytes, NoMemory};
use std::alloc::Global;

/// A source over bytes in memory that gives at most so many bytes a call, and of which some calls fail and
/// are counted.
#[derive(Drop)]
pub struct ScriptSource {
    bytes: Bytes,
    at: usize,
    script: Script,
    faults: FaultCount,
    ghost within: { at ≤ length bytes },
}

impl ScriptSource {
    ghost use Rattle.b3_io.specs.ScriptStreams.{calls_of, fails_of, faults_of, left_of, most_of};

    /// A source that gives `bytes`, at most `most` of them a call. The calls whose numbers `fails` holds,
    /// counted from 1, fail. It is refused for want of memory alone.
    pub fn new(
        alloc: Global,
        bytes: &[u8],
        fails: &[u64],
        most: usize,
    ) -> Result<ScriptSource, NoMemory>
        requires { 1 ≤ most }
        ensures left { IfOk result (λ source. left_of source ≡ bytes.now) }
        ensures fails { IfOk result (λ source. fails_of source ≡ fails.now) }
        ensures most { IfOk result (λ source. most_of source ≡ most) }
        ensures calls { IfOk result (λ source. calls_of source ≡ 0) }
        ensures no_fault { IfOk result (λ source. faults_of source ≡ 0) }
    {
        let mut kept = Bytes::new(alloc);
        kept.extend(bytes)?;
        Ok(ScriptSource {
            bytes: kept,
            at: 0,
            script: Script::new(alloc, fails, most)?,
            faults: FaultCount::new(),
        })
    }
}

impl Source for ScriptSource {
    ghost use Rattle.b3_io.specs.ScriptStreams.{calls_of, fails_of, faults_of, left_of, most_of};

    ghost left = { λ s. Some (left_of s) };

    ghost faults = { λ s. faults_of s };

    ghost counted = { λ s. s.faults.counted };

    fn read(&mut self, into: &mut [u8]) -> Result<usize, Failed>
        ensures bytes { IfOk result (λ n. left_of self.old ≡ take n into.new ++ left_of self.new) }
        ensures steady { OnOk result (faults_of self.new ≡ faults_of self.old) }
        ensures none_lost { OnErr result (left_of self.new ≡ left_of self.old) }
        ensures cause { OnErr result (Rose (faults_of self.old) (faults_of self.new)) }
        ensures never_falls { faults_of self.old ≤ faults_of self.new }

        // The call fails as the script says, and else gives as many bytes as it may.
        ensures fails { fails_at (fails_of self.old) (min (calls_of self.old + 1) (2 ^ 64 - 1)) ≡ true → IsErr result }
        ensures gives { fails_at (fails_of self.old) (min (calls_of self.old + 1) (2 ^ 64 - 1)) ≡ false
            → result ≡ Ok (min (min (length into.new) (most_of self.old)) (length (left_of self.old))) }
        ensures calls { calls_of self.new ≡ min (calls_of self.old + 1) (2 ^ 64 - 1) }
        ensures kept { fails_of self.new ≡ fails_of self.old }
        ensures kept_most { most_of self.new ≡ most_of self.old }
    {
        if self.script.next_fails() {
            self.faults.rise();
            return Err(Failed);
        }
        let (_, rest) = self.bytes.as_slice().split_at(self.at);
        let count = into.len().min(self.script.most).min(rest.len());
        let (given, _) = rest.split_at(count);
        into[..count].copy_from_slice(given);
        self.at += count;
        Ok(count)
    }
}
