//! A sink in memory that fails as a script says.

ghost use Rattle.std.specs.Prelude.{◌≡◌, ◌+◌, ◌-◌, ◌^◌, ◌<◌, ◌≤◌, [], ◌++◌, length, take, min, true, false, Some, Ok, IsErr, IfOk, OnOk, OnErr, vec_capacity};
ghost use Rattle.b3_io.specs.Faults.{Rose};
ghost use Rattle.b3_io.specs.Script.{fails_at};

use super::{Failed, FaultCount, Script, Sink};
use b3_base::NoMemory;
use std::alloc::Global;

/// A sink in memory with a fixed room in bytes that takes at most so many bytes a call, and of which some calls
/// fail and are counted. A call that would pass the room is a counted failure too.
#[derive(Drop)]
pub struct ScriptSink {
    bytes: Vec<u8>,
    room: usize,
    script: Script,
    faults: FaultCount,
    ghost within: { length bytes.items ≤ room },
    ghost reserved: { room ≤ vec_capacity bytes },
}

impl ScriptSink {
    ghost use Rattle.b3_io.specs.ScriptStreams.{held_of, sink_calls_of, sink_fails_of, sink_faults_of, sink_most_of, sink_room_of};

    /// An empty sink with room for `room` bytes, all taken at once, which takes at most `most` bytes a call.
    /// The calls whose numbers `fails` holds, counted from 1, fail. It is refused for want of memory alone.
    pub fn new(
        alloc: Global,
        fails: &[u64],
        most: usize,
        room: usize,
    ) -> Result<ScriptSink, NoMemory>
        requires { 1 ≤ most }
        ensures empty { IfOk result (λ sink. held_of sink ≡ []) }
        ensures fails { IfOk result (λ sink. sink_fails_of sink ≡ fails.now) }
        ensures most { IfOk result (λ sink. sink_most_of sink ≡ most) }
        ensures room { IfOk result (λ sink. sink_room_of sink ≡ room) }
        ensures calls { IfOk result (λ sink. sink_calls_of sink ≡ 0) }
        ensures no_fault { IfOk result (λ sink. sink_faults_of sink ≡ 0) }
    {
        let bytes = Vec::with_capacity(alloc, room)?;
        Ok(ScriptSink {
            bytes,
            room,
            script: Script::new(alloc, fails, most)?,
            faults: FaultCount::new(),
        })
    }

    /// The bytes that it holds, in order. It takes no memory.
    pub fn bytes(&self) -> &[u8]
        ensures { result.now ≡ held_of self.now }
    {
        self.bytes.as_slice()
    }
}

impl Sink for ScriptSink {
    ghost use Rattle.b3_io.specs.ScriptStreams.{held_of, sink_calls_of, sink_fails_of, sink_faults_of, sink_most_of, sink_room_of};

    ghost held = { λ s. Some (held_of s) };

    ghost faults = { λ s. sink_faults_of s };

    ghost counted = { λ s. s.faults.counted };

    fn write(&mut self, piece: &[u8]) -> Result<usize, Failed>
        ensures bytes { IfOk result (λ n. held_of self.new ≡ held_of self.old ++ take n piece.now) }
        ensures steady { OnOk result (sink_faults_of self.new ≡ sink_faults_of self.old) }
        ensures none_taken { OnErr result (held_of self.new ≡ held_of self.old) }
        ensures cause { OnErr result (Rose (sink_faults_of self.old) (sink_faults_of self.new)) }
        ensures never_falls { sink_faults_of self.old ≤ sink_faults_of self.new }

        // The call fails as the script says and where what it would take passes the room, and else takes as
        // many bytes as it may.
        ensures fails { fails_at (sink_fails_of self.old) (min (sink_calls_of self.old + 1) (2 ^ 64 - 1)) ≡ true → IsErr result }
        ensures refused { sink_room_of self.old < length (held_of self.old) + min (length piece.now) (sink_most_of self.old) → IsErr result }
        ensures taken { fails_at (sink_fails_of self.old) (min (sink_calls_of self.old + 1) (2 ^ 64 - 1)) ≡ false
            → length (held_of self.old) + min (length piece.now) (sink_most_of self.old) ≤ sink_room_of self.old
            → result ≡ Ok (min (length piece.now) (sink_most_of self.old)) }
        ensures calls { sink_calls_of self.new ≡ min (sink_calls_of self.old + 1) (2 ^ 64 - 1) }
        ensures kept { sink_fails_of self.new ≡ sink_fails_of self.old }
        ensures kept_most { sink_most_of self.new ≡ sink_most_of self.old }
        ensures kept_room { sink_room_of self.new ≡ sink_room_of self.old }
    {
        if self.script.next_fails() {
            self.faults.rise();
            return Err(Failed);
        }
        let count = piece.len().min(self.script.most);
        let (front, _) = piece.split_at(count);
        let has_room = count <= self.room - self.bytes.len();
        if has_room && self.bytes.extend_from_slice(front).is_ok() {
            return Ok(count);
        }
        self.faults.rise();
        Err(Failed)
    }
}
