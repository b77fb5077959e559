//! A sink in memory.

ghost use Rattle.std.specs.Prelude.{◌≡◌, ℕ, ◌+◌, ◌^◌, ◌<◌, ◌≤◌, [], ◌++◌, length, take, Some, Ok, IsErr, IfOk, OnOk, OnErr, vec_capacity};

use super::{Failed, FaultCount, Sink};
use b3_base::NoMemory;
use std::alloc::Global;

/// A sink in memory with a fixed room in bytes, which takes a piece whole or not at all. A piece
/// past the room is a counted failure.
#[derive(Drop)]
pub struct VecSink {
    bytes: Vec<u8>,
    room: usize,
    faults: FaultCount,
    ghost within: { length bytes.items ≤ room },
    ghost reserved: { room ≤ vec_capacity bytes },
}

impl VecSink {
    ghost use Rattle.b3_io.specs.VecSink.{held_bytes, room_of, fault_count};

    /// An empty sink with room for `room` bytes, all taken at once. It is refused for want of
    /// memory alone.
    pub fn with_room(alloc: Global, room: usize) -> Result<VecSink, NoMemory>
        ensures empty { IfOk result (λ sink. held_bytes sink ≡ []) }
        ensures room { IfOk result (λ sink. room_of sink ≡ room) }
        ensures no_fault { IfOk result (λ sink. fault_count sink ≡ 0) }
    {
        let bytes = Vec::with_capacity(alloc, room)?;
        Ok(VecSink {
            bytes,
            room,
            faults: FaultCount::new(),
        })
    }

    /// The bytes that it holds, in order. It takes no memory.
    pub fn bytes(&self) -> &[u8]
        ensures { result.now ≡ held_bytes self.now }
    {
        self.bytes.as_slice()
    }
}

impl Sink for VecSink {
    ghost use Rattle.b3_io.specs.Faults.{Rose};
    ghost use Rattle.b3_io.specs.VecSink.{held_bytes, room_of, fault_count};

    ghost held = { λ s. Some (held_bytes s) };

    ghost faults = { λ s. fault_count s };

    ghost counted = { λ s. s.faults.counted };

    fn write(&mut self, piece: &[u8]) -> Result<usize, Failed>
        ensures bytes { IfOk result (λ n.
            held_bytes self.new ≡ held_bytes self.old ++ take n piece.now) }
        ensures steady { OnOk result (fault_count self.new ≡ fault_count self.old) }
        ensures none_taken { OnErr result (held_bytes self.new ≡ held_bytes self.old) }
        ensures cause { OnErr result (Rose (fault_count self.old) (fault_count self.new)) }
        ensures never_falls { fault_count self.old ≤ fault_count self.new }

        // A piece is taken whole where there is room for it, and else refused.
        ensures taken { length (held_bytes self.old) + length piece.now ≤ room_of self.old
            → result ≡ Ok (length piece.now) }
        ensures refused { room_of self.old < length (held_bytes self.old) + length piece.now
            → IsErr result }
        ensures room { room_of self.new ≡ room_of self.old }
    {
        let has_room = piece.len() <= self.room - self.bytes.len();
        if has_room && self.bytes.extend_from_slice(piece).is_ok() {
            return Ok(piece.len());
        }
        self.faults.rise();
        Err(Failed)
    }
}
