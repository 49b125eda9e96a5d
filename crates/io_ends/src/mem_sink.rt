//! A sink in memory, with a room, whose calls fail as a list says.

ghost use Rattle.std.specs.Prelude.{◌≡◌, ◌<◌, ◌≤◌, ◌↔◌, [], length, take, Some, IsErr, IfOk, OnErr};
ghost use Rattle.io_ends.specs.Memory.{SinkFails, taken_count, sink_taken, sink_failed};

use super::calls::is_failing;
use super::{Failed, Sink};
use std::alloc::{AllocError, Global};
use std::marker::Model;

/// A sink in memory. Its calls are numbered from 0; a call fails where its number is in a list or no room is left,
/// and every other call takes the least of `most`, the length of the piece and the room. Its count is the number of
/// failed calls.
#[derive(Drop)]
pub struct MemSink {
    bytes: Vec<u8>,
    room: usize,
    most: usize,
    fails: Vec<u64>,
    call: u64,
    faults: u64,
}

impl Model for MemSink {
    ghost use Rattle.std.specs.Prelude.{◌+◌, ◌≤◌};
    ghost use Rattle.std.specs.Vec.{vec_len, vec_capacity};
    ghost use Rattle.io_ends.specs.Memory.{MemoryRoom};

    ghost Value = { MemoryRoom };

    ghost view = { λ s. record { bytes = s.bytes.items; room = s.room; most = s.most; fails = s.fails.items; call = s.call; faults = s.faults } };

    ghost invariant = { λ s. (vec_len s.bytes + s.room ≤ vec_capacity s.bytes) × (1 ≤ s.most) };
}

impl MemSink {
    /// A sink with memory for `room` bytes, which takes at most `most` bytes a call and fails at the calls of
    /// these numbers.
    ///
    /// Refuses only where no memory is left.
    pub fn make(
        alloc: Global,
        most: usize,
        room: usize,
        fails: Vec<u64>,
    ) -> Result<MemSink, AllocError>
        requires { 1 ≤ most }
        ensures { IfOk result (λ sink. sink ≡ record { bytes = []; room = room; most = most; fails = fails.items; call = 0; faults = 0 }) }
    {
        let bytes = Vec::with_capacity(alloc, room)?;
        Ok(MemSink {
            bytes,
            room,
            most,
            fails,
            call: 0,
            faults: 0,
        })
    }

    /// The bytes that it has taken.
    pub fn bytes(&self) -> &[u8]
        ensures { result.now ≡ self.now.bytes }
    {
        self.bytes.as_slice()
    }
}

impl Sink for MemSink {
    ghost taken = { λ s. Some s.bytes };

    ghost faults = { λ s. s.faults };

    /// Fails exactly at the calls of the list and where no room is left; else takes as many bytes as it may.
    fn write(&mut self, piece: &[u8]) -> Result<usize, Failed>
        requires { 0 < length piece.now }
        ensures fails { IsErr result ↔ SinkFails self.old }
        ensures count { IfOk result (λ n. n ≡ taken_count self.old (length piece.now)) }
        ensures some { IfOk result (λ n. 0 < n) }
        ensures after { IfOk result (λ n. self.new ≡ sink_taken self.old (take n piece.now)) }
        ensures failed { OnErr result (self.new ≡ sink_failed self.old) }
        ensures never_falls { self.old.faults ≤ self.new.faults }
    {
        let fails = is_failing(&self.fails, self.call) || self.room == 0;
        self.call = self.call.saturating_add(1);
        if fails {
            self.faults = self.faults.saturating_add(1);
            return Err(Failed);
        }
        let n = self.most.min(piece.len()).min(self.room);
        self.bytes.extend_from_slice(&piece[..n]).unwrap();
        self.room -= n;
        Ok(n)
    }
}
