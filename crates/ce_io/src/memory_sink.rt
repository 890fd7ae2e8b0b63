ghost use Rattle.std.specs.Prelude.{◌≡◌, ◌≤◌, ◌↔◌, ◌⊎◌, [], Some, IsErr, IfOk, OnErr, length};
ghost use Rattle.ce_io.specs.Memory.{IsFailingNext, write_len, sink_after_write, sink_after_failed_write};

use crate::calls::Calls;
use crate::{Failure, Sink};
use ce_model::NoMemory;
use std::alloc::Global;
use std::marker::Model;

/// A sink in memory with room for so many bytes, which fails at the calls that it is told to fail
/// at, and takes at most so many bytes a call.
#[derive(Debug, Drop)]
pub struct MemSink {
    bytes: Vec<u8>,
    room: usize,
    calls: Calls,
}

impl Model for MemSink {
    ghost use Rattle.std.specs.Prelude.{◌≤◌, vec_len, vec_capacity};
    ghost use Rattle.ce_io.specs.Memory.{SinkState, plan_of};

    ghost Value = { SinkState };

    ghost view = { λ sink. record {
      plan = plan_of sink.calls;
      written = sink.bytes.items;
      room = sink.room;
      faults = sink.calls.faults;
    } };

    ghost invariant = { λ sink. (vec_len sink.bytes ≤ sink.room)
        × (sink.room ≤ vec_capacity sink.bytes) };
}

impl MemSink {
    /// A sink with room for `room` bytes, which are reserved here, so that no write takes memory.
    /// Its calls of `write` are numbered from 0 up to 2^64 - 1, where the number stands still.
    /// Those whose number is in `failing_calls`, in any order, fail, and so does each that finds no
    /// room left. Each other takes as many bytes as `greatest_piece`, the piece and the room left
    /// allow. `NoMemory`: the room can't be reserved.
    pub fn new(
        alloc: Global,
        room: usize,
        failing_calls: Vec<u64>,
        greatest_piece: usize,
    ) -> Result<MemSink, NoMemory>
        requires { 1 ≤ greatest_piece }
        ensures written { IfOk result (λ sink. sink.written ≡ []) }
        ensures faults { IfOk result (λ sink. sink.faults ≡ 0) }
        ensures room { IfOk result (λ sink. sink.room ≡ room) }
        ensures plan { IfOk result (λ sink. sink.plan
            ≡ record {
              failing_calls = failing_calls.items;
              next_call = 0;
              greatest_piece = greatest_piece;
            }) }
    {
        let bytes = Vec::with_capacity(alloc, room)?;
        Ok(MemSink {
            bytes,
            room,
            calls: Calls::new(failing_calls, greatest_piece),
        })
    }

    /// The bytes written so far.
    pub fn bytes(&self) -> &[u8]
        ensures { result.now ≡ self.now.written }
    {
        &self.bytes
    }
}

impl Sink for MemSink {
    ghost written = { λ sink. Some sink.written };

    ghost faults = { λ sink. sink.faults };

    fn write(&mut self, piece: &[u8]) -> Result<usize, Failure>
        // It fails exactly where its plan says so or no room is left, and takes all that it may at
        // each other call.
        ensures failed { IsErr result
            ↔ (IsFailingNext self.old.plan ⊎ (self.old.room ≤ length self.old.written)) }
        ensures err { OnErr result (self.new ≡ sink_after_failed_write self.old) }
        ensures ok { IfOk result (λ n. (n ≡ write_len self.old piece.now)
            × (self.new ≡ sink_after_write self.old piece.now n)) }
        ensures piece { 1 ≤ self.old.plan.greatest_piece }
    {
        let free = self.room - self.bytes.len();
        self.calls.begin(free == 0)?;
        let count = piece.len().min(free).min(self.calls.greatest_piece);
        self.bytes.extend_from_slice(&piece[..count]).unwrap();
        Ok(count)
    }
}
