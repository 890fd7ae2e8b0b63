ghost use Rattle.std.specs.Prelude.{◌≡◌, ◌≤◌, ◌↔◌, Some, IsErr, IfOk, OnErr, length, take};
ghost use Rattle.ce_io.specs.Memory.{IsFailingNext, read_len, source_after_read, source_after_failed_read};

use crate::calls::Calls;
use crate::{Failure, Source};
use std::marker::Model;

/// A source over bytes in memory, which fails at the calls that it is told to fail at, and gives at
/// most so many bytes a call.
#[derive(Debug, Drop)]
pub struct MemSource {
    bytes: Vec<u8>,
    position: usize,
    calls: Calls,
}

impl Model for MemSource {
    ghost use Rattle.std.specs.Prelude.{◌≤◌, drop, vec_len};
    ghost use Rattle.ce_io.specs.Memory.{SourceState, plan_of};

    ghost Value = { SourceState };

    ghost view = { λ source. record {
      plan = plan_of source.calls;
      left = drop source.position source.bytes.items;
      given = source.position;
      faults = source.calls.faults;
    } };

    ghost invariant = { λ source. source.position ≤ vec_len source.bytes };
}

impl MemSource {
    /// A source of `bytes`. Its calls of `read` are numbered from 0 up to 2^64 - 1, where the
    /// number stands still. Those whose number is in `failing_calls`, in any order, fail, and are
    /// counted. Each other gives as many bytes as `greatest_piece`, the buffer and the bytes left
    /// allow.
    pub fn new(bytes: Vec<u8>, failing_calls: Vec<u64>, greatest_piece: usize) -> MemSource
        requires { 1 ≤ greatest_piece }
        ensures left { result.left ≡ bytes.items }
        ensures given { result.given ≡ 0 }
        ensures faults { result.faults ≡ 0 }
        ensures plan { result.plan ≡ record {
          failing_calls = failing_calls.items;
          next_call = 0;
          greatest_piece = greatest_piece;
        } }
    {
        MemSource {
            bytes,
            position: 0,
            calls: Calls::new(failing_calls, greatest_piece),
        }
    }
}

impl Source for MemSource {
    ghost left = { λ source. Some source.left };

    ghost given = { λ source. source.given };

    ghost faults = { λ source. source.faults };

    fn read(&mut self, buffer: &mut [u8]) -> Result<usize, Failure>
        // It fails exactly where its plan says so, and gives all that it may at each other call.
        ensures failed { IsErr result ↔ IsFailingNext self.old.plan }
        ensures err { OnErr result (self.new ≡ source_after_failed_read self.old) }
        ensures ok { IfOk result (λ n. (n ≡ read_len self.old (length buffer.old))
            × (self.new ≡ source_after_read self.old n)) }
        ensures bytes { IfOk result (λ n. take n buffer.new ≡ take n self.old.left) }
        ensures piece { 1 ≤ self.old.plan.greatest_piece }
    {
        self.calls.begin(false)?;
        let bytes_left = &self.bytes[self.position..];
        let count = bytes_left
            .len()
            .min(buffer.len())
            .min(self.calls.greatest_piece);
        buffer[..count].copy_from_slice(&bytes_left[..count]);
        self.position += count;
        Ok(count)
    }
}
