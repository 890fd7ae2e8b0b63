ghost use Rattle.std.specs.Prelude.{◌≡◌, ◌<◌, ◌≤◌, ℕ, List, Option, IfOk, length};
ghost use Rattle.ce_io.specs.Faults.{HasCause};
ghost use Rattle.ce_io.specs.Sink.{written_bytes_after};

use crate::Failure;

/// Where bytes go, in pieces of any length.
pub trait Sink {
    /// The bytes written so far, where the sink tells them.
    ghost written: { Self → Option (List ℕ) };

    /// How often a write failed so far. The count stands still at 2^64 - 1.
    ghost faults: { Self → ℕ };

    /// Takes bytes from the front of `piece`, and answers how many: from 1 to `piece.len()`.
    /// `Failure` took none.
    fn write(&mut self, piece: &[u8]) -> Result<usize, Failure>
        requires { 0 < length piece.now }
        ensures count { IfOk result (λ n. (1 ≤ n) × (n ≤ length piece.now)) }
        ensures written { written self.new
            ≡ written_bytes_after (written self.old) result piece.now }
        ensures cause { HasCause (faults self.old) (faults self.new) result };
}
