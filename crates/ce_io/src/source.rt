ghost use Rattle.std.specs.Prelude.{◌≡◌, ◌<◌, ◌≤◌, ℕ, List, Option, IfOk, length};
ghost use Rattle.ce_io.specs.Faults.{HasCause};
ghost use Rattle.ce_io.specs.Source.{HasRead, given_count_after};

use crate::Failure;

/// Where bytes come from, in pieces of any length.
pub trait Source {
    /// The bytes still to come, where the source tells them.
    ghost left: { Self → Option (List ℕ) };

    /// How many bytes its reads gave so far. The count stands still at 2^64 - 1.
    ghost given: { Self → ℕ };

    /// How often a read failed so far. The count stands still at 2^64 - 1.
    ghost faults: { Self → ℕ };

    /// Reads the next bytes to the front of `buffer`, and answers how many: 0 at the end, and else
    /// from 1 to `buffer.len()`. After `Failure` the same bytes are still to come, and a later
    /// read may give them.
    fn read(&mut self, buffer: &mut [u8]) -> Result<usize, Failure>
        requires { 0 < length buffer.old }
        ensures count { IfOk result (λ n. n ≤ length buffer.new) }
        ensures given { given self.new ≡ given_count_after (given self.old) result }
        ensures left { HasRead (left self.old) (left self.new) result buffer.new }
        ensures cause { HasCause (faults self.old) (faults self.new) result };
}
