//! The calls of a source or a sink in memory.
ghost use Rattle.std.specs.Prelude.{◌≤◌};

use crate::Failure;

/// Which calls of a source or a sink in memory fail, how many bytes each other one moves at most,
/// and how many calls failed so far.
#[derive(Debug, Drop)]
pub(crate) struct Calls {
    /// The numbers of the calls that fail, in any order.
    pub failing_calls: Vec<u64>,
    /// The number of the next call, from 0 up to 2^64 - 1, where it stands still.
    pub next_call: u64,
    /// How many bytes a call moves at most.
    pub greatest_piece: usize,
    /// How many calls failed so far. The count stands still at 2^64 - 1.
    pub faults: u64,
    ghost moves: { 1 ≤ greatest_piece },
}

impl Calls {
    ghost use Rattle.std.specs.Prelude.{◌≡◌, ◌↔◌, ◌⊎◌, IsErr, IsTrue};
    ghost use Rattle.ce_io.specs.Faults.{faults_after};
    ghost use Rattle.ce_io.specs.Memory.{IsFailingNext, next_plan, plan_of};

    /// The calls before the first one.
    pub fn new(failing_calls: Vec<u64>, greatest_piece: usize) -> Calls
        requires { 1 ≤ greatest_piece }
        ensures faults { result.faults ≡ 0 }
        ensures plan { plan_of result ≡ record {
          failing_calls = failing_calls.items;
          next_call = 0;
          greatest_piece = greatest_piece;
        } }
    {
        Calls {
            failing_calls,
            next_call: 0,
            greatest_piece,
            faults: 0,
        }
    }

    /// Begins the next call, which fails where it is one of those that do, and where nothing can be
    /// moved.
    pub fn begin(&mut self, is_blocked: bool) -> Result<(), Failure>
        ensures failed { IsErr result
            ↔ (IsFailingNext (plan_of self.old) ⊎ IsTrue is_blocked) }
        ensures plan { plan_of self.new ≡ next_plan (plan_of self.old) }
        ensures faults { self.new.faults ≡ faults_after self.old.faults result }
    {
        let is_failing = self.is_failing();
        self.next_call = self.next_call.saturating_add(1);
        if is_blocked || is_failing {
            self.faults = self.faults.saturating_add(1);
            return Err(Failure);
        }
        Ok(())
    }

    fn is_failing(&self) -> bool
        ensures { IsTrue result ↔ IsFailingNext (plan_of self.now) }
    {
        self.failing_calls.contains(&self.next_call)
    }
}
